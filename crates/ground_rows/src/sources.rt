// Sources of our own: one without an end in sight, one that counts the calls, and a reader of std.
ghost use Rattle.std.specs.Prelude.{◌≤◌, ◌<◌, None};

use crate::ends::{NEVER, piece, source};
use crate::lines::put_answer;
use crate::notation::{number_below, put_written};
use row_lines::{Row, say};
use si_causes::{Failed, LineReader, MemSource, Source};
use std::alloc::{AllocError, Global};
use std::fmt::Write;
use std_streams::ReaderSource;

// A source of so many bytes `a`.
#[derive(Drop)]
struct Repeated {
    left: u64,
}

impl Source for Repeated {
    ghost left = { λ _. None };

    ghost faults = { λ _. 0 };

    ghost same = { λ _ _. Unit {0} };

    ghost same_at_once = { λ a. tt };

    ghost same_later = { λ a b c p q. tt };

    fn read(&mut self, into: &mut [u8]) -> Result<usize, Failed> {
        into.fill(b'a');
        let count = self.left.min(into.len() as u64);
        self.left -= count;
        Ok(count as usize)
    }
}

/// What the first three calls answer of a text of so many bytes without a line's end.
pub fn put_long(row: &mut Row) {
    let left = number_below(row, 100_000_000);
    let lines = LineReader::open(row.alloc(), Repeated { left });
    if let Some(mut lines) = row.made(lines) {
        for _ in 0..3 {
            put_answer(row, lines.next());
        }
    }
}

// A source that counts the calls.
#[derive(Drop)]
struct Counted {
    source: MemSource,
    calls: u64,
}

impl Source for Counted {
    ghost left = { λ _. None };

    ghost faults = { λ s. s.source.calls.faults };

    ghost same = { λ _ _. Unit {0} };

    ghost same_at_once = { λ a. tt };

    ghost same_later = { λ a b c p q. tt };

    fn read(&mut self, into: &mut [u8]) -> Result<usize, Failed> {
        self.calls = self.calls.saturating_add(1);
        self.source.read(into)
    }
}

fn read_lines<S: Source>(alloc: Global, source: S, count: u64) -> Result<(), AllocError> {
    let mut lines = LineReader::open(alloc, source)?;
    for _ in 0..count {
        let _ = lines.next();
    }
    let _source = lines.close();
    Ok(())
}

// How often a source is read for so many lines.
fn calls(alloc: Global, bytes: &[u8], piece: usize, count: u64) -> Result<u64, AllocError>
    requires { 0 < piece }
{
    let source = source(alloc, bytes, piece, NEVER)?;
    let mut counted = Counted { source, calls: 0 };
    read_lines(alloc, &mut counted, count)?;
    Ok(counted.calls)
}

/// How often a source is read for so many lines: of the size of the pieces, the number of lines, and the bytes.
pub fn put_calls(row: &mut Row) {
    let size = row.word();
    let (piece, count) = (piece(row, size), number_below(row, 1_000));
    let bytes = row.rest_bytes();
    let calls = calls(row.alloc(), &bytes, piece, count);
    if let Some(calls) = row.made(calls) {
        say!(row; " {calls}");
    }
}

/// What reads of one byte give of a source over a reader of these bytes, up to the first that gives none.
pub fn put_reader(row: &mut Row, bytes: &[u8]) {
    let mut source = ReaderSource::open(bytes);
    let mut into = [0; 1];
    for _ in 0..100 {
        if source.read(&mut into) != Ok(1) {
            return row.put(" end");
        }
        put_written(row, &into);
    }
}
