// Ends in memory: a sink that fails, a source that never fails, and an opener of files.
ghost use Rattle.std.specs.Prelude.{◌<◌};

use crate::ends::{ends, piece, sink};
use crate::notation::{append, put_written};
use row_lines::{Row, say};
use si_causes::{Failed, MemOpener, MemSink, NeverFails, Opener, Source, write_all};
use std::alloc::{AllocError, Global};
use std::fmt::Write;

fn put_whole(row: &mut Row, whole: Result<(), Failed>) {
    row.put(if whole.is_ok() { " whole" } else { " failed" });
}

fn put_writes(row: &mut Row, sink: &mut MemSink) {
    put_whole(row, write_all(sink, b"abcdef"));
    put_whole(row, write_all(sink, b"xyz"));
    put_written(row, sink.taken());
}

/// Whether each of two writes of six and three letters is whole to a sink that takes pieces of this size and of which a call fails, and
/// what it took.
pub fn put_sink(row: &mut Row) {
    let (size, fails) = ends(row);
    let piece = piece(row, size);
    let sink = sink(row.alloc(), piece, fails);
    if let Some(mut sink) = row.made(sink) {
        put_writes(row, &mut sink);
    }
}

fn put_count(row: &mut Row, count: Result<usize, Failed>) {
    match count {
        Ok(count) => say!(row; " {count}"),
        Err(_) => row.put(" failed"),
    }
}

/// What a read of two bytes gives of a source that never fails.
pub fn put_front(row: &mut Row, bytes: &[u8]) {
    let mut into = [0; 2];
    let mut copy = Vec::new(row.alloc());
    append(row, &mut copy, bytes);
    let count = NeverFails::open(copy).read(&mut into);
    put_count(row, count);
    put_written(row, &into);
}

fn add_file(
    alloc: Global,
    files: &mut Vec<(String, Vec<u8>)>,
    path: &str,
    bytes: &[u8],
) -> Result<(), AllocError> {
    let path = String::from_str(alloc, path)?;
    let bytes = Vec::from_slice(alloc, bytes)?;
    files.push((path, bytes))?;
    Ok(())
}

// An opener of two files whose second opening fails, and of whose fourth opening the second read fails.
fn two_files_opener(alloc: Global) -> Result<MemOpener, AllocError> {
    let mut files = Vec::new(alloc);
    add_file(alloc, &mut files, "a", b"first")?;
    add_file(alloc, &mut files, "b", b"second")?;
    let fails = vec![in alloc; 1; 1]?;
    Ok(MemOpener::open_with(alloc, files, fails, Some((3, 1))))
}

// Appends how many bytes two reads of a path give, or that it does not open.
fn put_reads(row: &mut Row, opener: &mut MemOpener, path: &str) {
    let Ok(mut from) = opener.open(path) else {
        return row.put(" none");
    };
    let mut into = [0; 4];
    put_count(row, from.read(&mut into));
    put_count(row, from.read(&mut into));
    opener.close(from);
}

/// What two reads of each of these paths give.
pub fn put_openings(row: &mut Row) {
    let paths = row.word();
    let Ok(mut opener) = two_files_opener(row.alloc()) else {
        return row.lack_memory();
    };
    for path in paths.split(',') {
        row.begin_part();
        put_reads(row, &mut opener, path);
    }
}
