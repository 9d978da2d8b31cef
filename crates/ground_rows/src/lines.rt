// Lines of sources that are cut into pieces or fail, and the records among them.
ghost use Rattle.std.specs.Prelude.{◌<◌};

use crate::ends::{ends, piece, source};
use crate::notation::put_written;
use input_lines::{next_record_line, passes_over};
use row_lines::{Row, say};
use si_causes::{LineReader, MemSource, ReadStop, Source};
use std::alloc::{AllocError, Global};
use std::fmt::Write;

/// Appends what a call for the next line answers.
pub fn put_answer(row: &mut Row, found: Result<Option<u64>, ReadStop>) {
    match found {
        Ok(Some(number)) => say!(row; " line {number}"),
        Ok(None) => row.put(" end"),
        Err(ReadStop::Failed) => row.put(" failed"),
        Err(ReadStop::TooLong) => row.put(" too long"),
    }
}

fn open(
    alloc: Global,
    bytes: &[u8],
    piece: usize,
    fails: u64,
) -> Result<LineReader<MemSource>, AllocError>
    requires { 0 < piece }
{
    LineReader::open(alloc, source(alloc, bytes, piece, fails)?)
}

// Appends a line; one of more than 100 bytes that are all alike as the first of them and how many there are.
fn put_line(row: &mut Row, line: &[u8]) {
    match line {
        [first, ..] if line.len() > 100 && line.iter().all(|b| b == first) => {
            put_written(row, &[*first]);
            say!(row; "*{}", line.len());
        }
        _ => put_written(row, line),
    }
    row.put(" |");
}

// Appends the next line, or what else the call answers, and also what the call behind it answers where that is something else.
// Whether there may be more.
fn put_next<S: Source>(row: &mut Row, lines: &mut LineReader<S>, number: u64) -> bool {
    let found = lines.next();
    if found == Ok(Some(number)) {
        put_line(row, lines.line());
        return true;
    }
    put_answer(row, found);
    let again = lines.next();
    if again != found {
        put_answer(row, again);
    }
    false
}

fn put_lines<S: Source>(row: &mut Row, lines: &mut LineReader<S>) {
    for number in 1..20 {
        if !put_next(row, lines, number) {
            break;
        }
    }
}

// Appends the number of the next record, with `?` where it is one that is passed over, or what else the call answers. Whether there
// may be more.
fn put_next_record<S: Source>(row: &mut Row, lines: &mut LineReader<S>) -> bool {
    let found = next_record_line(lines);
    let Ok(Some(number)) = found else {
        put_answer(row, found);
        return false;
    };
    let sign = if passes_over(lines.line()) { "?" } else { "" };
    say!(row; " {number}{sign}");
    true
}

fn put_records<S: Source>(row: &mut Row, lines: &mut LineReader<S>) {
    for _ in 0..20 {
        if !put_next_record(row, lines) {
            break;
        }
    }
}

// What is read of bytes that come so: their records, or their lines.
fn put_read(row: &mut Row, bytes: &[u8], piece: usize, fails: u64, are_records: bool)
    requires { 0 < piece }
{
    match open(row.alloc(), bytes, piece, fails) {
        Ok(mut lines) if are_records => put_records(row, &mut lines),
        Ok(mut lines) => put_lines(row, &mut lines),
        Err(_) => row.lack_memory(),
    }
}

/// What is read of bytes that come in pieces of each of these sizes: their records, or their lines.
pub fn put_each(row: &mut Row, are_records: bool) {
    let (pieces, fails) = ends(row);
    let bytes = row.rest_bytes();
    for size in pieces.split(',') {
        row.begin_part();
        let piece = piece(row, size);
        put_read(row, &bytes, piece, fails, are_records);
    }
}
