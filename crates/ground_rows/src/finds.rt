// Pieces that are found in recordings that come in pieces of each size, or whose source fails.
ghost use Rattle.std.specs.Prelude.{◌<◌};

use crate::ends::{ends, piece, source};
use packet_finder::{FindStop, Finder, Found};
use row_lines::{Row, say};
use si_causes::{MemSource, Source};
use std::alloc::{AllocError, Global};
use std::fmt::Write;

// Puts the next piece, or why there is none. Whether there may be more.
fn put_next<S: Source>(row: &mut Row, finder: &mut Finder<S>) -> bool {
    match finder.next() {
        Ok(Some(Found::Packet(number))) => say!(row; " {number}:{:02X}", finder.packet()[1]),
        Ok(Some(Found::Junk(count))) => say!(row; " ({count})"),
        stopped => {
            row.put(match stopped {
                Err(FindStop::Failed) => " failed",
                Err(FindStop::TooLong) => " too long",
                _ => " end",
            });
            return false;
        }
    }
    true
}

// Puts all pieces, and also what the next call gives where that is otherwise.
fn put_found<S: Source>(row: &mut Row, finder: &mut Finder<S>) {
    for _ in 0..1_000_000u64 {
        if !put_next(row, finder) {
            break;
        }
    }
    if let Ok(Some(_)) = finder.next() {
        row.put(" more");
    }
}

fn open(
    alloc: Global,
    bytes: &[u8],
    piece: usize,
    fails: u64,
) -> Result<Finder<MemSource>, AllocError>
    requires { 0 < piece }
{
    Finder::open(alloc, source(alloc, bytes, piece, fails)?)
}

/// What is found in these bytes, which come in pieces of each of these sizes.
pub fn put_each(row: &mut Row) {
    let (pieces, fails) = ends(row);
    let recording = row.rest_bytes();
    for size in pieces.split(',') {
        row.begin_part();
        let piece = piece(row, size);
        let finder = open(row.alloc(), &recording, piece, fails);
        if let Some(mut finder) = row.made(finder) {
            put_found(row, &mut finder);
        }
    }
}
