// How the bytes of a row come, `PIECES FAILS BYTES`: in pieces of at most so many bytes, for each size in turn, from a source whose
// call with this number, from 0, fails; `-` is no call.
ghost use Rattle.std.specs.Prelude.{◌<◌};

use crate::notation::number_in;
use row_lines::Row;
use si_causes::{MemSink, MemSource};
use std::alloc::{AllocError, Global};

/// No source or sink of a row gets so many calls.
pub const NEVER: u64 = 999_999_999;

/// The size of a piece.
pub fn piece(row: &mut Row, text: &str) -> usize
    ensures { 0 < result }
{
    (number_in(row, 1_000_000, text) as usize).max(1)
}

// The call that fails.
fn failing(row: &mut Row, text: &str) -> u64 {
    match text {
        "-" => NEVER,
        _ => number_in(row, NEVER, text),
    }
}

/// The sizes of pieces, and the call that fails.
pub fn ends<'a>(row: &mut Row<'a>) -> (&'a str, u64) {
    let pieces = row.word();
    let fails = row.word();
    (pieces, failing(row, fails))
}

/// A source of these bytes.
pub fn source(
    alloc: Global,
    bytes: &[u8],
    piece: usize,
    fails: u64,
) -> Result<MemSource, AllocError>
    requires { 0 < piece }
{
    let bytes = Vec::from_slice(alloc, bytes)?;
    let fails = vec![in alloc; fails; 1]?;
    Ok(MemSource::open(bytes, piece, fails))
}

/// A sink.
pub fn sink(alloc: Global, piece: usize, fails: u64) -> Result<MemSink, AllocError>
    requires { 0 < piece }
{
    let fails = vec![in alloc; fails; 1]?;
    Ok(MemSink::open(alloc, piece, fails))
}
