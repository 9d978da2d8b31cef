// The calls of rows.
use crate::{folds, reads};
use row_lines::{Buffer, Cut, Row, WHOLE, numbered, put_in_short, reader, tell_in_pieces};
use si_causes::LineReader;
use std::alloc::{AllocError, Global};

// As many bytes as a text may have.
const ANY: u32 = u32::MAX;

// Appends what is read of a checkpoint of the multiplex with this number, whose text comes so and may have so many bytes.
fn read(
    alloc: Global,
    mux: u32,
    text: &str,
    cut: Cut,
    limit: u32,
    out: &mut Buffer,
) -> Result<(), AllocError> {
    let source = reader(alloc, text, cut)?.close();
    let mut lines = LineReader::open_to(alloc, source, u64::from(limit))?;
    reads::tell(alloc, mux, &mut lines, out)
}

// The same of a text in pieces.
fn read_whole(alloc: Global, mux: u32, text: &str, out: &mut Buffer) {
    tell_in_pieces(alloc, out, |cut: Cut, out: &mut Buffer| {
        let done = read(alloc, mux, text, cut, ANY, out);
        out.note(done);
    });
}

// Appends what the steps of a script leave, with this shift.
fn fold(
    alloc: Global,
    mux: u32,
    shift: u32,
    text: &str,
    out: &mut Buffer,
) -> Result<(), AllocError> {
    let mut lines = reader(alloc, text, WHOLE)?;
    folds::tell(alloc, mux, shift, &mut lines, out)
}

// The calls that have a number before their text.
fn tell_numbered(alloc: Global, call: &str, text: &str, out: &mut Buffer) {
    let Some((number, text)) = numbered(text) else {
        return out.say("no row");
    };
    let cut = Cut {
        piece: 1,
        fails_at: number,
    };
    let done = match call {
        "read_cut" => read(alloc, 1, text, cut, ANY, out),
        "read_to" => read(alloc, 1, text, WHOLE, number, out),
        "fold" => fold(alloc, 1, number, text, out),
        "fold_two" => fold(alloc, 2, number, text, out),
        "fold_timed" => fold(alloc, 3, number, text, out),
        _ => return out.say("no row"),
    };
    out.note(done);
}

// Appends what a call gives for a text.
fn tell(alloc: Global, call: &str, text: &str, out: &mut Buffer) {
    match call {
        "read" => read_whole(alloc, 1, text, out),
        "read_two" => read_whole(alloc, 2, text, out),
        "read_timed" => read_whole(alloc, 3, text, out),
        _ => tell_numbered(alloc, call, text, out),
    }
}

/// Puts what a row gives.
pub fn answer(row: &mut Row) {
    put_in_short(row, tell);
}
