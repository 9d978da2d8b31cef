//! Tests of notings: the items of a script, and the comments on its lines at fault.
//!
//! A row of `stdin` is `notes TEXT = ANSWER` (`run_rows`). The notes at its head explain the
//! notation.
#![tactic(auto)]

mod notes;

use notes::put_notes;
use row_lines::{Buffer, Cut, Row, put_in_short, run_rows, tell_in_pieces};
use std::alloc::Global;
use std::io;

// Appends what a call gives for a text.
fn tell(alloc: Global, call: &str, text: &str, out: &mut Buffer) {
    if call != "notes" {
        return out.say("no row");
    }
    tell_in_pieces(alloc, out, |cut: Cut, out: &mut Buffer| {
        let done = put_notes(alloc, text, cut, out);
        out.note(done);
    });
}

fn main(rt: HostRuntime) -> io::Result<()> {
    run_rows(&rt, |row: &mut Row| put_in_short(row, tell))
}
