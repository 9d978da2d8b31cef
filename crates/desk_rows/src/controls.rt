// What control lines give.
use crate::words::{put_edit_stop, put_moment};
use journal_model::Control;
use row_lines::{Buffer, Lines};
use script_lines::next_control;
use std::alloc::Global;

// Appends the next control, or the stop; whether there may be more.
fn tell_next(alloc: Global, lines: &mut Lines, out: &mut Buffer) -> bool {
    match next_control(alloc, lines) {
        Ok(Some(Control::Tick(at))) => put_moment(out, "tick ", at),
        Ok(Some(Control::Publish)) => out.say("publish"),
        Ok(None) => {
            out.say("end");
            return false;
        }
        Err(stop) => {
            put_edit_stop(out, stop);
            return false;
        }
    }
    out.say("; ");
    true
}

/// Appends the controls of a text, and then its stop.
pub fn tell(alloc: Global, lines: &mut Lines, out: &mut Buffer) {
    for _ in 0..10_000 {
        if !tell_next(alloc, lines, out) {
            break;
        }
    }
}
