// Outcomes as they are read and written.
ghost use Rattle.journal_model.specs.Steps.{IsInWindow};

use crate::words::put_outcome;
use input_lines::fields;
use journal_model::Outcome;
use journal_text::{read_outcome, write_outcome};
use row_lines::{Buffer, Lines};
use std::alloc::Global;

// Appends an outcome in words, and as it is written.
fn put_both(alloc: Global, outcome: Outcome, out: &mut Buffer)
    requires { IsInWindow outcome }
{
    put_outcome(out, outcome);
    let mut text = Vec::new(alloc);
    let done = write_outcome(alloc, &outcome, &mut text);
    out.note(done);
    out.say(", written ");
    out.put(&text);
}

/// Appends the outcome that the fields of the first line are.
pub fn tell(alloc: Global, lines: &mut Lines, out: &mut Buffer) {
    if lines.next().is_err() {
        return out.say("no row");
    }
    let Some(Some(fields)) = out.made(fields(alloc, lines.line())) else {
        return out.say("no row");
    };
    match read_outcome(fields.as_slice()) {
        Some(outcome) => put_both(alloc, outcome, out),
        None => out.say("none"),
    }
}
