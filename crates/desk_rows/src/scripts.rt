// What the lines of a script give.
use crate::edits::put_edit;
use crate::words::{put_edit_stop, put_moment, put_outcome};
use journal_model::Step;
use journal_text::{ScriptItem, next_item};
use row_lines::{Buffer, Lines, say};
use std::alloc::Global;
use std::fmt::Write;

fn put_step(out: &mut Buffer, step: &Step) {
    match step {
        Step::Edit(feed, edit) => {
            say!(out; "feed {feed}: ");
            put_edit(out, edit);
        }
        Step::Tick(at) => put_moment(out, "tick ", *at),
        Step::Publish => out.say("publish"),
        Step::Swap => out.say("swap"),
    }
}

// Appends an item. Whether an outcome may be kept after it; none for the end.
fn put_item(out: &mut Buffer, item: &ScriptItem) -> Option<bool> {
    let is_step = match item {
        ScriptItem::Step(who, step) => {
            say!(out; "caller {who}: ");
            put_step(out, step);
            true
        }
        ScriptItem::Kept(line, outcome) => {
            say!(out; "line {line} keeps ");
            put_outcome(out, *outcome);
            false
        }
        ScriptItem::End => {
            out.say("end");
            return None;
        }
    };
    out.say("; ");
    Some(is_step)
}

/// Appends the items of a script, and then its stop.
pub fn tell(alloc: Global, lines: &mut Lines, out: &mut Buffer) {
    let mut after = false;
    for _ in 0..10_000 {
        match next_item(alloc, lines, after) {
            Ok(item) => match put_item(out, &item) {
                Some(next) => after = next,
                None => break,
            },
            Err(stop) => return put_edit_stop(out, stop),
        }
    }
}
