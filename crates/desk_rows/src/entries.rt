// The text of a journal's entry.
ghost use Rattle.std.specs.Prelude.{IfSome};
ghost use Rattle.journal_model.specs.Steps.{IsStepWithin, IsEntryInWindow, IsInWindow};

use journal_model::{Entry, Outcome};
use journal_text::{ScriptItem, next_item, write_entry};
use row_lines::{Buffer, Lines};
use std::alloc::Global;

fn put_entry(alloc: Global, entry: &Entry, out: &mut Buffer)
    requires { IsEntryInWindow entry.now }
{
    let mut text = Vec::new(alloc);
    let done = write_entry(alloc, entry, &mut text);
    out.note(done);
    out.put_slashes(&text);
}

// The outcome that is the next item.
fn kept(alloc: Global, lines: &mut Lines) -> Option<Outcome>
    ensures { IfSome result IsInWindow }
{
    match next_item(alloc, lines, true) {
        Ok(ScriptItem::Kept(_, outcome)) => Some(outcome),
        _ => None,
    }
}

// Appends the entry, with the outcome that is the next item.
fn tell_kept(alloc: Global, lines: &mut Lines, entry: &mut Entry, out: &mut Buffer)
    requires { IsStepWithin entry.old.step }
{
    match kept(alloc, lines) {
        Some(outcome) => {
            entry.outcome = outcome;
            put_entry(alloc, entry, out);
        }
        None => out.say("no row"),
    }
}

/// Appends the entry of this caller whose command and outcome are the first items of a text.
pub fn tell(alloc: Global, who: u32, lines: &mut Lines, out: &mut Buffer) {
    match next_item(alloc, lines, false) {
        Ok(ScriptItem::Step(_, step)) => {
            let mut entry = Entry {
                who,
                step,
                outcome: Outcome::Ticked,
            };
            tell_kept(alloc, lines, &mut entry, out);
        }
        _ => out.say("no row"),
    }
}
