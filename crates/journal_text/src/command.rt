// The text of a command.
ghost use Rattle.std.specs.Prelude.{◌≡◌, ◌++◌, OnOk};
ghost use Rattle.journal_text.specs.Lines.{and_fields, IsOpenFor};
ghost use Rattle.journal_text.specs.Commands.{step_fields, step_items, command_text};
ghost use Rattle.journal_model.specs.Steps.{IsStepInWindow};

use crate::edit::{add_edit, items_of, put_items};
use crate::line::LineWriter;
use journal_model::{Item, Step};
use si_time::write_moment;
use std::alloc::{AllocError, Global};

// Adds the fields of a step.
fn add_step(alloc: Global, row: &mut LineWriter, step: &Step) -> Result<(), AllocError>
    requires open { IsOpenFor 40 row.old }
    requires window { IsStepInWindow step.now }
    ensures { OnOk result (row.new ≡ and_fields row.old (step_fields step.now)) }
{
    match step {
        Step::Edit(feed, edit) => {
            row.field(b"feed")?;
            row.number(alloc, *feed as u64)?;
            add_edit(alloc, row, edit)
        }
        Step::Tick(at) => {
            row.field(b"tick")?;
            row.field(&write_moment(*at))
        }
        Step::Publish => row.field(b"publish"),
        Step::Swap => row.field(b"swap"),
    }
}

// The items that stand on lines of their own.
fn step_items(step: &Step) -> &[Item]
    ensures { result.now ≡ step_items step.now }
{
    match step {
        Step::Edit(_, edit) => items_of(edit),
        _ => &[],
    }
}

/// Appends the lines of a command: one with its caller and its step, and those of the items of a day. Its moments are in the window that
/// 16 bits of days can say (EN 300 468, annex C). A command that cannot be read again is written all the same. Want of memory may leave a
/// part of the text behind what `out` had.
pub fn write_command(
    alloc: Global,
    out: &mut Vec<u8>,
    who: u32,
    step: &Step,
) -> Result<(), AllocError>
    requires { IsStepInWindow step.now }
    ensures { OnOk result (out.new.items ≡ out.old.items ++ command_text who step.now) }
{
    let mut row = LineWriter::open(alloc);
    row.number(alloc, who as u64)?;
    add_step(alloc, &mut row, step)?;
    row.end(out)?;
    put_items(alloc, out, step_items(step))
}
