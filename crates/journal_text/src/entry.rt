// The text of a journal's entry.
ghost use Rattle.std.specs.Prelude.{◌≡◌, ◌<◌, ◌^◌, ◌++◌, IfOk, OnOk, OnErr, codes};
ghost use Rattle.journal_model.specs.Steps.{IsInWindow, IsEntryInWindow, IsStepInWindow};
ghost use Rattle.journal_text.specs.Back.{HasWideNumbers, IsWritten};
ghost use Rattle.journal_text.specs.Entries.{outcome_text, entry_text};

use crate::outcome::put_outcome;
use crate::write_command;
use journal_model::{Entry, Outcome};
use std::alloc::{AllocError, Global};

// Appends the line of an outcome.
fn put_outcome_line(alloc: Global, out: &mut Vec<u8>, outcome: Outcome) -> Result<(), AllocError>
    requires { IsInWindow outcome }
    ensures text { OnOk result (out.new.items ≡ out.old.items ++ (codes "=," ++ outcome_text outcome ++ codes "\n")) }
    ensures wide { OnOk result (HasWideNumbers outcome) }
{
    out.extend_from_slice(b"=,")?;
    put_outcome(alloc, out, outcome)?;
    out.extend_from_slice(b"\n")
}

// The text of an entry with this outcome, in a list of its own.
fn text_of(alloc: Global, entry: &Entry, outcome: Outcome) -> Result<Vec<u8>, AllocError>
    requires step { IsStepInWindow entry.now.step }
    requires outcome { IsInWindow outcome }
    ensures text { IfOk result (λ text. text.items ≡ entry_text (record entry.now { outcome = outcome })) }
    ensures who { OnOk result (entry.now.who < 2 ^ 64) }
    ensures wide { OnOk result (HasWideNumbers outcome) }
{
    let mut text = Vec::new(alloc);
    write_command(alloc, &mut text, entry.who, &entry.step)?;
    put_outcome_line(alloc, &mut text, outcome)?;
    Ok(text)
}

/// Appends the text of an entry: a line with its caller and its command, the lines of the items of a day, and a line with its
/// outcome behind `=,`. The fields of a command are those of a record, as csv writes it. Its moments are in the window that
/// 16 bits of days can say (EN 300 468, annex C). An entry that cannot be read again is written all the same. Its numbers
/// have the 64 bits with which they are written (`written`). Want of memory leaves `out` with what it had.
pub fn write_entry(alloc: Global, entry: &Entry, out: &mut Vec<u8>) -> Result<(), AllocError>
    requires window { IsEntryInWindow entry.now }
    ensures text { OnOk result (out.new.items ≡ out.old.items ++ entry_text entry.now) }
    ensures written { OnOk result (IsWritten entry.now) }
    ensures kept { OnErr result (out.new.items ≡ out.old.items) }
{
    write_entry_with(alloc, entry, entry.outcome, out)
}

/// As `write_entry`, with this outcome in place of the entry's own.
pub fn write_entry_with(
    alloc: Global,
    entry: &Entry,
    outcome: Outcome,
    out: &mut Vec<u8>,
) -> Result<(), AllocError>
    requires step { IsStepInWindow entry.now.step }
    requires outcome { IsInWindow outcome }
    ensures text { OnOk result (out.new.items ≡ out.old.items ++ entry_text (record entry.now { outcome = outcome })) }
    ensures written { OnOk result (IsWritten (record entry.now { outcome = outcome })) }
    ensures kept { OnErr result (out.new.items ≡ out.old.items) }
{
    let text = text_of(alloc, entry, outcome)?;
    out.extend_from_slice(&text)
}
