// The text of a desk's journal.
ghost use Rattle.std.specs.Prelude.{◌≡◌, IfOk, OnOk};
ghost use Rattle.std.specs.List.{AllByRecursion};
ghost use Rattle.journal_text.specs.Back.{IsWritten};
ghost use Rattle.journal_text.specs.Entries.{journal_text};
ghost use Rattle.journal_model.specs.Steps.{AreInWindow};

use desk_core::Desk;
use journal_model::Entry;
use journal_text::write_entry;
use std::alloc::{AllocError, Global};

// The text of these entries.
fn text_of(alloc: Global, entries: &[Entry]) -> Result<Vec<u8>, AllocError>
    requires { AreInWindow entries.now }
    ensures text { IfOk result (λ text. text.items ≡ journal_text entries.now) }
    ensures written { OnOk result (AllByRecursion IsWritten entries.now) }
{
    let mut text = Vec::new(alloc);
    for entry in entries {
        write_entry(alloc, entry, &mut text)?;
    }
    Ok(text)
}

/// The text of a desk's journal, whose numbers have the 64 bits with which they are written.
pub fn journal_of(alloc: Global, desk: &Desk) -> Result<Vec<u8>, AllocError>
    ensures text { IfOk result (λ text. text.items ≡ journal_text desk.now.entries) }
    ensures written { OnOk result (AllByRecursion IsWritten desk.now.entries) }
{
    let _ = desk.mux();
    text_of(alloc, desk.entries())
}
