// The summary of a run.
ghost use Rattle.std.specs.Prelude.{◌≡◌, ◌≤◌, ◌++◌, IfOk, OnOk, is_some, length, codes, List, ℕ};
ghost use Rattle.desk_core.specs.Journal.{accepted, accepted_by};
ghost use Rattle.epg_soak.specs.Journals.{edit_in, edits_in};
ghost use Rattle.epg_soak.specs.Summary.{count_line, events_shown, guide_line, guide_lines, journal_lines, summary_text};

use desk_core::{Entry, Outcome, Step};
use guide_screen::Heard;
use journal_model::Reply;
use si_base::put_number;
use std::alloc::{AllocError, Global};

// Appends a word and a number.
fn put_line(alloc: Global, out: &mut Vec<u8>, word: &[u8], count: u64) -> Result<(), AllocError>
    ensures { OnOk result (out.new.items ≡ out.old.items ++ count_line word.now count) }
{
    out.extend_from_slice(word)?;
    out.extend_from_slice(b" ")?;
    put_number(alloc, out, count)?;
    out.extend_from_slice(b"\n")
}

fn is_edit(entry: &Entry) -> bool
    ensures { result ≡ is_some (edit_in entry.now.step) }
{
    matches!(entry.step, Step::Edit(_, _))
}

// Whether it is an edit that was accepted.
fn is_done(entry: &Entry) -> bool
    ensures { result ≡ is_some (accepted_by entry.now.step entry.now.outcome) }
{
    is_edit(entry) && entry.outcome == Outcome::Edited(Reply::Done)
}

// How many edits there are.
fn edit_count(entries: &[Entry]) -> u64
    ensures { result ≡ length (edits_in entries.now) }
{
    let mut count = 0;
    for entry in entries {
        if is_edit(entry) {
            count += 1;
        }
    }
    count
}

// How many of them are done.
fn done_count(entries: &[Entry]) -> u64
    ensures { result ≡ length (accepted entries.now) }
{
    let mut count = 0;
    for entry in entries {
        if is_done(entry) {
            count += 1;
        }
    }
    count
}

// Appends the lines of the journal.
fn put_journal(alloc: Global, out: &mut Vec<u8>, entries: &[Entry]) -> Result<(), AllocError>
    ensures { OnOk result (out.new.items ≡ out.old.items ++ journal_lines entries.now) }
{
    let edits = edit_count(entries);
    let done = done_count(entries);
    put_line(alloc, out, b"edits", edits)?;
    put_line(alloc, out, b"done", done)?;
    put_line(alloc, out, b"refused", edits - done)?;
    put_line(alloc, out, b"entries", entries.len() as u64)
}

// How many events are shown. As many as 64 bits cannot count find no memory.
fn event_count(guide: &Option<Heard>) -> Result<u64, AllocError>
    ensures { IfOk result (λ count. count ≡ events_shown guide.now) }
{
    let Some(Heard::Whole(screen)) = guide else {
        return Ok(0);
    };
    let mut count = 0u64;
    for service in screen.services.as_slice() {
        let events = service.events.len() as u64;
        count = count.checked_add(events).ok_or(AllocError)?;
    }
    Ok(count)
}

// The line that tells whether the guide is whole.
fn whole_line(guide: &Option<Heard>) -> &'static [u8]
    ensures { result.now ≡ guide_line guide.now }
{
    match guide {
        Some(Heard::Whole(_)) => b"guide whole\n",
        _ => b"guide wanting\n",
    }
}

// Appends the lines of the guide.
fn put_guide(alloc: Global, out: &mut Vec<u8>, guide: &Option<Heard>) -> Result<(), AllocError>
    ensures { OnOk result (out.new.items ≡ out.old.items ++ guide_lines guide.now) }
{
    put_line(alloc, out, b"events", event_count(guide)?)?;
    out.extend_from_slice(whole_line(guide))
}

/// Appends the summary of this journal and of the guide that was heard.
pub(crate) fn put_summary(
    alloc: Global,
    out: &mut Vec<u8>,
    entries: &[Entry],
    guide: &Option<Heard>,
) -> Result<(), AllocError>
    ensures { OnOk result (out.new.items ≡ out.old.items ++ summary_text entries.now guide.now) }
{
    out.extend_from_slice(b"services 8\n")?;
    put_journal(alloc, out, entries)?;
    put_guide(alloc, out, guide)
}
