// The text of an outcome.
ghost use Rattle.std.specs.Prelude.{◌≡◌, ◌*◌, ◌<◌, ◌^◌, ◌++◌, ◌∷◌, IfOk, OnOk, OnErr, decimal};
ghost use Rattle.std.specs.List.{AllByRecursion};
ghost use Rattle.si_time.specs.Moments.{moment_text};
ghost use Rattle.journal_model.specs.Steps.{IsInWindow};
ghost use Rattle.script_lines.specs.Outcomes.{field_fields, field_numbers, day_fault_fields, fault_ids, fault_numbers, reply_fields, reply_ids, reply_numbers};
ghost use Rattle.journal_text.specs.Back.{HasWideNumbers};
ghost use Rattle.journal_text.specs.Entries.{outcome_text, with_commas};

use journal_model::{DayFault, Field, Outcome, Reply};
use script_lines::field_word;
use si_base::put_number;
use si_time::{Moment, write_moment};
use std::alloc::{AllocError, Global};

// Appends a comma and a moment.
fn put_moment(out: &mut Vec<u8>, at: Moment) -> Result<(), AllocError>
    requires { at.0 < 65536 * 86400 }
    ensures { OnOk result (out.new.items ≡ out.old.items ++ 44 ∷ moment_text at.0) }
{
    out.extend_from_slice(b",")?;
    out.extend_from_slice(&write_moment(at))
}

// Appends a word, a comma and a number.
fn put_counted(alloc: Global, out: &mut Vec<u8>, word: &[u8], n: u64) -> Result<(), AllocError>
    ensures text { OnOk result (out.new.items ≡ out.old.items ++ (word.now ++ 44 ∷ decimal n)) }
    ensures wide { n < 2 ^ 64 }
{
    out.extend_from_slice(word)?;
    out.extend_from_slice(b",")?;
    put_number(alloc, out, n)
}

fn put_field(alloc: Global, out: &mut Vec<u8>, field: Field) -> Result<(), AllocError>
    ensures text { OnOk result (out.new.items ≡ out.old.items ++ with_commas (field_fields field)) }
    ensures numbers { OnOk result (AllByRecursion (λ n. n < 2 ^ 64) (field_numbers field)) }
{
    let word = field_word(field).as_bytes();
    match field {
        Field::Count(n) => put_counted(alloc, out, word, n as u64),
        Field::Segment(n) => put_counted(alloc, out, word, n as u64),
        _ => out.extend_from_slice(word),
    }
}

fn put_day_fault(alloc: Global, out: &mut Vec<u8>, fault: DayFault) -> Result<(), AllocError>
    ensures text { OnOk result (out.new.items ≡ out.old.items ++ with_commas (day_fault_fields fault)) }
    ensures ids { OnOk result (AllByRecursion (λ n. n < 2 ^ 64) (fault_ids fault)) }
    ensures numbers { OnOk result (AllByRecursion (λ n. n < 2 ^ 64) (fault_numbers fault)) }
{
    match fault {
        DayFault::Range(field) => {
            out.extend_from_slice(b"range,")?;
            put_field(alloc, out, field)
        }
        DayFault::Overlap(event) => put_counted(alloc, out, b"overlap", event as u64),
    }
}

fn put_reply(alloc: Global, out: &mut Vec<u8>, reply: Reply) -> Result<(), AllocError>
    ensures text { OnOk result (out.new.items ≡ out.old.items ++ with_commas (reply_fields reply)) }
    ensures ids { OnOk result (AllByRecursion (λ n. n < 2 ^ 64) (reply_ids reply)) }
    ensures numbers { OnOk result (AllByRecursion (λ n. n < 2 ^ 64) (reply_numbers reply)) }
{
    match reply {
        Reply::Done => out.extend_from_slice(b"done"),
        Reply::Foreign(service) => put_counted(alloc, out, b"foreign", service as u64),
        Reply::Range(field) => put_day_fault(alloc, out, DayFault::Range(field)),
        Reply::Overlap(event) => put_day_fault(alloc, out, DayFault::Overlap(event)),
        Reply::Member(place, fault) => {
            put_counted(alloc, out, b"member", place as u64)?;
            out.extend_from_slice(b",")?;
            put_day_fault(alloc, out, fault)
        }
    }
}

// Appends the text of an outcome.
pub(crate) fn put_outcome(
    alloc: Global,
    out: &mut Vec<u8>,
    outcome: Outcome,
) -> Result<(), AllocError>
    requires { IsInWindow outcome }
    ensures text { OnOk result (out.new.items ≡ out.old.items ++ outcome_text outcome) }
    ensures wide { OnOk result (HasWideNumbers outcome) }
{
    match outcome {
        Outcome::Edited(reply) => put_reply(alloc, out, reply),
        Outcome::Ticked => out.extend_from_slice(b"ticked"),
        Outcome::Late(at) => {
            out.extend_from_slice(b"late")?;
            put_moment(out, at)
        }
        Outcome::Published(n) => put_counted(alloc, out, b"published", n),
        Outcome::Swapped(n, at) => {
            put_counted(alloc, out, b"swapped", n)?;
            put_moment(out, at)
        }
    }
}

// The text of an outcome in a list of its own.
fn text_of(alloc: Global, outcome: Outcome) -> Result<Vec<u8>, AllocError>
    requires { IsInWindow outcome }
    ensures { IfOk result (λ text. text.items ≡ outcome_text outcome) }
{
    let mut text = Vec::new(alloc);
    put_outcome(alloc, &mut text, outcome)?;
    Ok(text)
}

/// Appends the text of an outcome as an outcome line has it behind `=,`: `done`, `published,3` and the like. Its moment, where it
/// has one, is in the window that 16 bits of days can say (EN 300 468, annex C). Want of memory leaves `out` with what it had.
pub fn write_outcome(alloc: Global, outcome: &Outcome, out: &mut Vec<u8>) -> Result<(), AllocError>
    requires window { IsInWindow outcome.now }
    ensures text { OnOk result (out.new.items ≡ out.old.items ++ outcome_text outcome.now) }
    ensures kept { OnErr result (out.new.items ≡ out.old.items) }
{
    let text = text_of(alloc, *outcome)?;
    out.extend_from_slice(&text)
}
