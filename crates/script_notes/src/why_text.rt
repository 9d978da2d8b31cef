// The words that say why a script line is at fault.
ghost use Rattle.std.specs.Prelude.{◌≡◌, ◌++◌, OnOk, codes, decimal};
ghost use Rattle.journal_model.specs.Steps.{IsInWindow};
ghost use Rattle.script_notes.specs.declared.why.Why.TheVariants.{BadField, Disagrees, FieldCount, Misplaced};
ghost use Rattle.script_notes.specs.Whys.{CanBeSaid, fault_text, field_text, fields_behind as so_many, place_text, why_text};

use crate::why::{FieldName, LineWord, Why};
use crate::words::word_text;
use journal_model::Outcome;
use journal_text::write_outcome;
use si_base::put_number;
use std::alloc::{AllocError, Global};

fn fields_behind(word: LineWord) -> u64
    ensures { result ≡ so_many word }
{
    match word {
        LineWord::Publish => 0,
        LineWord::Swap => 0,
        LineWord::Tick => 1,
        LineWord::Put => 11,
        LineWord::Withdraw => 2,
        LineWord::Clear => 1,
        LineWord::Name => 3,
        LineWord::Day => 3,
        LineWord::Item => 10,
    }
}

fn place_of(word: LineWord) -> &'static str
    ensures { result.now ≡ place_text word }
{
    match word {
        LineWord::Item => " stands behind no day",
        _ => " stands behind feed,N",
    }
}

fn name_of(field: FieldName) -> &'static str
    ensures { result.now ≡ field_text field }
{
    match field {
        FieldName::Moment => "moment",
        FieldName::Feed => "feed",
        FieldName::Service => "service",
        FieldName::Event => "event",
        FieldName::Start => "start",
        FieldName::Duration => "duration",
        FieldName::Date => "date",
        FieldName::Count => "count",
        FieldName::Country => "country",
        FieldName::Rating => "rating",
        FieldName::Genres => "genres",
        FieldName::Descriptors => "descriptors",
    }
}

fn fault_of(field: FieldName) -> &'static str
    ensures { result.now ≡ fault_text field }
{
    match field {
        FieldName::Moment => "no moment",
        FieldName::Feed => "no number from 0 to 255",
        FieldName::Service => "no number from 0 to 65535",
        FieldName::Event => "no number from 0 to 65535",
        FieldName::Start => "not dddd-dd-ddTdd:dd:ddZ",
        FieldName::Duration => "not dd:dd:dd",
        FieldName::Date => "not dddd-dd-dd",
        FieldName::Count => "no number from 0 to 2000",
        FieldName::Country => "empty beside a rating",
        FieldName::Rating => "no number from 0 to 255",
        FieldName::Genres => "no list of a.b.u",
        FieldName::Descriptors => "no list of descriptors in hex",
    }
}

fn put_disagreement(
    alloc: Global,
    kept: &Outcome,
    found: &Outcome,
    out: &mut Vec<u8>,
) -> Result<(), AllocError>
    requires kept { IsInWindow kept.now }
    requires found { IsInWindow found.now }
    ensures { OnOk result (out.new.items ≡ out.old.items ++ why_text (Disagrees kept.now found.now)) }
{
    out.extend_from_slice(b"kept ")?;
    write_outcome(alloc, kept, out)?;
    out.extend_from_slice(b" found ")?;
    write_outcome(alloc, found, out)
}

fn put_misplaced(word: LineWord, out: &mut Vec<u8>) -> Result<(), AllocError>
    ensures { OnOk result (out.new.items ≡ out.old.items ++ why_text (Misplaced word)) }
{
    out.extend_from_slice(word_text(word).as_bytes())?;
    out.extend_from_slice(place_of(word).as_bytes())
}

// Appends `field K`, and what it is.
fn put_numbered(alloc: Global, k: u64, is: &[u8], out: &mut Vec<u8>) -> Result<(), AllocError>
    ensures { OnOk result (out.new.items ≡ out.old.items ++ (codes "field " ++ decimal k ++ is.now)) }
{
    out.extend_from_slice(b"field ")?;
    put_number(alloc, out, k)?;
    out.extend_from_slice(is)
}

fn put_count(alloc: Global, word: LineWord, n: u64, out: &mut Vec<u8>) -> Result<(), AllocError>
    ensures { OnOk result (out.new.items ≡ out.old.items ++ why_text (FieldCount word n)) }
{
    out.extend_from_slice(word_text(word).as_bytes())?;
    out.extend_from_slice(b" takes ")?;
    put_number(alloc, out, fields_behind(word))?;
    out.extend_from_slice(b" fields and has ")?;
    put_number(alloc, out, n)
}

fn put_field(alloc: Global, field: FieldName, k: u64, out: &mut Vec<u8>) -> Result<(), AllocError>
    ensures { OnOk result (out.new.items ≡ out.old.items ++ why_text (BadField field k)) }
{
    out.extend_from_slice(name_of(field).as_bytes())?;
    out.extend_from_slice(b" (field ")?;
    put_number(alloc, out, k)?;
    out.extend_from_slice(b") is ")?;
    out.extend_from_slice(fault_of(field).as_bytes())
}

/// Appends the words that say why a script line is at fault. Nothing of the line is among them. The moments of an outcome can be
/// written. Want of memory may leave a part of the words after what `out` had.
pub fn put_why(alloc: Global, why: &Why, out: &mut Vec<u8>) -> Result<(), AllocError>
    requires { CanBeSaid why.now }
    ensures { OnOk result (out.new.items ≡ out.old.items ++ why_text why.now) }
{
    match why {
        Why::TooLong => out.extend_from_slice(b"longer than 16384 bytes"),
        Why::NotUtf8 => out.extend_from_slice(b"not UTF-8"),
        Why::ControlCharacter => out.extend_from_slice(b"control character"),
        Why::NoFields => out.extend_from_slice(b"no fields"),
        Why::AfterNoCommand => out.extend_from_slice(b"outcome behind no command"),
        Why::NoOutcome => out.extend_from_slice(b"no outcome"),
        Why::Disagrees(kept, found) => put_disagreement(alloc, kept, found, out),
        Why::Misplaced(word) => put_misplaced(*word, out),
        Why::NoCommand(k) => put_numbered(alloc, *k, b" is no command", out),
        Why::NoEdit(k) => put_numbered(alloc, *k, b" is no edit", out),
        Why::FieldCount(word, n) => put_count(alloc, *word, *n, out),
        Why::BadField(field, k) => put_field(alloc, *field, *k, out),
        Why::NoItem => out.extend_from_slice(b"no item"),
    }
}
