// The fields of a line.
ghost use Rattle.std.specs.Prelude.{◌≡◌, true, false, IfOk, IfSome, IfNone};
ghost use Rattle.std.specs.List.{AllByRecursion};
ghost use Rattle.csv.specs.Records.{fields_of};
ghost use Rattle.guide_model.specs.Coding.{all_plain};
ghost use Rattle.guide_model.specs.Control.{has_control};
ghost use Rattle.guide_model.specs.Decoding.{IsKept};
ghost use Rattle.input_lines.specs.Fields.{IsLine, IsPlain, comma_parts, has_quote, is_bare, line_fields, record_of};

use csv::{ReaderBuilder, StringRecord};
use guide_model::{Txt, has_control, is_all_plain};
use memchr::{memchr, memchr_iter};
use si_base::Items;
use std::alloc::{AllocError, Global};

/// The most bytes that a line may have.
const LONGEST_LINE: usize = 16_384;

/// The fields of a line.
pub type LineFields = Items<Txt>;

// The one record that csv reads of a line; a line of which it makes none has no fields.
fn line_record(alloc: Global, line: &[u8]) -> Result<StringRecord, AllocError>
    ensures { IfOk result (λ row. fields_of row ≡ line_fields line.now) }
{
    let mut reader = ReaderBuilder::new()
        .has_headers(false)
        .from_reader(alloc, line);
    let mut row = StringRecord::new(alloc);
    match reader.read_record(&mut row) {
        Ok(true) => Ok(row),
        Ok(false) => Ok(StringRecord::new(alloc)),
        Err(_) => Err(AllocError),
    }
}

// The fields of a record as texts. They are not looked at again.
fn texts(alloc: Global, row: &StringRecord) -> Result<LineFields, AllocError>
    requires { AllByRecursion IsKept (fields_of row.now) }
    ensures { IfOk result (λ texts. texts ≡ fields_of row.now) }
{
    let mut texts = Items::new(alloc);
    'fields: for i in 0..row.len() {
        let Some(field) = row.get(i) else {
            unreachable!()
        };
        texts.push(Txt::of_kept(alloc, field)?)?;
    }
    Ok(texts)
}

fn has_quote(line: &[u8]) -> bool
    ensures { result ≡ has_quote line.now }
{
    memchr(b'"', line).is_some()
}

// Whether no double quote stands in a line, and it has a first byte, which is not that of a byte order mark.
fn is_bare(line: &[u8]) -> bool
    ensures { result ≡ is_bare line.now }
{
    if line.is_empty() {
        return false;
    }
    if line[0] == 0xEF {
        return false;
    }
    !has_quote(line)
}

// The text of a part of a line; one that is known to be plain is not looked at.
fn text_of(alloc: Global, part: &str, is_plain: bool) -> Result<Txt, AllocError>
    requires kept { has_control part.now ≡ false }
    requires plain { is_plain ≡ true → all_plain part.now ≡ true }
    ensures { IfOk result (λ text. text ≡ part.now) }
{
    if is_plain {
        Txt::of_plain(alloc, part)
    } else {
        Txt::of_kept(alloc, part)
    }
}

// The parts between the commas of a line. The list takes memory once, and each part once.
fn parts(alloc: Global, line: &str, is_plain: bool) -> Result<LineFields, AllocError>
    requires kept { AllByRecursion IsKept (comma_parts line.now) }
    requires plain { is_plain ≡ true → AllByRecursion IsPlain (comma_parts line.now) }
    ensures { IfOk result (λ parts. parts ≡ comma_parts line.now) }
{
    let commas = memchr_iter(b',', line.as_bytes()).count();
    let mut parts = Vec::with_capacity(alloc, commas + 1)?;
    for part in line.split(',') {
        parts.push(text_of(alloc, part, is_plain)?)?;
    }
    Ok(Items::of(parts))
}

// The fields of a line that may be kept: those of a bare one are its parts, and csv is asked of any other.
fn kept_fields(alloc: Global, line: &str, is_plain: bool) -> Result<LineFields, AllocError>
    requires kept { IsKept line.now }
    requires plain { is_plain ≡ true → all_plain line.now ≡ true }
    ensures { IfOk result (λ fields. fields ≡ line_fields line.now) }
{
    if is_bare(line.as_bytes()) {
        return parts(alloc, line, is_plain);
    }
    let row = line_record(alloc, line.as_bytes())?;
    texts(alloc, &row)
}

// Whether a text has a control character. One that is known to be plain has none, and is not looked at.
fn is_refused(text: &str, is_plain: bool) -> bool
    requires { is_plain ≡ true → all_plain text.now ≡ true }
    ensures { result ≡ has_control text.now }
{
    !is_plain && has_control(text)
}

/// The fields of the one record that csv reads of a line, without header and with any number of fields; none where csv
/// makes no record of it. `None` comes exactly where the line is longer than 16,384 bytes, is no UTF-8 or has a control
/// character.
pub fn fields(alloc: Global, line: &[u8]) -> Result<Option<LineFields>, AllocError>
    ensures value { IfOk result (λ found. found ≡ record_of line.now) }
    ensures some { IfOk result (λ found. IfSome found (λ fields. IsLine line.now × (fields ≡ line_fields line.now))) }
    ensures none { IfOk result (λ found. IfNone found (¬ IsLine line.now)) }
{
    if line.len() > LONGEST_LINE {
        return Ok(None);
    }
    let Ok(text) = str::from_utf8(line) else {
        return Ok(None);
    };
    let is_plain = is_all_plain(line);
    if is_refused(text, is_plain) {
        return Ok(None);
    }
    Ok(Some(kept_fields(alloc, text, is_plain)?))
}
