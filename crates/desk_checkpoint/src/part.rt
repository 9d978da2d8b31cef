// The parts of a checkpoint, and the fields of their lines.
ghost use Rattle.std.specs.Prelude.{◌≡◌, ◌<◌, ◌^◌, true, IfOk, IfSome, option_map};
ghost use Rattle.std.specs.List.{list_all};
ghost use Rattle.input_lines.specs.Numbers.{is_digit, value_from};
ghost use Rattle.desk_checkpoint.specs.Fields.{begins_step, body_in, clock_of, count_in, count_of, counter_of, end_of, is_count, is_lower_digit, key_in, part_of, section_of, version_of};
ghost use Rattle.desk_checkpoint.specs.Checkpoints.{is_end};
ghost use Rattle.desk_checkpoint.specs.Parts.{IsFitPart};

use cycle_player::Clock;
use guide_model::Txt;
use hex::FromHexError;
use input_lines::{is_word, number, numeral};
use journal_model::Step;
use section_codec::{Key, NumberedBody, is_listed};
use si_base::Items;
use std::alloc::{AllocError, Global};
use ts_packets::PidCounter;

/// The most bytes that the body of a section has (ISO/IEC 13818-1, 2.4.4; EN 300 468, 5.1.1).
const LONGEST_BODY: usize = 4084;

/// A part of a checkpoint behind its first line: a step of caller 0; a key with its version; a section of the key before; a PID with the
/// continuity_counter of its next packet; or the end.
#[derive(Drop)]
pub(crate) enum Part {
    Step(Step),
    Version(Key, u8),
    Section(NumberedBody),
    Counter(PidCounter),
    End,
}

fn all_digits(bytes: &[u8]) -> bool
    ensures { result ≡ list_all is_digit bytes.now }
{
    bytes.iter().all(|b| b'0' <= *b && *b <= b'9')
}

fn is_count(bytes: &[u8]) -> bool
    ensures { result ≡ is_count bytes.now }
{
    all_digits(bytes) && (1 <= bytes.len() && bytes.len() <= 18)
}

// The value of one to 18 digits.
fn count_value(field: &str) -> u64
    requires { is_count field.now ≡ true }
    ensures value { result ≡ value_from 0 field.now }
    ensures most { result < 10 ^ 18 }
{
    field.parse::<u64>().unwrap()
}

// COUNT, one to 18 digits.
fn read_count(field: &str) -> Option<u64>
    ensures value { result ≡ count_in field.now }
    ensures most { IfSome result (λ count. count < 10 ^ 18) }
{
    if !is_count(field.as_bytes()) {
        return None;
    }
    Some(count_value(field))
}

/// The count of `checkpoint,COUNT`.
pub(crate) fn count_of(fields: &[Txt]) -> Option<u64>
    ensures value { result ≡ count_of fields.now }
    ensures most { IfSome result (λ count. count < 10 ^ 18) }
{
    let [word, count] = fields else {
        return None;
    };
    if !is_word(word.as_str(), "checkpoint") {
        return None;
    }
    read_count(count.as_str())
}

/// The clock of `clock,MOMENT,BITS`: one to 18 digits, and 0 to 99,999,999.
pub(crate) fn clock_of(fields: &[Txt]) -> Option<Clock>
    ensures { result ≡ clock_of fields.now }
{
    let [word, moment, bits] = fields else {
        return None;
    };
    if !is_word(word.as_str(), "clock") {
        return None;
    }
    let moment = read_count(moment.as_str())?;
    let bits = number(bits.as_str(), 0, 99_999_999)?;
    Some(Clock { moment, bits })
}

// PID,TABLE,EXT,STREAM,NETWORK
fn read_key(pid: &Txt, table: &Txt, ext: &Txt, stream: &Txt, network: &Txt) -> Option<Key>
    ensures { result ≡ key_in pid.now table.now ext.now stream.now network.now }
{
    let pid = number(pid.as_str(), 0, 8190)?;
    let table = number(table.as_str(), 0, 255)?;
    let ext = number(ext.as_str(), 0, 65_535)?;
    let stream = number(stream.as_str(), 0, 65_535)?;
    let network = number(network.as_str(), 0, 65_535)?;
    let key = Key {
        pid: pid as u16,
        table: table as u8,
        ext: ext as u16,
        stream: stream as u16,
        network: network as u16,
    };
    if is_listed(&key) { Some(key) } else { None }
}

// PID,TABLE,EXT,STREAM,NETWORK,VERSION
fn read_version(fields: &[Txt]) -> Option<Part>
    ensures value { result ≡ version_of fields.now }
    ensures fit { IfSome result IsFitPart }
{
    let [pid, table, ext, stream, network, version] = fields else {
        return None;
    };
    let key = read_key(pid, table, ext, stream, network)?;
    let version = number(version.as_str(), 0, 31)?;
    Some(Part::Version(key, version as u8))
}

fn is_lower(field: &str) -> bool
    ensures { result ≡ list_all is_lower_digit field.now }
{
    field.as_bytes().iter().all(|b| (b'0' <= *b && *b <= b'9') || (b'a' <= *b && *b <= b'f'))
}

// The bytes of a body, two lower-case hexadecimal digits each.
fn read_body(alloc: Global, field: &str) -> Result<Option<Vec<u8>>, AllocError>
    ensures { IfOk result (λ found. option_map (λ bytes. bytes.items) found ≡ body_in field.now) }
{
    if !is_lower(field) {
        return Ok(None);
    }
    match hex::decode(alloc, field.as_bytes()) {
        Ok(bytes) if bytes.len() <= LONGEST_BODY => Ok(Some(bytes)),
        Ok(_) => Ok(None),
        Err(FromHexError::OutOfMemory) => Err(AllocError),
        Err(_) => Ok(None),
    }
}

// NUMBER,HEX
fn read_section(alloc: Global, fields: &[Txt]) -> Result<Option<Part>, AllocError>
    ensures value { IfOk result (λ found. found ≡ section_of fields.now) }
    ensures fit { IfOk result (λ found. IfSome found IsFitPart) }
{
    let [section, body] = fields else {
        return Ok(None);
    };
    let Some(section) = number(section.as_str(), 0, 255) else {
        return Ok(None);
    };
    let Some(bytes) = read_body(alloc, body.as_str())? else {
        return Ok(None);
    };
    Ok(Some(Part::Section(NumberedBody {
        number: section as u8,
        body: Items::of(bytes),
    })))
}

// PID,NEXT
fn read_counter(fields: &[Txt]) -> Option<Part>
    ensures value { result ≡ counter_of fields.now }
    ensures fit { IfSome result IsFitPart }
{
    let [pid, next] = fields else {
        return None;
    };
    let pid = number(pid.as_str(), 0, 8191)?;
    let next = number(next.as_str(), 0, 15)?;
    Some(Part::Counter(PidCounter {
        pid: pid as u16,
        next: next as u8,
    }))
}

fn read_end(fields: &[Txt]) -> Option<Part>
    ensures value { result ≡ end_of fields.now }
    ensures fit { IfSome result IsFitPart }
{
    if fields.is_empty() {
        Some(Part::End)
    } else {
        None
    }
}

/// The part that these fields are, where they are no step.
#[tactic(auto, unfolding(crate::specs::Fields::part_of))]
pub(crate) fn read_part(alloc: Global, fields: &[Txt]) -> Result<Option<Part>, AllocError>
    ensures value { IfOk result (λ found. found ≡ part_of fields.now) }
    ensures fit { IfOk result (λ found. IfSome found IsFitPart) }
{
    let [word, fields @ ..] = fields else {
        return Ok(None);
    };
    let word = word.as_str();
    if is_word(word, "version") {
        Ok(read_version(fields))
    } else if is_word(word, "body") {
        read_section(alloc, fields)
    } else if is_word(word, "counter") {
        Ok(read_counter(fields))
    } else if is_word(word, "end") {
        Ok(read_end(fields))
    } else {
        Ok(None)
    }
}

/// Whether a line with these fields is that of a step.
pub(crate) fn begins_step(fields: &[Txt]) -> bool
    ensures { result ≡ begins_step fields.now }
{
    match fields.first() {
        Some(field) => numeral(field.as_str()) == Some(0),
        None => false,
    }
}

/// Whether a part is the end.
pub(crate) fn is_end(part: &Part) -> bool
    ensures { result ≡ is_end part.now }
{
    matches!(part, Part::End)
}
