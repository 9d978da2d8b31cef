// Sections as they are read.
ghost use Rattle.std.specs.Prelude.{◌≡◌, ◌+◌, ◌*◌, ◌<◌, ◌≤◌, ◌==◌, true, false, length, IfOk, IfErr, IfSome, IfNone, IsOk};
ghost use Rattle.section_codec.specs.Section.{section_in, is_long, is_tot, least, kept_crc, found_crc, long_header, long_body, has_its_length, has_long_syntax, LongReadsBack, ShortReadsBack, TotReadsBack};

use crate::section::{BadSection, LongHeader, Section};
use crate::tables::{has_long_form, has_short_form};
use si_base::{Items, crc32};
use std::alloc::Global;

/// The section that these bytes are (ISO/IEC 13818-1, 2.4.4; EN 300 468, 5.1.1). Of the refusals
/// the first that applies is answered:
/// - `Length`: fewer than 3 bytes, or not exactly those that section_length tells, or more than
///   4,096, or fewer than 12 in the long form, or than 7 of the TOT;
/// - `Crc(kept, found)`: in the long form, or of the TOT, the last four bytes are not the CRC of
///   those before;
/// - `Syntax`: a table in the other form than its own, or a number above the last.
///
/// The body of a TOT, which has a CRC in the short form, is given without it. `Memory` comes only
/// for a section, where its body finds none.
pub fn read_section(alloc: Global, bytes: &[u8]) -> Result<Section, BadSection>
    ensures section { IfOk result (λ section. section_in bytes.now ≡ Ok section) }
    ensures refused { IfErr (section_in bytes.now) (λ bad. result ≡ Err bad) }
    ensures memory { IfErr result (λ bad. IsOk (section_in bytes.now) → bad ≡ BadSection.Memory) }
{
    if !has_its_length(bytes) {
        return Err(BadSection::Length);
    }
    if is_long(bytes) {
        read_long(alloc, bytes)
    } else if is_tot(bytes) {
        read_tot(alloc, bytes)
    } else {
        read_short(alloc, bytes)
    }
}

// A section in the long form, of the right length.
fn read_long(alloc: Global, bytes: &[u8]) -> Result<Section, BadSection>
    requires length { has_its_length bytes.now ≡ true }
    requires form { is_long bytes.now ≡ true }
    ensures section { IfOk result (λ section. section_in bytes.now ≡ Ok section) }
    ensures refused { IfErr (section_in bytes.now) (λ bad. result ≡ Err bad) }
    ensures memory { IfErr result (λ bad. IsOk (section_in bytes.now) → bad ≡ BadSection.Memory) }
{
    if let Some(bad) = crc_refused(bytes) {
        return Err(bad);
    }
    if !has_long_syntax(bytes) {
        return Err(BadSection::Syntax);
    }
    match Vec::from_slice(alloc, long_body(bytes)) {
        Ok(body) => Ok(Section::Long(long_header(bytes), Items::of(body))),
        Err(_) => Err(BadSection::Memory),
    }
}

// A section of the TOT, in the short form with a CRC, of the right length.
fn read_tot(alloc: Global, bytes: &[u8]) -> Result<Section, BadSection>
    requires length { has_its_length bytes.now ≡ true }
    requires form { is_long bytes.now ≡ false }
    requires table { is_tot bytes.now ≡ true }
    ensures section { IfOk result (λ section. section_in bytes.now ≡ Ok section) }
    ensures refused { IfErr (section_in bytes.now) (λ bad. result ≡ Err bad) }
    ensures memory { IfErr result (λ bad. IsOk (section_in bytes.now) → bad ≡ BadSection.Memory) }
{
    if let Some(bad) = crc_refused(bytes) {
        return Err(bad);
    }
    let (_, behind) = bytes.split_at(3);
    let (body, _) = behind.split_at(bytes.len() - 7);
    match Vec::from_slice(alloc, body) {
        Ok(body) => Ok(Section::Short(bytes[0], Items::of(body))),
        Err(_) => Err(BadSection::Memory),
    }
}

// A section in the short form without a CRC, of the right length.
fn read_short(alloc: Global, bytes: &[u8]) -> Result<Section, BadSection>
    requires length { has_its_length bytes.now ≡ true }
    requires form { is_long bytes.now ≡ false }
    requires table { is_tot bytes.now ≡ false }
    ensures section { IfOk result (λ section. section_in bytes.now ≡ Ok section) }
    ensures refused { IfErr (section_in bytes.now) (λ bad. result ≡ Err bad) }
    ensures memory { IfErr result (λ bad. IsOk (section_in bytes.now) → bad ≡ BadSection.Memory) }
{
    let table = bytes[0];
    if has_long_form(table) {
        return Err(BadSection::Syntax);
    }
    match Vec::from_slice(alloc, &bytes[3..]) {
        Ok(body) => Ok(Section::Short(table, Items::of(body))),
        Err(_) => Err(BadSection::Memory),
    }
}

// Whether the bytes are those that section_length tells, and not too many or too few.
fn has_its_length(bytes: &[u8]) -> bool
    ensures { result ≡ has_its_length bytes.now }
{
    let len = bytes.len();
    if len < 3 {
        return false;
    }
    let told = u16::from_be_bytes([bytes[1], bytes[2]]) % 4096;
    len == 3 + told as usize && len <= 4096 && least(bytes) <= len
}

// How many bytes a section has at least.
fn least(bytes: &[u8]) -> usize
    requires { 1 < length bytes.now }
    ensures { result ≡ least bytes.now }
{
    if is_long(bytes) {
        12
    } else if is_tot(bytes) {
        7
    } else {
        3
    }
}

// Whether the table is the TOT.
fn is_tot(bytes: &[u8]) -> bool
    requires { 0 < length bytes.now }
    ensures { result ≡ is_tot bytes.now }
{
    bytes[0] == 0x73
}

// Whether section_syntax_indicator is 1.
fn is_long(bytes: &[u8]) -> bool
    requires { 1 < length bytes.now }
    ensures { result ≡ is_long bytes.now }
{
    bytes[1] / 128 % 2 == 1
}

// The refusal of bytes whose last four are not the CRC of those before.
fn crc_refused(bytes: &[u8]) -> Option<BadSection>
    requires { 4 ≤ length bytes.now }
    ensures same { IfNone result ((kept_crc bytes.now == found_crc bytes.now) ≡ true) }
    ensures other { IfSome result (λ bad. ((kept_crc bytes.now == found_crc bytes.now) ≡ false)
        × (bad ≡ BadSection.Crc (kept_crc bytes.now) (found_crc bytes.now))) }
{
    let kept = kept_crc(bytes);
    let found = found_crc(bytes);
    if kept != found {
        return Some(BadSection::Crc(kept, found));
    }
    None
}

// The last four bytes, and the CRC of those before.
fn kept_crc(bytes: &[u8]) -> u32
    requires { 4 ≤ length bytes.now }
    ensures { result ≡ kept_crc bytes.now }
{
    let at = bytes.len() - 4;
    u32::from_be_bytes([bytes[at], bytes[at + 1], bytes[at + 2], bytes[at + 3]])
}

fn found_crc(bytes: &[u8]) -> u32
    requires { 4 ≤ length bytes.now }
    ensures { result ≡ found_crc bytes.now }
{
    let (before, _) = bytes.split_at(bytes.len() - 4);
    crc32(before)
}

// Whether the table has the long form, and the number is not above the last.
fn has_long_syntax(bytes: &[u8]) -> bool
    requires { 8 ≤ length bytes.now }
    ensures { result ≡ has_long_syntax bytes.now }
{
    !has_short_form(bytes[0]) && bytes[6] <= bytes[7]
}

fn long_header(bytes: &[u8]) -> LongHeader
    requires { 8 ≤ length bytes.now }
    ensures { result ≡ long_header bytes.now }
{
    LongHeader {
        table: bytes[0],
        ext: u16::from_be_bytes([bytes[3], bytes[4]]),
        version: bytes[5] / 2 % 32,
        current: bytes[5] % 2 == 1,
        number: bytes[6],
        last: bytes[7],
    }
}

// What stands between the header and the CRC.
fn long_body(bytes: &[u8]) -> &[u8]
    requires { 12 ≤ length bytes.now }
    ensures { result.now ≡ long_body bytes.now }
{
    let (_, behind) = bytes.split_at(8);
    let (body, _) = behind.split_at(bytes.len() - 12);
    body
}

/// Reading a written section gives it back.
pub fn written_sections_read_back()
    ensures long { LongReadsBack }
    ensures short { ShortReadsBack }
    ensures tot { TotReadsBack }
{}
