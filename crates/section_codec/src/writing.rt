// Sections as they are written.
ghost use Rattle.std.specs.Prelude.{◌≡◌, ◌==◌, ◌+◌, ◌<◌, ◌≤◌, length, true, false, IfOk};
ghost use Rattle.si_base.specs.Room.{Appended, HasRoom};
ghost use Rattle.section_codec.specs.Tables.{has_long_form, has_short_form};
ghost use Rattle.section_codec.specs.Section.{section_bytes, short_bytes, short_crc_bytes, longest_body, long_flags, current_bit};

use crate::section::LongHeader;
use si_base::{Bytes, Items, crc32, put};
use std::alloc::{AllocError, Global};

/// The bytes of a section in the long form, with its CRC (ISO/IEC 13818-1, 2.4.4; EN 300 468,
/// 5.1.1). It needs a table other than the TDT's 0x70 and the TOT's 0x73, a version below 32, a
/// number at most the last one, and a body of at most 4,084 bytes for the event tables 0x4E to 0x6F
/// and of 1,012 for others.
pub fn write_long(alloc: Global, header: &LongHeader, body: &[u8]) -> Result<Bytes, AllocError>
    requires form { has_short_form header.now.table ≡ false }
    requires version { header.now.version < 32 }
    requires number { header.now.number ≤ header.now.last }
    requires within { length body.now ≤ longest_body header.now.table }
    ensures { IfOk result (λ bytes. bytes ≡ section_bytes header.now body.now) }
{
    let mut out = Vec::with_capacity(alloc, 12 + body.len())?;
    put_section(&mut out, header, body);
    Ok(Items::of(out))
}

/// Appends the bytes of a section in the long form to a buffer that has room for them, so that it takes no memory (ISO/IEC 13818-1,
/// 2.4.4; EN 300 468, 5.1.1). It needs a version below 32 and a body of at most 4,084 bytes.
pub fn put_section(out: &mut Vec<u8>, header: &LongHeader, body: &[u8])
    requires version { header.now.version < 32 }
    requires within { length body.now ≤ 4084 }
    requires room { HasRoom out.old (12 + length body.now) }
    ensures { Appended out.old out.new (section_bytes header.now body.now) }
{
    let start = out.len();
    let flags = long_flags(header.table) + 9 + body.len() as u16;
    put(out, &[header.table]);
    put(out, &flags.to_be_bytes());
    put(out, &header.ext.to_be_bytes());
    put(
        out,
        &[
            0xC0 + 2 * header.version + current_bit(header.current),
            header.number,
            header.last,
        ],
    );
    put(out, body);
    let (_, section) = out.as_slice().split_at(start);
    let crc = crc32(section);
    put(out, &crc.to_be_bytes());
}

/// The bytes of a section in the short form, which has no CRC (EN 300 468, 5.2.5). It needs a table
/// that is none of PAT, PMT, NIT, SDT and EIT, nor the TOT, and a body of at most 4,093 bytes.
pub fn write_short(alloc: Global, table: u8, body: &[u8]) -> Result<Bytes, AllocError>
    requires form { has_long_form table ≡ false }
    requires no_crc { (table == 0x73) ≡ false }
    requires within { length body.now ≤ 4093 }
    ensures { IfOk result (λ bytes. bytes ≡ short_bytes table body.now) }
{
    let mut out = Vec::with_capacity(alloc, 3 + body.len())?;
    let flags = 0x7000 + body.len() as u16;
    out.push(table)?;
    out.extend_from_slice(&flags.to_be_bytes())?;
    out.extend_from_slice(body)?;
    Ok(Items::of(out))
}

/// The bytes of a section in the short form with a CRC (EN 300 468, 5.2.6). It needs the TOT's
/// table, 0x73, and a body of at most 4,089 bytes.
pub fn write_short_crc(alloc: Global, table: u8, body: &[u8]) -> Result<Bytes, AllocError>
    requires form { (table == 0x73) ≡ true }
    requires within { length body.now ≤ 4089 }
    ensures { IfOk result (λ bytes. bytes ≡ short_crc_bytes table body.now) }
{
    let mut out = Vec::with_capacity(alloc, 7 + body.len())?;
    let flags = 0x7000 + 4 + body.len() as u16;
    out.push(table)?;
    out.extend_from_slice(&flags.to_be_bytes())?;
    out.extend_from_slice(body)?;
    let crc = crc32(&out);
    out.extend_from_slice(&crc.to_be_bytes())?;
    Ok(Items::of(out))
}

// The second and third byte, less section_length.
fn long_flags(table: u8) -> u16
    ensures { result ≡ long_flags table }
{
    if table == 0x00 || table == 0x02 {
        0xB000
    } else {
        0xF000
    }
}

fn current_bit(current: bool) -> u8
    ensures { result ≡ current_bit current }
{
    if current { 1 } else { 0 }
}
