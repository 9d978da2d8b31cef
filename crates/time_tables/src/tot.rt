// The time offset table.
ghost use Rattle.std.specs.Prelude.{◌≡◌, ◌*◌, ◌<◌, ◌≤◌, ◌++◌, length, IfOk, IfSome, OnOk};
ghost use Rattle.time_tables.specs.LocalOffsets.{FitsOffset};
ghost use Rattle.time_tables.specs.Tot.{tot_body, tot_section, told_by, told_within, told_in, tot_in, AreSent};

use crate::local_offsets::{TAG, offsets_in, put_local_offsets};
use guide_model::{Offset, Offsets};
use section_codec::write_short_crc;
use si_base::{Bytes, Copies, Items, put};
use si_time::{Moment, from_bcd, to_bcd};
use std::alloc::{AllocError, Global};

/// What a time offset table says: UTC_time, and the offsets of its local_time_offset_descriptors
/// (EN 300 468, 5.2.6 and 6.2.20).
#[derive(Drop)]
pub struct Tot {
    pub at: Moment,
    pub offsets: Offsets,
}

// The bytes of the body.
fn tot_body(alloc: Global, at: Moment, offsets: &[Offset]) -> Result<Vec<u8>, AllocError>
    requires at { at.0 < 65536 * 86400 }
    requires offsets { AreSent offsets.now }
    ensures { IfOk result (λ body. body.items ≡ tot_body at.0 offsets.now) }
{
    let size = 2 + 13 * offsets.len();
    let mut body = Vec::with_capacity(alloc, 7 + size)?;
    put(&mut body, &to_bcd(at));
    put(&mut body, &(0xF000 + size as u16).to_be_bytes());
    put_local_offsets(offsets, &mut body);
    Ok(body)
}

/// The section of the time offset table: table_id 0x73 in the short form with a CRC, UTC_time, and
/// one descriptor with these offsets (EN 300 468, 5.2.6). It needs a moment within the window of a
/// Modified Julian Date of 16 bits, and 1 to 16 offsets that fit their fields.
pub fn write_tot(alloc: Global, at: Moment, offsets: &[Offset]) -> Result<Bytes, AllocError>
    requires at { at.0 < 65536 * 86400 }
    requires offsets { AreSent offsets.now }
    ensures { IfOk result (λ section. section ≡ tot_section at.0 offsets.now) }
{
    let body = tot_body(alloc, at, offsets)?;
    write_short_crc(alloc, 0x73, &body)
}

// Appends the offsets that a descriptor says.
fn put_told(alloc: Global, tag: u8, body: &[u8], told: &mut Vec<Offset>) -> Result<(), AllocError>
    ensures { OnOk result (told.new.items ≡ told.old.items ++ told_by tag body.now) }
{
    if tag != TAG {
        return Ok(());
    }
    let Some(offsets) = offsets_in(alloc, body)? else {
        return Ok(());
    };
    for offset in offsets.as_slice() {
        told.push(*offset)?;
    }
    Ok(())
}

// The offsets that descriptors say, or `None` exactly where one runs past the end.
fn told_within(alloc: Global, bytes: &[u8]) -> Result<Option<Offsets>, AllocError>
    ensures { IfOk result (λ told. told ≡ told_within (length bytes.now) bytes.now) }
{
    let mut told = Vec::new(alloc);
    let mut rest = bytes;
    while let [tag, len, behind @ ..] = rest {
        let len = usize::from(*len);
        if behind.len() < len {
            return Ok(None);
        }
        let (body, after) = behind.split_at(len);
        put_told(alloc, *tag, body, &mut told)?;
        rest = after;
    }
    if !rest.is_empty() {
        return Ok(None);
    }
    Ok(Some(Items::of(told)))
}

// The offsets of a loop after its length.
fn told_in(alloc: Global, bytes: &[u8]) -> Result<Option<Offsets>, AllocError>
    ensures { IfOk result (λ told. told ≡ told_in bytes.now) }
{
    let [high, low, rest @ ..] = bytes else {
        return Ok(None);
    };
    let len = usize::from(u16::from_be_bytes([*high, *low]) % 4096);
    if len != rest.len() {
        return Ok(None);
    }
    told_within(alloc, rest)
}

/// What the body of a section of the time offset table says, or `None` exactly where UTC_time is no
/// time, the length of the loop is not that of the rest, or a descriptor runs past the end. A
/// local_time_offset_descriptor that is not whole entries, or has an offset that is no time of day
/// in decimal digits, or a change that is no moment, is passed over (EN 300 468, 5.2.6 and 6.2.20).
pub fn read_tot(alloc: Global, body: &[u8]) -> Result<Option<Tot>, AllocError>
    ensures value { IfOk result (λ read. read ≡ tot_in body.now) }
    ensures window { IfOk result (λ read. IfSome read (λ tot. tot.at.0 < 65536 * 86400)) }
{
    let [high, low, h, m, s, behind @ ..] = body else {
        return Ok(None);
    };
    let Some(at) = from_bcd([*high, *low, *h, *m, *s]) else {
        return Ok(None);
    };
    let Some(offsets) = told_in(alloc, behind)? else {
        return Ok(None);
    };
    Ok(Some(Tot { at, offsets }))
}
