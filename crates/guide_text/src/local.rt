// The lines of local time.
ghost use Rattle.std.specs.Prelude.{◌≡◌, ◌+◌, ◌-◌, ◌++◌, ◌∷◌, if◌then◌else◌, nat_le, Some, None, OnOk, decimal, flat_map};
ghost use Rattle.guide_text.specs.Fields.{code_text, moment_field, optional};
ghost use Rattle.guide_text.specs.Guides.{side_text, minutes_at, local_moment, local_text, local_line};

use crate::field::{WINDOW, put_code, put_decimal, put_field, put_moment};
use guide_model::Offset;
use si_time::{Moment, write_moment};
use std::alloc::{AllocError, Global};

// The minutes that apply at a moment.
fn minutes_at(at: Moment, offset: &Offset) -> u16
    ensures { result ≡ minutes_at at.0 offset.now }
{
    if offset.change.0 <= at.0 {
        offset.next
    } else {
        offset.minutes
    }
}

// Appends a moment on the clocks of a region.
fn put_local_text(out: &mut Vec<u8>, at: Moment) -> Result<(), AllocError>
    ensures { OnOk result (out.new.items ≡ out.old.items ++ 9 ∷ local_text at.0) }
{
    if at.0 < WINDOW {
        let text = write_moment(at);
        let (local, _) = text.split_at(19);
        put_field(out, local)
    } else {
        put_field(out, b"")
    }
}

// Appends the moment on the clocks of the region, where it is one of the range.
fn put_local(out: &mut Vec<u8>, at: Moment, offset: &Offset) -> Result<(), AllocError>
    ensures { OnOk result (out.new.items ≡ out.old.items ++ 9 ∷ optional local_text (local_moment at.0 offset.now)) }
{
    let seconds = 60 * u64::from(minutes_at(at, offset));
    if offset.behind {
        put_behind(out, at, seconds)
    } else {
        put_ahead(out, at, seconds)
    }
}

fn put_behind(out: &mut Vec<u8>, at: Moment, seconds: u64) -> Result<(), AllocError>
    ensures { OnOk result (out.new.items ≡ out.old.items
        ++ 9 ∷ optional local_text (if nat_le seconds at.0 then Some (at.0 - seconds) else None)) }
{
    if seconds <= at.0 {
        put_local_text(out, Moment(at.0 - seconds))
    } else {
        put_field(out, b"")
    }
}

// A sum that 64 bits can't say is no moment of the range.
fn put_ahead(out: &mut Vec<u8>, at: Moment, seconds: u64) -> Result<(), AllocError>
    ensures { OnOk result (out.new.items ≡ out.old.items ++ 9 ∷ local_text (at.0 + seconds)) }
{
    match at.0.checked_add(seconds) {
        Some(local) => put_local_text(out, Moment(local)),
        None => put_field(out, b""),
    }
}

// Appends whether the clocks are ahead of UTC or behind.
fn put_side(out: &mut Vec<u8>, behind: bool) -> Result<(), AllocError>
    ensures { OnOk result (out.new.items ≡ out.old.items ++ 9 ∷ side_text behind) }
{
    if behind {
        put_field(out, b"behind")
    } else {
        put_field(out, b"ahead")
    }
}

// Appends country, region and side.
fn put_region(alloc: Global, out: &mut Vec<u8>, offset: &Offset) -> Result<(), AllocError>
    ensures { OnOk result (out.new.items ≡ out.old.items
        ++ 9 ∷ (code_text offset.now.country ++ 9 ∷ (decimal offset.now.region ++ 9 ∷ side_text offset.now.behind))) }
{
    put_code(alloc, out, offset.country)?;
    put_decimal(alloc, out, u64::from(offset.region))?;
    put_side(out, offset.behind)
}

// Appends the minutes, the moment of the change, and the minutes from then on.
fn put_minutes(alloc: Global, out: &mut Vec<u8>, offset: &Offset) -> Result<(), AllocError>
    ensures { OnOk result (out.new.items ≡ out.old.items
        ++ 9 ∷ (decimal offset.now.minutes ++ 9 ∷ (moment_field offset.now.change.0 ++ 9 ∷ decimal offset.now.next))) }
{
    put_decimal(alloc, out, u64::from(offset.minutes))?;
    put_moment(out, offset.change)?;
    put_decimal(alloc, out, u64::from(offset.next))
}

// Appends the line of a region at a moment.
fn put_offset(
    alloc: Global,
    out: &mut Vec<u8>,
    at: Moment,
    offset: &Offset,
) -> Result<(), AllocError>
    ensures { OnOk result (out.new.items ≡ out.old.items ++ local_line at.0 offset.now) }
{
    out.extend_from_slice(b"local")?;
    put_region(alloc, out, offset)?;
    put_minutes(alloc, out, offset)?;
    put_local(out, at, offset)?;
    out.extend_from_slice(b"\n")
}

/// Appends the lines of regions at a moment.
pub fn put_offsets(
    alloc: Global,
    out: &mut Vec<u8>,
    at: Moment,
    offsets: &[Offset],
) -> Result<(), AllocError>
    ensures { OnOk result (out.new.items ≡ out.old.items ++ flat_map (local_line at.0) offsets.now) }
{
    for offset in offsets {
        put_offset(alloc, out, at, offset)?;
    }
    Ok(())
}
