// local_time_offset_descriptor.
ghost use Rattle.std.specs.Prelude.{◌≡◌, ◌*◌, ◌≤◌, ◌<◌, ◌+◌, ◌∷◌, [], ℕ, length, vec_len, IfOk};
ghost use Rattle.std.specs.List.{All};
ghost use Rattle.si_base.specs.Room.{Appended, HasRoom};
ghost use Rattle.si_time.specs.Readings.{moment_from_bcd};
ghost use Rattle.time_tables.specs.LocalOffsets.{hhmm, region_byte, polarity, offset_bytes, local_offsets, minutes_in, offset_of, offsets_in, FitsOffset};

use guide_model::{Offset, Offsets};
use si_base::{Items, put};
use si_time::{duration_bcd, duration_from_bcd, from_bcd, to_bcd};
use std::alloc::{AllocError, Global};

/// descriptor_tag of a local_time_offset_descriptor.
pub(crate) const TAG: u8 = 0x58;

/// The bytes of an entry (EN 300 468, 6.2.20).
const ENTRY: usize = 13;

// The four digits of minutes.
#[tactic(auto, unfolding(si_time::specs::Moments::duration_bcd))]
fn hhmm(minutes: u16) -> [u8; 2]
    requires { minutes < 1440 }
    ensures { result ≡ hhmm minutes }
{
    let [h, m, _] = duration_bcd(u32::from(minutes) * 60);
    [h, m]
}

fn polarity(behind: bool) -> u8
    ensures { result ≡ polarity behind }
{
    if behind { 1 } else { 0 }
}

// Appends an entry to a buffer that has room for it.
#[tactic(auto, unfolding(si_time::specs::Moments::moment_bcd))]
fn put_offset(offset: &Offset, out: &mut Vec<u8>)
    requires fits { FitsOffset offset.now }
    requires room { HasRoom out.old 13 }
    ensures entry { Appended out.old out.new (offset_bytes offset.now) }
    ensures len { vec_len out.new ≡ vec_len out.old + 13 }
{
    put(out, &offset.country);
    put(out, &[4 * offset.region + 2 + polarity(offset.behind)]);
    put(out, &hhmm(offset.minutes));
    put(out, &to_bcd(offset.change));
    put(out, &hhmm(offset.next));
}

/// Appends a descriptor with these offsets, at most 19, to a buffer that has room for it.
pub(crate) fn put_local_offsets(offsets: &[Offset], out: &mut Vec<u8>)
    requires fits { All FitsOffset offsets.now }
    requires length { 13 * length offsets.now ≤ 255 }
    requires room { HasRoom out.old (2 + 13 * length offsets.now) }
    ensures { Appended out.old out.new (local_offsets offsets.now) }
{
    put(out, &[TAG, (ENTRY * offsets.len()) as u8]);
    for offset in offsets {
        put_offset(offset, out);
    }
}

// The minutes of four digits.
fn minutes_in(h: u8, m: u8) -> Option<u16>
    ensures { result ≡ minutes_in h m }
{
    let seconds = duration_from_bcd([h, m, 0])?;
    if seconds < 86_400 {
        Some((seconds / 60) as u16)
    } else {
        None
    }
}

// The offset of an entry, where both its offsets and its change are read.
fn offset_in(
    country: [u8; 3],
    region: u8,
    offset: [u8; 2],
    change: [u8; 5],
    next: [u8; 2],
) -> Option<Offset>
    ensures { (a b c d : ℕ) → offset ≡ a ∷ b ∷ [] → next ≡ c ∷ d ∷ []
        → result ≡ offset_of country region (minutes_in a b) (moment_from_bcd change) (minutes_in c d) }
{
    let [oh, om] = offset;
    let [nh, nm] = next;
    let minutes = minutes_in(oh, om)?;
    let change = from_bcd(change)?;
    let next = minutes_in(nh, nm)?;
    Some(Offset {
        country,
        region: region / 4,
        behind: region % 2 == 1,
        minutes,
        change,
        next,
    })
}

/// The offsets of the body of a local_time_offset_descriptor, or `None` exactly where it ends
/// within an entry, or one has an offset that is no time of day in decimal digits, or a change that
/// is no moment (EN 300 468, 6.2.20).
pub(crate) fn offsets_in(alloc: Global, body: &[u8]) -> Result<Option<Offsets>, AllocError>
    ensures { IfOk result (λ read. read ≡ offsets_in body.now) }
{
    let mut offsets = Vec::with_capacity(alloc, body.len() / ENTRY)?;
    let mut rest = body;
    while let [
        c1,
        c2,
        c3,
        region,
        h,
        m,
        d1,
        d2,
        t1,
        t2,
        t3,
        nh,
        nm,
        behind @ ..,
    ] = rest
    {
        let Some(offset) = offset_in(
            [*c1, *c2, *c3],
            *region,
            [*h, *m],
            [*d1, *d2, *t1, *t2, *t3],
            [*nh, *nm],
        ) else {
            return Ok(None);
        };
        offsets.push(offset)?;
        rest = behind;
    }
    if !rest.is_empty() {
        return Ok(None);
    }
    Ok(Some(Items::of(offsets)))
}
