// Event information as it is read.
ghost use Rattle.std.specs.Prelude.{◌≡◌, length, is_some, IfOk};
ghost use Rattle.std.proofs.Common.{lit<};
ghost use Rattle.table_bodies.specs.ShownEvent.{event_of};
ghost use Rattle.table_bodies.specs.Eit.{duration_of, eit_in, event_in, time_of};

use crate::eit::{Eit, EitHead};
use crate::shown_event::{extended_of, take_genres, take_rating, take_short, without_pieces};
use crate::{EntryKind, RawEntry, are_entries, read_entries};
use guide_model::{RawDescs, ScreenEvent};
use si_base::Items;
use si_time::{Moment, duration_from_bcd, from_bcd};
use std::alloc::{AllocError, Global};

/// The head and the events of the body of a section of event information (EN 300 468, 5.2.4), or `None` exactly where
/// the body ends within its head or an entry, a descriptor runs past the end of its loop, bytes are left over, or a start
/// or a duration is not decimal or no time. running_status and free_CA_mode may have any value.
///
/// Language, name and short text are those of the first short_event; without one the language is `und` and both texts
/// are empty. The extended text joins the extended_event pieces of that language in the order in which they stand; where
/// one is not shown as text it is `Hex` of all their bytes. The genres are those of the first content, the rating is the
/// first of the first parental_rating. All other descriptors are further ones: of other tags, those whose body does not
/// fit, a rating of several countries, and pieces that have items or another language, or whose text is no text.
pub fn read_eit(alloc: Global, body: &[u8]) -> Result<Option<Eit>, AllocError>
    ensures { IfOk result (λ read. read ≡ eit_in body.now) }
{
    let [a, b, c, d, segment_last, last_table, entries @ ..] = body else {
        return Ok(None);
    };
    let Some(events) = read_entries::<EventEntries>(alloc, entries)? else {
        return Ok(None);
    };
    let head = EitHead {
        stream: 256 * u16::from(*a) + u16::from(*b),
        original: 256 * u16::from(*c) + u16::from(*d),
        segment_last: *segment_last,
        last_table: *last_table,
    };
    Ok(Some(Eit { head, events }))
}

/// Whether these bytes are the body of a section of event information, as `read_eit` reads it (EN 300 468, 5.2.4). It
/// takes no memory.
pub fn is_eit_body(body: &[u8]) -> bool
    ensures { result ≡ is_some (eit_in body.now) }
{
    6 <= body.len() && are_entries::<EventEntries>(&body[6..])
}

// The entries of events.
struct EventEntries;

impl EntryKind for EventEntries {
    type Value = ScreenEvent;

    const SIZE: usize = 10;

    ghost SIZE = { 10 };

    ghost value_of = { event_in };

    fn read(
        alloc: Global,
        entry: &RawEntry,
        descs: RawDescs,
    ) -> Result<Option<ScreenEvent>, AllocError> {
        let Some(start) = from_bcd(time_of(entry)) else {
            return Ok(None);
        };
        let Some(seconds) = duration_from_bcd(duration_of(entry)) else {
            return Ok(None);
        };
        let event = event_of(alloc, entry.two(0), start, seconds, descs)?;
        Ok(Some(event))
    }

    fn is_read(entry: &RawEntry) -> bool {
        from_bcd(time_of(entry)).is_some() && duration_from_bcd(duration_of(entry)).is_some()
    }

    ghost is_narrow = { lit< tt };
}

// The start_time of the fields of an entry.
fn time_of(entry: &RawEntry) -> [u8; 5]
    requires { length entry.now.fields ≡ 10 }
    ensures { result ≡ time_of entry.now.fields }
{
    [
        entry.byte(2),
        entry.byte(3),
        entry.byte(4),
        entry.byte(5),
        entry.byte(6),
    ]
}

// The duration of the fields of an entry.
fn duration_of(entry: &RawEntry) -> [u8; 3]
    requires { length entry.now.fields ≡ 10 }
    ensures { result ≡ duration_of entry.now.fields }
{
    [entry.byte(7), entry.byte(8), entry.byte(9)]
}

// The event that descriptors show.
fn event_of(
    alloc: Global,
    id: u16,
    start: Moment,
    seconds: u32,
    descs: RawDescs,
) -> Result<ScreenEvent, AllocError>
    ensures { IfOk result (λ event. event ≡ event_of id start.0 seconds descs) }
{
    let mut further = descs.into_vec();
    let short = take_short(alloc, &mut further)?;
    let rating = take_rating(alloc, &mut further)?;
    let genres = take_genres(alloc, &mut further)?;
    let extended = extended_of(alloc, &short.language, &further)?;
    without_pieces(&short.language, &extended, &mut further);
    Ok(ScreenEvent {
        id,
        start,
        seconds,
        language: short.language,
        name: short.name,
        short: short.short,
        extended,
        rating,
        genres,
        descriptors: Items::of(further),
    })
}
