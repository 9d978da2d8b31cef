// The schedule of a service.
ghost use Rattle.std.specs.Prelude.{◌≡◌, ◌+◌, ◌-◌, ◌≤◌, ◌++◌, ◌%◌, map, IfOk, OnOk};
ghost use Rattle.std.specs.List.{All};
ghost use Rattle.table_bodies.specs.Eit.{IsCodable};
ghost use Rattle.eit_segments.specs.Schedule.{CanBePlaced, sections_in_table};
ghost use Rattle.eit_segments.specs.Laws.{at_of};
ghost use Rattle.publication.specs.Schedule.{last_table_of, schedule_section, schedule_of, schedules_of};
ghost use Rattle.publication.specs.Streams.{bearer_of};

use crate::events::{Stream, eit_head, eit_key};
use eit_segments::{EventAt, Piece, sections_in_table};
use guide_model::{Event, ServiceGuide};
use section_codec::{NumberedBodies, NumberedBody, SubTable, SubTables, tier_of};
use si_time::Moment;
use std::alloc::{AllocError, Global};
use table_bodies::write_eit;

/// running_status of the events of a schedule: undefined (EN 300 468, 5.2.4).
const UNDEFINED: u8 = 0;

/// The last table of the first eight days.
pub(crate) const LAST_NEAR: u8 = 0x51;

// A section.
fn schedule_section(
    alloc: Global,
    of: Stream,
    events: &[Event],
    last_table: u8,
    piece: &Piece,
) -> Result<NumberedBody, AllocError>
    requires { All IsCodable events.now }
    ensures { IfOk result (λ section. section ≡ schedule_section (bearer_of of) events.now last_table piece.now) }
{
    let head = eit_head(of, piece.segment_last, last_table);
    Ok(NumberedBody {
        number: piece.number,
        body: write_eit(alloc, &head, UNDEFINED, piece.events_of(events))?,
    })
}

// These sections.
fn schedule_sections(
    alloc: Global,
    of: Stream,
    events: &[Event],
    last_table: u8,
    pieces: &[Piece],
) -> Result<NumberedBodies, AllocError>
    requires { All IsCodable events.now }
    ensures { IfOk result (λ sections. sections ≡ map (schedule_section (bearer_of of) events.now last_table) pieces.now) }
{
    let mut sections = NumberedBodies::new(alloc);
    for piece in pieces {
        sections.push(schedule_section(alloc, of, events, last_table, piece)?)?;
    }
    Ok(sections)
}

// A table of the schedule.
fn schedule_table(
    alloc: Global,
    of: Stream,
    day: Moment,
    service: &ServiceGuide,
    at: &[EventAt],
    last_table: u8,
    table: u8,
) -> Result<SubTable, AllocError>
    requires codable { All IsCodable service.now.events }
    requires places { at.now ≡ map at_of service.now.events }
    requires placed { CanBePlaced at.now }
    requires midnight { day.0 % 86400 ≡ 0 }
    requires last { last_table ≡ last_table_of day.0 service.now.events }
    requires most { (80 ≤ last_table) × (last_table ≤ 95) }
    requires table { (80 ≤ table) × (table ≤ 95) }
    ensures { IfOk result (λ made. made ≡ schedule_of (bearer_of of) day.0 service.now table) }
{
    let pieces = sections_in_table(alloc, at, day, table)?;
    let events = service.events.as_slice();
    Ok(SubTable {
        key: eit_key(of, of.sent(table), service.service),
        tier: tier_of(of.sent(table)),
        sections: schedule_sections(alloc, of, events, of.sent(last_table), pieces.as_slice())?,
    })
}

/// Appends the tables of the schedule of a service from one table_id up to and without another.
pub(crate) fn put_schedule(
    alloc: Global,
    of: Stream,
    day: Moment,
    service: &ServiceGuide,
    at: &[EventAt],
    last_table: u8,
    from: u8,
    to: u8,
    list: &mut SubTables,
) -> Result<(), AllocError>
    requires codable { All IsCodable service.now.events }
    requires places { at.now ≡ map at_of service.now.events }
    requires placed { CanBePlaced at.now }
    requires midnight { day.0 % 86400 ≡ 0 }
    requires last { last_table ≡ last_table_of day.0 service.now.events }
    requires most { (80 ≤ last_table) × (last_table ≤ 95) }
    requires tables { (80 ≤ from) × (to ≤ 96) }
    ensures { OnOk result (list.new ≡ list.old ++ schedules_of (bearer_of of) day.0 service.now from to) }
{
    for table in from..to {
        let made = schedule_table(alloc, of, day, service, at, last_table, table)?;
        list.push(made)?;
    }
    Ok(())
}
