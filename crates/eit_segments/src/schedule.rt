// The sections of a schedule.
ghost use Rattle.std.specs.Prelude.{◌≡◌, ◌+◌, ◌*◌, ◌%◌, ◌≤◌, ◌<◌, ◌^◌, ◌++◌, length, IfOk, OnOk};
ghost use Rattle.eit_segments.specs.Schedule.{CanBePlaced, last_used, last_number, table_sections, schedule_of, last_table, sections_in_table};

use crate::blocks::{block_begin, block_end, last_used};
use crate::event::EventAt;
use crate::piece::Pieces;
use crate::runs::{Segment, count_runs, put_segment};
use si_time::{Moment, block_of};
use std::alloc::{AllocError, Global};

/// The table_id of the first table of a schedule of this multiplex (EN 300 468, 5.2.4).
const SCHEDULE: u8 = 0x50;

/// The segments of a table, and the blocks of 64 days.
const SEGMENTS: u64 = 32;

const BLOCKS: u64 = 512;

// The number of the last section of a table, by its first block and its last segment with events.
fn last_number(events: &[EventAt], first: u64, used: u64) -> u8
    requires events { CanBePlaced events.now }
    requires blocks { first + 32 < 2 ^ 64 }
    requires used { used ≡ last_used first 32 events.now }
    ensures { result ≡ last_number first events.now }
{
    let from = block_begin(events, first + used);
    let to = block_end(events, from, first + used);
    8 * used as u8 + (count_runs(&events[from..to]) - 1) as u8
}

// Appends the sections of a table, by its first block.
fn put_table(
    pieces: &mut Pieces,
    events: &[EventAt],
    table: u8,
    first: u64,
) -> Result<(), AllocError>
    requires events { CanBePlaced events.now }
    requires blocks { first + 32 < 2 ^ 64 }
    ensures { OnOk result (pieces.new ≡ pieces.old ++ table_sections table first events.now) }
{
    let used = last_used(events, first, SEGMENTS);
    let last = last_number(events, first, used);
    let mut from = block_begin(events, first);
    for n in 0..used + 1 {
        let to = block_end(events, from, first + n);
        let segment_events = &events[from..to];
        let number = 8 * n as u8;
        let segment_last = number + (count_runs(segment_events) - 1) as u8;
        let segment = Segment {
            table,
            last,
            segment_last,
            number,
        };
        put_segment(pieces, segment_events, from, segment)?;
        from = to;
    }
    Ok(())
}

/// The sections of the schedule of a service, of the 64 days from the midnight `day` on, in the order in which they are
/// sent (EN 300 468, 5.2.4).
///
/// An event stands in the segment of the three-hour block in which it starts, and in no other. Each section takes the next
/// events of its segment as long as their entries fit 4,078 bytes. A segment without events that lies before the last one
/// with events of its table has one empty section; so has a table without events. The tables go from 0x50 to that of the
/// last event.
///
/// The events are in ascending order of start without overlap, each has an entry of at most 4,078 bytes, and those of a
/// block fit eight sections. It fails only for want of memory.
pub fn segments(alloc: Global, events: &[EventAt], day: Moment) -> Result<Pieces, AllocError>
    requires events { CanBePlaced events.now }
    requires midnight { day.0 % 86400 ≡ 0 }
    ensures { IfOk result (λ pieces. pieces ≡ schedule_of day.0 events.now) }
{
    let first = block_of(day);
    let tables = last_used(events, first, BLOCKS) / SEGMENTS + 1;
    let mut pieces = Pieces::new(alloc);
    for t in 0..tables {
        put_table(
            &mut pieces,
            events,
            SCHEDULE + t as u8,
            first + SEGMENTS * t,
        )?;
    }
    Ok(pieces)
}

/// last_table_id of that schedule: the table of the last event of the 64 days from the midnight `day` on, or 0x50 where
/// they have none. It takes no memory.
pub fn last_table(events: &[EventAt], day: Moment) -> u8
    requires events { CanBePlaced events.now }
    requires midnight { day.0 % 86400 ≡ 0 }
    ensures table { result ≡ last_table day.0 events.now }
    ensures bound { (80 ≤ result) × (result ≤ 95) }
{
    SCHEDULE + (last_used(events, block_of(day), BLOCKS) / SEGMENTS) as u8
}

/// The sections of one table of that schedule, as `segments` has them. It fails only for want of memory.
pub fn sections_in_table(
    alloc: Global,
    events: &[EventAt],
    day: Moment,
    table: u8,
) -> Result<Pieces, AllocError>
    requires events { CanBePlaced events.now }
    requires midnight { day.0 % 86400 ≡ 0 }
    requires table { (80 ≤ table) × (table ≤ 95) }
    ensures { IfOk result (λ pieces. pieces ≡ sections_in_table day.0 table events.now) }
{
    let first = block_of(day) + SEGMENTS * u64::from(table - SCHEDULE);
    let mut pieces = Pieces::new(alloc);
    put_table(&mut pieces, events, table, first)?;
    Ok(pieces)
}
