// What is held of tables.
ghost use Rattle.std.specs.Prelude.{◌≡◌, ◌++◌, IfOk, OnOk, flat_map};
ghost use Rattle.section_codec.specs.declared.table.Key.{Key};
ghost use Rattle.section_codec.specs.Contents.{Content};
ghost use Rattle.sub_collect.specs.PartSlots.{content_of};
ghost use Rattle.guide_parts.specs.Holding.{KeepsParts};
ghost use Rattle.guide_parts.specs.PartScreen.{part_at, table_held, last_told, events_held, schedule_held, pmt_held};

use guide_model::{ScreenEvent, ScreenEvents};
use guide_screen::{eit_key, pmt_key, pmt_told, put_events, tables_to};
use section_codec::{Key, NumberedBody};
use si_base::Items;
use std::alloc::{AllocError, Global};
use sub_collect::{Collector, Part};
use table_bodies::HeardPmt;

// What is held of a key, where there is one.
pub(crate) fn part_at(
    alloc: Global,
    contents: &Collector,
    key: Option<Key>,
) -> Result<Part<'_>, AllocError>
    ensures { (part : Key → Content) → KeepsParts contents.now part
        → IfOk result (λ held. content_of held ≡ part_at part key) }
{
    match key {
        Some(key) => contents.part(alloc, key),
        None => Ok(Part::Whole(&[])),
    }
}

// What is held of a table of events of a service of the own stream.
pub(crate) fn table_held(
    alloc: Global,
    contents: &Collector,
    home: Option<Key>,
    table: u8,
    service: u16,
) -> Result<Part<'_>, AllocError>
    ensures { (part : Key → Content) → KeepsParts contents.now part
        → IfOk result (λ held. content_of held ≡ table_held part home table service) }
{
    match home {
        Some(home) => contents.part(alloc, eit_key(home, table, service)),
        None => Ok(Part::Whole(&[])),
    }
}

// The last_table_id that the first of these sections tells, 0x5F at most; 0x5F where there is none.
fn last_told(sections: &[NumberedBody]) -> u8
    ensures { result ≡ last_told sections.now }
{
    if sections.is_empty() {
        return 0x5F;
    }
    let body = sections[0].body.as_slice();
    if body.len() < 6 {
        return 0;
    }
    if body[5] < 0x5F { body[5] } else { 0x5F }
}

// The events that are held of the schedule of a service of the own stream (EN 300 468, 5.2.4).
pub(crate) fn schedule_held(
    alloc: Global,
    contents: &Collector,
    home: Option<Key>,
    service: u16,
) -> Result<ScreenEvents, AllocError>
    ensures { (part : Key → Content) → KeepsParts contents.now part
        → IfOk result (λ events. events ≡ schedule_held part home service) }
{
    let first = table_held(alloc, contents, home, 0x50, service)?;
    let tables = tables_to(alloc, 0x50, last_told(first.sections()))?;
    let mut events = Vec::new(alloc);
    put_tables(alloc, contents, home, service, &tables, &mut events)?;
    Ok(Items::of(events))
}

// Appends the events of these tables; want of memory may leave a part of them.
fn put_tables(
    alloc: Global,
    contents: &Collector,
    home: Option<Key>,
    service: u16,
    tables: &[u8],
    events: &mut Vec<ScreenEvent>,
) -> Result<(), AllocError>
    ensures { (part : Key → Content) → KeepsParts contents.now part → OnOk result (events.new.items
        ≡ events.old.items ++ flat_map (events_held part home service) tables.now) }
{
    for table in tables {
        put_table(alloc, contents, home, service, *table, events)?;
    }
    Ok(())
}

// Appends the events of a table; want of memory may leave a part of them.
fn put_table(
    alloc: Global,
    contents: &Collector,
    home: Option<Key>,
    service: u16,
    table: u8,
    events: &mut Vec<ScreenEvent>,
) -> Result<(), AllocError>
    ensures { (part : Key → Content) → KeepsParts contents.now part → OnOk result (events.new.items
        ≡ events.old.items ++ events_held part home service table) }
{
    let held = table_held(alloc, contents, home, table, service)?;
    put_events(alloc, held.sections(), events)
}

// What the PMT of a service on this PID says.
pub(crate) fn pmt_held(
    alloc: Global,
    contents: &Collector,
    service: u16,
    pid: Option<u16>,
) -> Result<Option<HeardPmt>, AllocError>
    ensures { (part : Key → Content) → KeepsParts contents.now part
        → IfOk result (λ pmt. pmt ≡ pmt_held part service pid) }
{
    let Some(pid) = pid else {
        return Ok(None);
    };
    let held = contents.part(alloc, pmt_key(pid, service))?;
    pmt_told(alloc, held.sections())
}
