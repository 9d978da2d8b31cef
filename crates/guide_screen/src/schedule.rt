// The events of a schedule.
ghost use Rattle.std.specs.Prelude.{◌≡◌, ◌++◌, Option, flat_map, IfOk, OnOk};
ghost use Rattle.section_codec.specs.declared.table.Key.{Key};
ghost use Rattle.section_codec.specs.Contents.{Content};
ghost use Rattle.guide_screen.specs.Holding.{KeepsContents};
ghost use Rattle.guide_screen.specs.Screen.{events_at, schedule_of};

use crate::content_values::{last_table, put_events};
use crate::contents::{eit_key, sections_of};
use crate::needs::tables_to;
use guide_model::{ScreenEvent, ScreenEvents};
use section_codec::Key;
use si_base::Items;
use std::alloc::{AllocError, Global};
use sub_collect::Collector;

// The events of the schedule of a service whose first table is `first` and whose last is `most` at most: of the tables up to the one that
// the first names as its last, those that were completed (EN 300 468, 5.2.4).
pub(crate) fn schedule_of(
    alloc: Global,
    contents: &Collector,
    sdt: Key,
    service: u16,
    first: u8,
    most: u8,
) -> Result<ScreenEvents, AllocError>
    ensures { (content : Key → Option Content) → KeepsContents contents.now content
        → IfOk result (λ events. events ≡ schedule_of content sdt service first most) }
{
    let sections = sections_of(contents, eit_key(sdt, first, service));
    let tables = tables_to(alloc, first, last_table(sections, most))?;
    let mut events = Vec::new(alloc);
    put_tables(alloc, contents, sdt, service, &tables, &mut events)?;
    Ok(Items::of(events))
}

// Appends the events of these tables; want of memory may leave a part of them.
fn put_tables(
    alloc: Global,
    contents: &Collector,
    sdt: Key,
    service: u16,
    tables: &[u8],
    events: &mut Vec<ScreenEvent>,
) -> Result<(), AllocError>
    ensures { (content : Key → Option Content) → KeepsContents contents.now content
        → OnOk result (events.new.items ≡ events.old.items ++ flat_map (events_at content sdt service) tables.now) }
{
    for table in tables {
        let sections = sections_of(contents, eit_key(sdt, *table, service));
        put_events(alloc, sections, events)?;
    }
    Ok(())
}
