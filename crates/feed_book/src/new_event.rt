// An item that is read over the events of an index.
ghost use Rattle.std.specs.Prelude.{◌≡◌, List, map, IfOk};
ghost use Rattle.std.specs.Result.{result_err};
ghost use Rattle.guide_model.specs.declared.event.Event.{Event as AnEvent};
ghost use Rattle.feed_book.specs.Replies.{item_fault};
ghost use Rattle.feed_book.specs.Index.{slot_of as slot_of_event, AreSearchable};
ghost use Rattle.feed_book.specs.Places.{IsNew};

use crate::index::{IndexedEvent, Place, place_fault, place_of, slot_of};
use crate::reading::{event_of, field_fault};
use guide_model::Event;
use journal_model::{DayFault, Item};
use std::alloc::AllocError;

/// An event that is to be put, with its slot and its place.
#[derive(Drop)]
pub(crate) struct NewEvent {
    pub(crate) event: Event,
    pub(crate) slot: IndexedEvent,
    pub(crate) place: Place,
}

/// The event of an item, or what the item breaks: by itself, else by its place. With a day, its start has to be on that day.
pub(crate) fn read_item(
    slots: &[IndexedEvent],
    day: Option<u64>,
    item: &Item,
) -> Result<Result<NewEvent, DayFault>, AllocError>
    requires { AreSearchable slots.now }
    ensures fault { (events : List AnEvent) → slots.now ≡ map slot_of_event events → IfOk result (λ read. result_err read ≡ item_fault day events item.now) }
    ensures event { IfOk result (λ read. IfOk read (λ new. IsNew slots.now item.now new)) }
{
    if let Some(field) = field_fault(item, day) {
        return Ok(Err(DayFault::Range(field)));
    }
    let event = event_of(item)?;
    let slot = slot_of(&event);
    if let Some(fault) = place_fault(slots, &slot) {
        return Ok(Err(fault));
    }
    let place = place_of(slots, &slot);
    Ok(Ok(NewEvent { event, slot, place }))
}
