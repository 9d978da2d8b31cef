// The events of a service, with their index.
ghost use Rattle.std.specs.Prelude.{◌≡◌, ℕ, ◌+◌, ◌≤◌, not, ◌==◌, [], Some, None, length, filter, vec_len, vec_capacity, IfOk, OnOk, OnErr, if◌then◌else◌};
ghost use Rattle.feed_book.specs.declared.index.IndexedEvent.{IndexedEvent as Shape};
ghost use Rattle.guide_limits.specs.Events.{midnight as midnight_of};
ghost use Rattle.guide_limits.specs.Limits.{AreNamesWithin, IsServiceWithin};
ghost use Rattle.guide_limits.specs.Readings.{event_of};
ghost use Rattle.feed_book.specs.Accepted.{is_done};
ghost use Rattle.feed_book.specs.Replies.{item_fault, put_reply, name_reply, name_fault as fault_of_names, day_fault, day_reply, off_day, put, without};
ghost use Rattle.feed_book.specs.Changes.{puts};
ghost use Rattle.feed_book.specs.Places.{all_put};

use crate::index::{IndexedEvent, place_of_id, put_at};
use crate::new_event::{NewEvent, read_item};
use crate::reading::{midnight, name_fault};
use guide_model::{Event, Events, ServiceGuide, Txt};
use journal_model::{DayFault, Item, Reply};
use page_share::{Leaf, Page};
use si_base::Copies;
use std::alloc::{AllocError, Global};
use std::marker::Model;

fn reply_of(fault: DayFault) -> Reply
    ensures { result ≡ put_reply (Some fault) }
{
    match fault {
        DayFault::Range(field) => Reply::Range(field),
        DayFault::Overlap(id) => Reply::Overlap(id),
    }
}

fn is_off(start: u64, day: u64) -> bool
    ensures { result ≡ not (midnight_of start == day) }
{
    midnight(start) != day
}

// The slots of other days, as a list of its own.
fn off_day_slots(slots: &Vec<IndexedEvent>, day: u64) -> Result<Vec<IndexedEvent>, AllocError>
    ensures { IfOk result (λ kept. kept.items ≡ filter (λ (s : Shape). not (midnight_of s.start == day)) slots.now.items) }
{
    let alloc = *slots.allocator();
    slots
        .iter()
        .copied()
        .filter(|s| is_off(s.start, day))
        .collect(alloc)
}

// Keeps the events of other days.
fn keep_off_day(events: &mut Vec<Event>, day: u64)
    ensures items { events.new.items ≡ off_day day events.old.items }
    ensures len { vec_len events.new ≤ vec_len events.old }
    ensures capacity { vec_capacity events.new ≡ vec_capacity events.old }
{
    events.retain(|e| is_off(e.start.0, day));
}

// Puts events for which there is room.
fn put_all(events: &mut Vec<Event>, mut fresh: Vec<NewEvent>)
    requires room { vec_len events.old + vec_len fresh ≤ vec_capacity events.old }
    ensures { events.new.items ≡ all_put fresh.items events.old.items }
{
    fresh.reverse();
    while let Some(next) = fresh.pop() {
        put_at(events, next.place, next.event);
    }
}

/// The page of a service's names and events, and the index of the events. Contracts see the page's guide.
#[derive(Drop)]
pub(crate) struct Timeline {
    page: Page,
    slots: Vec<IndexedEvent>,
}

impl Model for Timeline {
    ghost use Rattle.guide_model.specs.declared.guide.ServiceGuide.{ServiceGuide};
    ghost use Rattle.feed_book.specs.Index.{IsIndexed};

    ghost Value = { ServiceGuide };

    ghost view = { λ t. t.page.guide };

    ghost invariant = { λ t. IsIndexed t.page.guide t.slots.items };
}

impl Timeline {
    /// The timeline of a service with its names and no events.
    pub(crate) fn open(
        alloc: Global,
        service: u16,
        provider: &Txt,
        name: &Txt,
    ) -> Result<Timeline, AllocError>
        requires { AreNamesWithin provider.now name.now }
        ensures { IfOk result (λ timeline. timeline ≡ record { service = service; provider = provider.now; name = name.now; events = [] }) }
    {
        let guide = ServiceGuide {
            service,
            provider: provider.copy()?,
            name: name.copy()?,
            events: Events::new(alloc),
        };
        Ok(Timeline {
            page: Page::of(alloc, guide),
            slots: Vec::new(alloc),
        })
    }

    /// The names and events. It takes no memory.
    pub(crate) fn view(&self) -> &ServiceGuide
        ensures guide { result.now ≡ self.now }
        ensures within { IsServiceWithin self.now }
    {
        self.page.view()
    }

    /// A leaf of the names and events.
    pub(crate) fn share(&mut self) -> Result<Leaf, AllocError>
        ensures kept { self.new ≡ self.old }
        ensures leaf { IfOk result (λ leaf. leaf ≡ self.old) }
        ensures within { IsServiceWithin self.old }
    {
        self.page.share()
    }

    /// Puts an item, or says by which rule not.
    pub(crate) fn put(&mut self, item: &Item) -> Result<Reply, AllocError>
        ensures reply { IfOk result (λ reply. reply ≡ put_reply (item_fault None self.old.events item.now)) }
        ensures guide { IfOk result (λ reply. self.new ≡ (if is_done reply then record self.old { events = put (event_of item.now) self.old.events } else self.old)) }
        ensures memory { OnErr result (self.new ≡ self.old) }
    {
        let fresh = match read_item(&self.slots, None, item)? {
            Ok(fresh) => fresh,
            Err(fault) => return Ok(reply_of(fault)),
        };
        self.slots.reserve(1)?;
        self.page.own(1)?;
        let events = &mut self.page.change().events;
        events.items.reserve(1)?;
        put_at(&mut events.items, fresh.place, fresh.event);
        put_at(&mut self.slots, fresh.place, fresh.slot);
        Ok(Reply::Done)
    }

    /// Takes the event of an id out. The page stays shared where there is none.
    pub(crate) fn withdraw(&mut self, id: u16) -> Result<(), AllocError>
        ensures guide { OnOk result (self.new ≡ record self.old { events = without id self.old.events }) }
        ensures memory { OnErr result (self.new ≡ self.old) }
    {
        let at = place_of_id(&self.slots, id);
        if at == self.slots.len() {
            return Ok(());
        }
        self.page.own(0)?;
        let events = &mut self.page.change().events;
        let _gone = events.items.remove(at);
        self.slots.remove(at);
        Ok(())
    }

    /// Takes all events out.
    pub(crate) fn clear(&mut self) -> Result<(), AllocError>
        ensures guide { OnOk result (self.new ≡ record self.old { events = [] }) }
        ensures memory { OnErr result (self.new ≡ self.old) }
    {
        self.page.own_without_events()?;
        self.slots.clear();
        Ok(())
    }

    /// Changes the names, or says which is not taken.
    pub(crate) fn rename(&mut self, provider: &Txt, name: &Txt) -> Result<Reply, AllocError>
        ensures reply { IfOk result (λ reply. reply ≡ name_reply (fault_of_names provider.now name.now)) }
        ensures guide { IfOk result (λ reply. self.new ≡ (if is_done reply then record self.old { provider = provider.now; name = name.now } else self.old)) }
        ensures memory { OnErr result (self.new ≡ self.old) }
    {
        if let Some(field) = name_fault(provider, name) {
            return Ok(Reply::Range(field));
        }
        let provider = provider.copy()?;
        let name = name.copy()?;
        self.page.own(0)?;
        let guide = self.page.change();
        guide.provider = provider;
        guide.name = name;
        Ok(Reply::Done)
    }

    /// Puts the items of a day in place of the events that start on it, or says which item is not taken and why.
    pub(crate) fn put_day(&mut self, day: u64, items: &[Item]) -> Result<Reply, AllocError>
        requires { length items.now ≤ 2000 }
        ensures reply { IfOk result (λ reply. reply ≡ day_reply (day_fault day 0 (off_day day self.old.events) items.now)) }
        ensures guide { IfOk result (λ reply. self.new ≡ (if is_done reply then record self.old { events = puts items.now (off_day day self.old.events) } else self.old)) }
        ensures memory { OnErr result (self.new ≡ self.old) }
    {
        let mut index = off_day_slots(&self.slots, day)?;
        let mut fresh = Vec::with_capacity(*self.slots.allocator(), items.len())?;
        for (i, item) in items.iter().enumerate() {
            let next = match read_item(&index, Some(day), item)? {
                Ok(next) => next,
                Err(fault) => return Ok(Reply::Member(i as u16, fault)),
            };
            index.reserve(1)?;
            put_at(&mut index, next.place, next.slot);
            fresh.push(next)?;
        }
        self.page.own(fresh.len())?;
        let events = &mut self.page.change().events;
        events.items.reserve(fresh.len())?;
        keep_off_day(&mut events.items, day);
        put_all(&mut events.items, fresh);
        self.slots = index;
        Ok(Reply::Done)
    }
}
