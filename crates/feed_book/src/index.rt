// The index of a service's events: of each event what the rules look at.
ghost use Rattle.std.specs.Prelude.{◌≡◌, ℕ, ◌+◌, ◌*◌, ◌<◌, ◌≤◌, ◌^◌, Bool, not, ◌==◌, nat_le, nat_lt, length, find, count_by, sum_by, position, vec_len, vec_capacity};
ghost use Rattle.std.specs.List.{All, position_or_len};
ghost use Rattle.std.specs.List.Sorted.{IsNonDecreasingBy};
ghost use Rattle.std.specs.Prelude.{◌/◌, slice_index_or};
ghost use Rattle.guide_limits.specs.Events.{block_of};
ghost use Rattle.feed_book.specs.declared.index.IndexedEvent.{IndexedEvent as Shape};
ghost use Rattle.guide_limits.specs.Limits.{IsEventWithin};
ghost use Rattle.feed_book.specs.Index.{slot_of as slot_of_event, is_in_the_way, other_ids, share_of, slot_fault, AreSearchable};
ghost use Rattle.feed_book.specs.Places.{IsPlace, put_at as item_at};

use descriptors::event_len;
use guide_model::Event;
use journal_model::{DayFault, Field};

/// Of an event its id, its start and length in seconds, and the size of its entry.
#[derive(Clone, Copy, PartialEq, Eq)]
pub(crate) struct IndexedEvent {
    pub(crate) id: u16,
    pub(crate) start: u64,
    pub(crate) seconds: u32,
    pub(crate) size: u32,
}

// Slots that start early enough for their ends to fit.
fn blocks(slot: &IndexedEvent, other: &IndexedEvent) -> bool
    requires slot { slot.now.start < 2 ^ 63 }
    requires other { other.now.start < 2 ^ 63 }
    ensures { result ≡ is_in_the_way slot.now other.now }
{
    other.id != slot.id
        && other.start < slot.start + u64::from(slot.seconds)
        && slot.start < other.start + u64::from(other.seconds)
}

fn ends_by(slot: &IndexedEvent, at: u64) -> bool
    ensures { result ≡ nat_le (slot.now.start + slot.now.seconds) at }
{
    slot.start <= at && u64::from(slot.seconds) <= at - slot.start
}

// The place of the first slot that ends after a moment, or the length.
fn first_after(slots: &[IndexedEvent], at: u64) -> usize
    requires { IsNonDecreasingBy (λ (s : Shape). s.start + s.seconds) slots.now }
    ensures bound { result ≤ length slots.now }
    ensures below { (k : ℕ) (d : Shape) → k < result → (slice_index_or slots.now k d).start + (slice_index_or slots.now k d).seconds ≤ at }
{
    slots.partition_point(|s| ends_by(s, at))
}

// The place of the first slot in this block or a later one, or the length.
fn first_in_block(slots: &[IndexedEvent], block: u64) -> usize
    requires { IsNonDecreasingBy (λ (s : Shape). s.start) slots.now }
    ensures bound { result ≤ length slots.now }
    ensures below { (k : ℕ) (d : Shape) → k < result → block_of (slice_index_or slots.now k d).start < block }
{
    slots.partition_point(|s| s.start / 10_800 < block)
}

// The first slot in the way: the earlier ones end too early, and the later ones start too late.
fn first_in_the_way(slots: &[IndexedEvent], slot: &IndexedEvent) -> Option<IndexedEvent>
    requires slot { slot.now.start < 2 ^ 63 }
    requires slots { AreSearchable slots.now }
    ensures { result ≡ find (is_in_the_way slot.now) slots.now }
{
    let end = slot.start + u64::from(slot.seconds);
    for i in first_after(slots, slot.start)..slots.len() {
        let other = &slots[i];
        if end <= other.start {
            break;
        }
        if blocks(slot, other) {
            return Some(*other);
        }
    }
    None
}

fn is_other(slot: &IndexedEvent, id: u16) -> bool
    ensures { result ≡ other_ids id slot.now }
{
    slot.id != id
}

// How many slots have another id.
fn count_others(slots: &[IndexedEvent], id: u16) -> usize
    ensures count { result ≡ count_by (other_ids id) slots.now }
    ensures bound { result ≤ length slots.now }
{
    slots.iter().filter(|slot| is_other(slot, id)).count()
}

fn share(slot: &IndexedEvent, other: &IndexedEvent) -> u32
    ensures { result ≡ share_of slot.now other.now }
{
    if other.id != slot.id && other.start / 10_800 == slot.start / 10_800 {
        other.size
    } else {
        0
    }
}

// The sizes of the other slots in the slot's block, added up.
fn block_size(slots: &[IndexedEvent], slot: &IndexedEvent) -> u32
    requires { AreSearchable slots.now }
    ensures size { result ≡ sum_by (share_of slot.now) slots.now }
    ensures bound { result ≤ 3156000 }
{
    let block = slot.start / 10_800;
    let mut total = 0;
    for i in first_in_block(slots, block)..slots.len() {
        let other = &slots[i];
        if block < other.start / 10_800 {
            break;
        }
        total += share(slot, other);
    }
    total
}

// Whether more than 2,000 stand with one of this id. They are counted only where so many stand already.
fn are_too_many(slots: &[IndexedEvent], id: u16) -> bool
    requires { AreSearchable slots.now }
    ensures { result ≡ nat_lt 2000 (1 + count_by (other_ids id) slots.now) }
{
    if slots.len() < 2000 {
        return false;
    }
    2000 <= count_others(slots, id)
}

/// What the slot breaks among the others.
pub(crate) fn place_fault(slots: &[IndexedEvent], slot: &IndexedEvent) -> Option<DayFault>
    requires slots { AreSearchable slots.now }
    requires early { slot.now.start < 2 ^ 63 }
    requires small { slot.now.size ≤ 1578 }
    ensures { result ≡ slot_fault slots.now slot.now }
{
    if let Some(other) = first_in_the_way(slots, slot) {
        return Some(DayFault::Overlap(other.id));
    }
    if are_too_many(slots, slot.id) {
        let count = 1 + count_others(slots, slot.id) as u32;
        return Some(DayFault::Range(Field::Count(count)));
    }
    let size = slot.size + block_size(slots, slot);
    if 20_000 < size {
        return Some(DayFault::Range(Field::Segment(size)));
    }
    None
}

/// The place of the first slot with this id, or the length.
pub(crate) fn place_of_id(slots: &[IndexedEvent], id: u16) -> usize
    ensures place { result ≡ position_or_len (λ (slot : Shape). slot.id == id) slots.now }
    ensures bound { result ≤ length slots.now }
{
    for (i, slot) in slots.iter().enumerate() {
        if slot.id == id {
            return i;
        }
    }
    slots.len()
}

// The place of the first slot that starts at this moment or later, or the length.
fn place_of_start(slots: &[IndexedEvent], start: u64) -> usize
    ensures { IsNonDecreasingBy (λ (s : Shape). s.start) slots.now → result ≡ position_or_len (λ (slot : Shape). nat_le start slot.start) slots.now }
{
    slots.partition_point(|s| s.start < start)
}

/// Where an item goes in a list: the one at `gone` is taken out, unless that is the length, and the item stands at `to` of the
/// rest.
#[derive(Clone, Copy)]
pub(crate) struct Place {
    gone: usize,
    to: usize,
}

/// Where an event goes among the events of an index, in place of the one of its id.
pub(crate) fn place_of(slots: &[IndexedEvent], slot: &IndexedEvent) -> Place
    ensures { IsPlace slots.now slot.now result }
{
    let gone = place_of_id(slots, slot.id);
    let to = place_of_start(slots, slot.start);
    Place {
        gone,
        to: if gone < to { to - 1 } else { to },
    }
}

/// Puts an item at a place in a list that has room for it.
pub(crate) fn put_at<T: Drop>(list: &mut Vec<T>, place: Place, item: T)
    requires room { vec_len list.old < vec_capacity list.old }
    ensures items { list.new.items ≡ item_at place list.old.items item }
    ensures len { vec_len list.new ≤ vec_len list.old + 1 }
    ensures capacity { vec_capacity list.old ≤ vec_capacity list.new }
{
    if place.gone < list.len() {
        if place.gone == place.to {
            // The item falls on the old one: nothing moves.
            list[place.to] = item;
            return;
        }
        list.remove(place.gone);
    }
    let to = place.to.min(list.len());
    match list.insert(to, item) {
        Ok(()) => {}
        Err(_) => unreachable!(),
    }
}

/// The slot of an event.
pub(crate) fn slot_of(event: &Event) -> IndexedEvent
    requires { IsEventWithin event.now }
    ensures slot { result ≡ slot_of_event event.now }
    ensures early { result.start < 2 ^ 63 }
    ensures small { result.size ≤ 1578 }
{
    IndexedEvent {
        id: event.id,
        start: event.start.0,
        seconds: event.seconds,
        size: event_len(event),
    }
}
