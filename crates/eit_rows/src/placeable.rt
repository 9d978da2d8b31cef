// Whether events can be placed: they are in order, and those of each block fit eight sections.
ghost use Rattle.std.specs.Prelude.{◌≡◌, ◌≤◌, ℕ, IsTrue, length, sum_by};
ghost use Rattle.std.specs.List.{AllByRecursion};
ghost use Rattle.eit_segments.specs.declared.event.EventAt.{EventAt as EventShape};
ghost use Rattle.eit_segments.specs.Placement.{AreInOrder, end_at};
ghost use Rattle.eit_segments.specs.Schedule.{CanBePlaced};

use eit_segments::EventAt;

// Does an event end before another starts, or just then?
fn ends_before(event: &EventAt, later: &EventAt) -> bool
    ensures { IsTrue result → end_at event.now ≤ later.now.start.0 }
{
    event.start.0 <= later.start.0 && u64::from(event.seconds) <= later.start.0 - event.start.0
}

// Does each event end before the next one starts, or just then?
fn are_in_order(events: &[EventAt]) -> bool
    ensures { IsTrue result → AreInOrder events.now }
{
    for i in 1..events.len() {
        if !ends_before(&events[i - 1], &events[i]) {
            return false;
        }
    }
    true
}

// Are all sizes at most this one?
fn are_at_most(events: &[EventAt], most: u32) -> bool
    ensures { IsTrue result → AllByRecursion (λ (event : EventShape). event.size ≤ most) events.now }
{
    for i in 0..events.len() {
        if most < events[i].size {
            return false;
        }
    }
    true
}

// Do the sizes add up to at most 20,000?
fn are_few_bytes(events: &[EventAt]) -> bool
    ensures { IsTrue result → sum_by (λ (event : EventShape). event.size) events.now ≤ 20000 }
{
    let mut room = 20_000;
    for i in 0..events.len() {
        let size = events[i].size;
        if room < size {
            return false;
        }
        room -= size;
    }
    true
}

/// Whether events can be placed, as far as this program looks: eight at most, or sizes as events have them that add up to
/// no more than a block may have.
pub fn can_be_placed(events: &[EventAt]) -> bool
    ensures { IsTrue result → CanBePlaced events.now }
{
    if !are_in_order(events) {
        return false;
    }
    if !are_at_most(events, 4_078) {
        return false;
    }
    if events.len() <= 8 {
        return true;
    }
    if !are_at_most(events, 1_578) {
        return false;
    }
    are_few_bytes(events)
}
