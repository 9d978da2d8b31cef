// The events that are present and following.
ghost use Rattle.std.specs.Prelude.{◌≡◌, ◌≤◌, nat_le, nat_lt, length};
ghost use Rattle.eit_segments.specs.Placement.{AreInOrder, end_at, next_place, present_at, following_at};

use crate::event::EventAt;
use si_time::Moment;

// Has an event started by this moment?
fn has_started(event: &EventAt, at: Moment) -> bool
    ensures { result ≡ nat_le event.now.start.0 at.0 }
{
    event.start.0 <= at.0
}

// Is an event on that has started by this moment?
fn is_on(event: &EventAt, at: Moment) -> bool
    requires { event.now.start.0 ≤ at.0 }
    ensures { result ≡ nat_lt at.0 (end_at event.now) }
{
    at.0 - event.start.0 < u64::from(event.seconds)
}

// The place of the first event that starts after a moment, or the length.
fn first_after(events: &[EventAt], at: Moment) -> usize
    requires { AreInOrder events.now }
    ensures place { result ≡ next_place at.0 events.now }
    ensures bound { result ≤ length events.now }
{
    events.partition_point(|event| has_started(event, at))
}

// The place of the event before this one, where it is still on.
fn present_before(events: &[EventAt], next: usize, at: Moment) -> Option<usize>
    requires order { AreInOrder events.now }
    requires next { next ≡ next_place at.0 events.now }
    requires bound { next ≤ length events.now }
    ensures { result ≡ present_at at.0 events.now }
{
    if next == 0 {
        return None;
    }
    if is_on(&events[next - 1], at) {
        Some(next - 1)
    } else {
        None
    }
}

/// The places of the present event, which starts at this moment or before and ends after it, and of the following one,
/// the first that starts after it (EN 300 468, 5.2.4). The events are in ascending order of start without overlap. It
/// takes no memory.
pub fn present_following(events: &[EventAt], at: Moment) -> (Option<usize>, Option<usize>)
    requires order { AreInOrder events.now }
    ensures present { result.0 ≡ present_at at.0 events.now }
    ensures following { result.1 ≡ following_at at.0 events.now }
{
    let next = first_after(events, at);
    let present = present_before(events, next, at);
    if next < events.len() {
        (present, Some(next))
    } else {
        (present, None)
    }
}
