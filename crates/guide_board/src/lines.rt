// The present and the following event of each service of a guide.
ghost use Rattle.std.specs.Prelude.{◌≡◌, IfOk, map, find};
ghost use Rattle.std.specs.Option.{option_copied};
ghost use Rattle.eit_segments.specs.Laws.{at_of};
ghost use Rattle.eit_segments.specs.Placement.{AreInOrder};
ghost use Rattle.guide_board.specs.Lines.{time_of, line_of, lines_of, is_line};
ghost use Rattle.guide_board.specs.Posts.{IsInOrder, slot_of, slot_at};

use eit_segments::{EventAt, present_following};
use guide_model::{Event, ServiceGuide};
use page_share::PageGuide;
use si_time::Moment;
use std::alloc::{AllocError, Global};

/// An event as a viewer is told of it: its id, its start and its duration in seconds.
#[derive(Clone, Copy, PartialEq, Eq)]
pub struct Slot {
    pub event: u16,
    pub start: Moment,
    pub seconds: u32,
}

/// The present and the following event of a service.
#[derive(Clone, Copy)]
pub(crate) struct Line {
    pub service: u16,
    pub present: Option<Slot>,
    pub following: Option<Slot>,
}

fn slot_of(event: &Event) -> Slot
    ensures { result ≡ slot_of event.now }
{
    Slot {
        event: event.id,
        start: event.start,
        seconds: event.seconds,
    }
}

fn slot_at(events: &[Event], place: Option<usize>) -> Option<Slot>
    ensures { result ≡ slot_at events.now place }
{
    match events.get(place?) {
        Some(event) => Some(slot_of(event)),
        None => None,
    }
}

fn time_of(event: &Event) -> EventAt
    ensures { result ≡ time_of event.now }
{
    EventAt {
        start: event.start,
        seconds: event.seconds,
        size: 0,
    }
}

// When these events are.
fn times_of(alloc: Global, events: &[Event]) -> Result<Vec<EventAt>, AllocError>
    ensures { IfOk result (λ times. times.items ≡ map time_of events.now) }
{
    let mut times = Vec::with_capacity(alloc, events.len())?;
    for event in events {
        times.push(time_of(event))?;
    }
    Ok(times)
}

// The line of a service at a moment.
fn line_of(alloc: Global, moment: Moment, service: &ServiceGuide) -> Result<Line, AllocError>
    requires { AreInOrder (map at_of service.now.events) }
    ensures { IfOk result (λ line. line ≡ line_of moment.0 service.now) }
{
    let events = service.events.as_slice();
    let times = times_of(alloc, events)?;
    let (present, following) = present_following(times.as_slice(), moment);
    Ok(Line {
        service: service.service,
        present: slot_at(events, present),
        following: slot_at(events, following),
    })
}

/// The lines of a guide, one for each service.
pub(crate) fn lines(alloc: Global, guide: &PageGuide) -> Result<Vec<Line>, AllocError>
    requires { IsInOrder guide.now.guide }
    ensures { IfOk result (λ lines. lines.items ≡ lines_of guide.now.guide) }
{
    let mut lines = Vec::with_capacity(alloc, guide.len())?;
    for i in 0..guide.len() {
        lines.push(line_of(alloc, guide.moment(), guide.at(i))?)?;
    }
    Ok(lines)
}

/// The line of a service.
pub(crate) fn line_at(lines: &[Line], service: u16) -> Option<&Line>
    ensures { option_copied result ≡ find (is_line service) lines.now }
{
    lines.iter().find(
        |line: &&Line| -> bool
            ensures { result ≡ is_line service line.now.now }
        { line.service == service },
    )
}

/// The answer to a viewer: the number of a post, with the present and the following event of a service.
#[derive(Clone, Copy, PartialEq, Eq)]
pub struct NowNext {
    pub number: u64,
    pub now: Option<Slot>,
    pub next: Option<Slot>,
}

/// The guide has no such service.
#[derive(Clone, Copy, PartialEq, Eq)]
pub struct NoService(pub u16);
