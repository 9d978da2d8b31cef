// The guides of rows, which all have the same services and events and differ in their moments, and what a board answers.
ghost use Rattle.std.specs.Prelude.{◌≡◌, ◌<◌, [], ◌∷◌, map, IfOk};
ghost use Rattle.eit_segments.specs.Laws.{at_of};
ghost use Rattle.eit_segments.specs.Placement.{AreInOrder};
ghost use Rattle.guide_board.specs.Posts.{IsInOrder, services_of};
ghost use Rattle.board_rows.specs.Stages.{IsAtTime};

use guide_board::{NoService, NowNext, Slot};
use guide_model::{Event, Events, Genres, RawDescs, ServiceGuide, Txt};
use page_share::{Page, PageGuide};
use row_lines::{Row, moment_text, say, text_of};
use si_time::{Moment, read_duration};
use std::alloc::{AllocError, Global};
use std::fmt::Write;

/// 13 October 1993, at midnight.
const DAY: u64 = 4_257_187_200;

// The empty text.
fn no_text(alloc: Global) -> Result<Txt, AllocError> {
    Txt::of_kept(alloc, "")
}

// An event without texts, at this time of the day.
fn event(alloc: Global, id: u16, time: u64, seconds: u32) -> Result<Event, AllocError>
    requires { time < 86400 }
    ensures { IfOk result (IsAtTime time seconds) }
{
    Ok(Event {
        id,
        start: Moment(DAY + time),
        seconds,
        language: *b"eng",
        name: no_text(alloc)?,
        short: no_text(alloc)?,
        extended: no_text(alloc)?,
        rating: None,
        genres: Genres::new(alloc),
        descriptors: RawDescs::new(alloc),
    })
}

// Event 1 at 12:30:00 for half an hour, event 2 just behind it for an hour, event 3 at 14:30:00 for half an hour.
fn events(alloc: Global) -> Result<Events, AllocError>
    ensures { IfOk result (λ events. AreInOrder (map at_of events)) }
{
    let first = event(alloc, 1, 45_000, 1_800)?;
    let second = event(alloc, 2, 46_800, 3_600)?;
    let third = event(alloc, 3, 52_200, 1_800)?;
    let mut events = Events::new(alloc);
    events.push(first)?;
    events.push(second)?;
    events.push(third)?;
    Ok(events)
}

// A service with events.
fn service(alloc: Global, service: u16, events: Events) -> Result<ServiceGuide, AllocError>
    ensures service { IfOk result (λ guide. guide.service ≡ service) }
    ensures events { IfOk result (λ guide. guide.events ≡ events) }
{
    Ok(ServiceGuide {
        service,
        provider: no_text(alloc)?,
        name: no_text(alloc)?,
        events,
    })
}

/// The guide of these events at a moment: service 101 has them, service 103 none.
pub fn guide(alloc: Global, moment: Moment) -> Result<PageGuide, AllocError>
    ensures order { IfOk result (λ guide. IsInOrder guide.guide) }
    ensures services { IfOk result (λ guide. services_of guide.guide ≡ 101 ∷ 103 ∷ []) }
{
    let one = service(alloc, 101, events(alloc)?)?;
    let three = service(alloc, 103, Events::new(alloc))?;
    let mut one = Page::of(alloc, one);
    let mut three = Page::of(alloc, three);
    let mut guide = PageGuide::room(alloc, moment, 2)?;
    guide.push(one.share()?);
    guide.push(three.share()?);
    Ok(guide)
}

/// The moment of a time of the day.
pub fn moment_of(row: &mut Row, time: &str) -> Moment {
    let seconds = row.known(read_duration(time.as_bytes()), 0);
    Moment(DAY + u64::from(seconds))
}

// Appends an event: its id, the time of the day at which it starts, and its seconds.
fn put_slot(row: &mut Row, slot: Option<Slot>) {
    match slot {
        Some(slot) => {
            let start = moment_text(slot.start);
            say!(row; " {} {} {}", slot.event, text_of(&start[11..19]), slot.seconds);
        }
        None => row.put(" none"),
    }
}

/// Appends what a board answers: the number of the post, the present event and the following one.
pub fn put_answer(row: &mut Row, answer: Result<NowNext, NoService>) {
    row.begin_part();
    match answer {
        Ok(answer) => {
            say!(row; " post {} now", answer.number);
            put_slot(row, answer.now);
            row.put(" next");
            put_slot(row, answer.next);
        }
        Err(NoService(service)) => say!(row; " no service {service}"),
    }
}
