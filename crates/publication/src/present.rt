// Present and following of a service.
ghost use Rattle.std.specs.Prelude.{◌≡◌, ◌<◌, map, IfOk};
ghost use Rattle.std.specs.List.{All};
ghost use Rattle.table_bodies.specs.Eit.{IsCodable, eit_body};
ghost use Rattle.eit_segments.specs.Placement.{AreInOrder};
ghost use Rattle.eit_segments.specs.Laws.{at_of};
ghost use Rattle.publication.specs.Eit.{eit_head};
ghost use Rattle.publication.specs.Present.{event_at, present_sections, present_of};
ghost use Rattle.publication.specs.Streams.{bearer_of};

use crate::events::{Stream, eit_head, eit_key};
use eit_segments::{EventAt, present_following};
use guide_model::{Event, ServiceGuide};
use section_codec::{NumberedBodies, NumberedBody, SubTable, tier_of};
use si_base::Bytes;
use si_time::Moment;
use std::alloc::{AllocError, Global};
use table_bodies::write_eit;

/// The values of running_status that are used (EN 300 468, 5.2.4).
const NOT_RUNNING: u8 = 1;

const RUNNING: u8 = 4;

// The event at a place, or none.
fn event_at(events: &[Event], place: Option<usize>) -> &[Event]
    ensures { result.now ≡ event_at place events.now }
{
    match place {
        Some(i) if i < events.len() => &events[i..i + 1],
        _ => &events[..0],
    }
}

// The body of a section with this event or none.
fn body_of(alloc: Global, of: Stream, status: u8, event: &[Event]) -> Result<Bytes, AllocError>
    requires status { status < 8 }
    requires events { All IsCodable event.now }
    ensures { IfOk result (λ body. body ≡ eit_body (eit_head (bearer_of of) 1 (bearer_of of).present) status event.now) }
{
    write_eit(alloc, &eit_head(of, 1, of.present()), status, event)
}

// The sections: 0 with the present event, 1 with the following one.
fn present_sections(
    alloc: Global,
    of: Stream,
    moment: Moment,
    events: &[Event],
    at: &[EventAt],
) -> Result<NumberedBodies, AllocError>
    requires codable { All IsCodable events.now }
    requires places { at.now ≡ map at_of events.now }
    requires order { AreInOrder at.now }
    ensures { IfOk result (λ sections. sections ≡ present_sections (bearer_of of) moment.0 events.now) }
{
    let (present, following) = present_following(at, moment);
    let mut sections = NumberedBodies::new(alloc);
    let body = body_of(alloc, of, RUNNING, event_at(events, present))?;
    sections.push(NumberedBody { number: 0, body })?;
    let body = body_of(alloc, of, NOT_RUNNING, event_at(events, following))?;
    sections.push(NumberedBody { number: 1, body })?;
    Ok(sections)
}

/// Present and following of a service at a moment (EN 300 468, 5.2.4).
pub(crate) fn present_table(
    alloc: Global,
    of: Stream,
    moment: Moment,
    service: &ServiceGuide,
    at: &[EventAt],
) -> Result<SubTable, AllocError>
    requires codable { All IsCodable service.now.events }
    requires places { at.now ≡ map at_of service.now.events }
    requires order { AreInOrder at.now }
    ensures { IfOk result (λ table. table ≡ present_of (bearer_of of) moment.0 service.now) }
{
    Ok(SubTable {
        key: eit_key(of, of.present(), service.service),
        tier: tier_of(of.present()),
        sections: present_sections(alloc, of, moment, service.events.as_slice(), at)?,
    })
}
