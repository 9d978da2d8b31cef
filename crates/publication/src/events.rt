// Events as their place depends on them, and bodies of event information.
ghost use Rattle.std.specs.Prelude.{◌≡◌, ◌≤◌, ◌<◌, map, IfOk};
ghost use Rattle.std.specs.List.{All};
ghost use Rattle.descriptors.specs.EventDescriptors.{IsWithinLimits};
ghost use Rattle.eit_segments.specs.declared.event.EventAt.{EventAt as EventShape};
ghost use Rattle.eit_segments.specs.Laws.{at_of};
ghost use Rattle.publication.specs.Eit.{own, bearer_key, eit_head};
ghost use Rattle.publication.specs.Streams.{bearer_of};

use descriptors::event_len;
use eit_segments::EventAt;
use guide_model::Event;
use mux_model::Mux;
use section_codec::Key;
use std::alloc::{AllocError, Global};
use table_bodies::EitHead;

/// The PID of the event information tables (EN 300 468, 5.1.3).
const EIT_PID: u16 = 0x0012;

/// The stream that carries a service: whether it is that of this multiplex, its transport_stream_id and its original_network_id.
#[derive(Clone, Copy)]
pub struct Stream {
    pub is_own: bool,
    pub stream: u16,
    pub original: u16,
}

impl Stream {
    /// The stream of this multiplex.
    pub fn of_mux(mux: &Mux) -> Stream
        ensures { bearer_of result ≡ own mux.now }
    {
        Stream {
            is_own: true,
            stream: mux.stream,
            original: mux.original,
        }
    }

    /// The table_id of present and following (EN 300 468, 5.2.4).
    pub(crate) fn present(self) -> u8
        ensures { result ≡ (bearer_of self).present }
    {
        if self.is_own { 0x4E } else { 0x4F }
    }

    /// The table_id under which a table of a schedule is sent (EN 300 468, 5.2.4).
    pub(crate) fn sent(self, table: u8) -> u8
        requires { (80 ≤ table) × (table ≤ 95) }
        ensures { result ≡ (bearer_of self).sent table }
    {
        if self.is_own { table } else { table + 0x10 }
    }
}

/// What names a table of event information of a service.
pub(crate) fn eit_key(of: Stream, table: u8, service: u16) -> Key
    ensures { result ≡ bearer_key (bearer_of of) table service }
{
    Key {
        pid: EIT_PID,
        table,
        ext: service,
        stream: of.stream,
        network: of.original,
    }
}

/// What the body of a section begins with.
pub(crate) fn eit_head(of: Stream, segment_last: u8, last_table: u8) -> EitHead
    ensures { result ≡ eit_head (bearer_of of) segment_last last_table }
{
    EitHead {
        stream: of.stream,
        original: of.original,
        segment_last,
        last_table,
    }
}

// An event as its place depends on it.
fn event_at(event: &Event) -> EventAt
    requires { IsWithinLimits event.now }
    ensures event { result ≡ at_of event.now }
    ensures small { result.size ≤ 1578 }
{
    EventAt {
        start: event.start,
        seconds: event.seconds,
        size: event_len(event),
    }
}

/// These events as their places depend on them.
pub(crate) fn events_at(alloc: Global, events: &[Event]) -> Result<Vec<EventAt>, AllocError>
    requires { All IsWithinLimits events.now }
    ensures events { IfOk result (λ at. at.items ≡ map at_of events.now) }
    ensures small { IfOk result (λ at. All (λ (e : EventShape). e.size ≤ 1578) at.items) }
{
    let mut at = Vec::with_capacity(alloc, events.len())?;
    for event in events {
        at.push(event_at(event))?;
    }
    Ok(at)
}
