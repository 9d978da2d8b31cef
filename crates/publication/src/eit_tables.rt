// The tables of event information of a service.
ghost use Rattle.std.specs.Prelude.{◌≡◌, ◌∷◌, ◌++◌, [], OnOk};
ghost use Rattle.guide_limits.specs.Events.{midnight};
ghost use Rattle.guide_limits.specs.Limits.{IsServiceWithin};
ghost use Rattle.publication.specs.Present.{present_of, present_table};
ghost use Rattle.publication.specs.Schedule.{near_tables, far_tables, remote_tables};
ghost use Rattle.publication.specs.Streams.{bearer_of};
ghost use Rattle.publication.specs.EitLaws.{AreSmallEntries};

use crate::events::{Stream, events_at};
use crate::present::present_table;
use crate::schedule::{LAST_NEAR, put_schedule};
use eit_segments::last_table;
use guide_model::ServiceGuide;
use mux_model::Mux;
use section_codec::SubTables;
use si_time::{Moment, midnight};
use std::alloc::{AllocError, Global};

/// The first table of a schedule (EN 300 468, 5.2.4).
const SCHEDULE: u8 = 0x50;

/// Appends the tables of event information of a service to those of their kind (EN 300 468, 5.2.4): present and following at a moment
/// to `list`; the schedule tables of the first eight days from the midnight before that moment on to `near`, and those of the later
/// days, up to the 64th, to `far`.
///
/// The service is within its limits. It fails only for want of memory, and then the three may have a part of the tables. Each event's
/// entry has at most 1,578 bytes, so that it fits a section (`small`). The work is linear in the events and in the bytes of the
/// sections.
pub fn put_service(
    alloc: Global,
    mux: &Mux,
    moment: Moment,
    service: &ServiceGuide,
    list: &mut SubTables,
    near: &mut SubTables,
    far: &mut SubTables,
) -> Result<(), AllocError>
    requires { IsServiceWithin service.now }
    ensures present { OnOk result (list.new ≡ list.old ++ present_table mux.now moment.0 service.now ∷ []) }
    ensures near { OnOk result (near.new ≡ near.old ++ near_tables mux.now (midnight moment.0) service.now) }
    ensures far { OnOk result (far.new ≡ far.old ++ far_tables mux.now (midnight moment.0) service.now) }
    ensures small { OnOk result (AreSmallEntries service.now.events) }
{
    let at = events_at(alloc, service.events.as_slice())?;
    let day = midnight(moment);
    let last = last_table(&at, day);
    let later = LAST_NEAR + 1;
    let of = Stream::of_mux(mux);
    list.push(present_table(alloc, of, moment, service, &at)?)?;
    put_schedule(
        alloc,
        of,
        day,
        service,
        &at,
        last,
        SCHEDULE,
        1 + last.min(LAST_NEAR),
        near,
    )?;
    put_schedule(alloc, of, day, service, &at, last, later, 1 + last, far)
}

/// Appends the tables of event information of a service of another stream (EN 300 468, 5.2.4): present and following at a moment to
/// `near`, and the schedule tables of the 64 days from the midnight before that moment on to `far`.
///
/// The service is within its limits. It fails only for want of memory, and then the two may have a part of the tables. Each event's
/// entry has at most 1,578 bytes (`small`). The work is linear in the events and in the bytes of the sections.
pub fn put_remote(
    alloc: Global,
    of: Stream,
    moment: Moment,
    service: &ServiceGuide,
    near: &mut SubTables,
    far: &mut SubTables,
) -> Result<(), AllocError>
    requires { IsServiceWithin service.now }
    ensures present { OnOk result (near.new ≡ near.old ++ present_of (bearer_of of) moment.0 service.now ∷ []) }
    ensures far { OnOk result (far.new ≡ far.old ++ remote_tables (bearer_of of) (midnight moment.0) service.now) }
    ensures small { OnOk result (AreSmallEntries service.now.events) }
{
    let at = events_at(alloc, service.events.as_slice())?;
    let day = midnight(moment);
    let last = last_table(&at, day);
    near.push(present_table(alloc, of, moment, service, &at)?)?;
    put_schedule(alloc, of, day, service, &at, last, SCHEDULE, 1 + last, far)
}
