// The edits of a feed.
ghost use Rattle.std.specs.Prelude.{◌≡◌, ◌≤◌, ◌<◌, ◌+◌, ◌*◌, ◌++◌, IfOk, OnOk};
ghost use Rattle.si_workload.specs.Shows.{shows_ahead};
ghost use Rattle.si_workload.specs.Texts.{day_line, day_text, feed_text, item_line, moment_at, name_line, service_text};
ghost use Rattle.si_workload.specs.Going.{IsAt, PassesDay, Takes};

use crate::shows::{NextShow, Show};
use si_base::put_number;
use si_time::{Moment, write_duration, write_moment};
use std::alloc::{AllocError, Global};

/// The edits of feed 1 or 2 of the load with this number, 0 to 999,999,999: for each of the feed's four services its name, and the shows
/// of the 14 days from 1993-10-13 on, day by day.
pub fn made_feed(alloc: Global, number: u64, feed: u8) -> Result<Vec<u8>, AllocError>
    requires number { number ≤ 999999999 }
    requires feed { (1 ≤ feed) × (feed ≤ 2) }
    ensures { IfOk result (λ text. text.items ≡ feed_text number feed) }
{
    let mut out = Vec::new(alloc);
    for i in 0..4 {
        put_service(alloc, &mut out, number, 100 + u64::from(feed) + 2 * i)?;
    }
    Ok(out)
}

// Appends the edits of a service.
fn put_service(
    alloc: Global,
    out: &mut Vec<u8>,
    number: u64,
    service: u64,
) -> Result<(), AllocError>
    requires number { number ≤ 999999999 }
    requires service { (101 ≤ service) × (service ≤ 108) }
    ensures { OnOk result (out.new.items ≡ out.old.items ++ service_text number service) }
{
    put_name(alloc, out, service)?;
    let mut next = NextShow {
        id: 1,
        start: 0,
        state: number * 8 + (service - 101),
    };
    for day in 0..14 {
        put_day(alloc, out, service, day, &mut next)?;
    }
    Ok(())
}

// Appends the line that names a service.
fn put_name(alloc: Global, out: &mut Vec<u8>, service: u64) -> Result<(), AllocError>
    ensures { OnOk result (out.new.items ≡ out.old.items ++ name_line service) }
{
    out.extend_from_slice(b"name,")?;
    put_number(alloc, out, service)?;
    out.extend_from_slice(b",Maker,Station ")?;
    put_number(alloc, out, service)?;
    out.extend_from_slice(b"\n")
}

// Appends the edit of a day, with the shows that start on it.
fn put_day(
    alloc: Global,
    out: &mut Vec<u8>,
    service: u64,
    day: u64,
    next: &mut NextShow,
) -> Result<(), AllocError>
    requires day { day < 14 }
    requires at { IsAt day next.old }
    ensures text { OnOk result (out.new.items ≡ out.old.items ++ day_text service (shows_ahead next.old) day) }
    ensures passes { OnOk result (PassesDay day next.old next.new) }
{
    let mut items = Vec::new(alloc);
    let count = put_items(alloc, &mut items, next, 96 * (day + 1))?;
    put_day_line(alloc, out, service, day, count)?;
    out.extend_from_slice(&items)
}

// Appends the line of a day.
fn put_day_line(
    alloc: Global,
    out: &mut Vec<u8>,
    service: u64,
    day: u64,
    count: u64,
) -> Result<(), AllocError>
    requires { day < 14 }
    ensures { OnOk result (out.new.items ≡ out.old.items ++ day_line service day count) }
{
    let moment = write_moment(moment_at(96 * day));
    let (date, _) = moment.split_at(10);
    out.extend_from_slice(b"day,")?;
    put_number(alloc, out, service)?;
    out.extend_from_slice(b",")?;
    out.extend_from_slice(date)?;
    out.extend_from_slice(b",")?;
    put_number(alloc, out, count)?;
    out.extend_from_slice(b"\n")
}

// Appends the items of the shows that start before this quarter of an hour, and tells how many there are.
fn put_items(
    alloc: Global,
    out: &mut Vec<u8>,
    next: &mut NextShow,
    end: u64,
) -> Result<u64, AllocError>
    requires end { end ≤ 1344 }
    requires few { next.old.id ≤ next.old.start + 1 }
    requires start { next.old.start ≤ 1351 }
    ensures takes { IfOk result (λ count. Takes end next.old next.new out.old.items out.new.items count) }
    ensures behind { OnOk result (end ≤ next.new.start) }
{
    let mut count = 0;
    while next.start < end {
        let show = next.take();
        put_item(alloc, out, show)?;
        count += 1;
    }
    Ok(count)
}

// Appends the line of an item.
fn put_item(alloc: Global, out: &mut Vec<u8>, show: Show) -> Result<(), AllocError>
    requires start { show.start < 10000 }
    requires quarters { show.quarters ≤ 8 }
    ensures { OnOk result (out.new.items ≡ out.old.items ++ item_line show) }
{
    out.extend_from_slice(b"item,")?;
    put_number(alloc, out, show.id)?;
    out.extend_from_slice(b",")?;
    out.extend_from_slice(&write_moment(moment_at(show.start)))?;
    out.extend_from_slice(b",")?;
    out.extend_from_slice(&write_duration(900 * show.quarters as u32))?;
    out.extend_from_slice(b",eng,Show ")?;
    put_number(alloc, out, show.title)?;
    out.extend_from_slice(b",,,,,\n")
}

/// The moment so many quarters of an hour behind 1993-10-13T00:00:00Z.
pub(crate) fn moment_at(quarters: u64) -> Moment
    requires { quarters < 10000 }
    ensures { result.0 ≡ moment_at quarters }
{
    Moment(4_257_187_200 + 900 * quarters)
}
