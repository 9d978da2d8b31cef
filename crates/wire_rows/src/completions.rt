// Completions of lists of sections.
use row_lines::{MOST, Row, say};
use section_codec::{Key, LongHeader};
use si_base::Items;
use std::alloc::Global;
use std::fmt::Write;
use sub_collect::{Collector, TakeStop};

/// `take SECTION / SECTION ..`: each section that shows a completion, and then the latest completions of tables 42, 40 and 50. A section is
/// its table, version, number and last number, and its body, as `42 v0 1/3 07`. Numbers from one to another have their number as
/// body, as `42 v0 0-3/3`.
pub fn take(row: &mut Row) {
    let mut collector = Collector::open(row.alloc());
    let mut place = 0;
    for _ in 0..MOST {
        take_part(row, &mut collector, &mut place);
        if !row.goes_on() {
            break;
        }
    }
    put_latest(row, &collector, 0x42);
    put_latest(row, &collector, 0x40);
    put_latest(row, &collector, 0x50);
}

// Sections of one table and version.
#[derive(Clone, Copy)]
struct Sections {
    table: u8,
    version: u8,
    from: u8,
    to: u8,
    last: u8,
}

fn take_part(row: &mut Row, collector: &mut Collector, place: &mut u64) {
    let sections = part(row);
    if sections.from > sections.to || sections.version >= 32 {
        row.refuse();
    }
    let body = row.bytes();
    for number in sections.from..=sections.to {
        match take_one(row.alloc(), collector, sections, number, &body) {
            Ok(Some(version)) => {
                row.begin_part();
                say!(row; " at {place} version {version}");
            }
            Ok(None) => {}
            Err(TakeStop::TooMany) => say!(row; " too many at {place}"),
            Err(TakeStop::Memory) => row.lack_memory(),
        }
        *place = place.saturating_add(1);
    }
}

fn take_one(
    alloc: Global,
    collector: &mut Collector,
    sections: Sections,
    number: u8,
    body: &[u8],
) -> Result<Option<u8>, TakeStop> {
    let header = LongHeader {
        table: sections.table,
        ext: 1,
        version: sections.version,
        current: true,
        number,
        last: sections.last,
    };
    let number = [number];
    let body = if body.is_empty() { &number } else { body };
    let Ok(body) = Vec::from_slice(alloc, body) else {
        return Err(TakeStop::Memory);
    };
    collector.take(key_of(sections.table), &header, Items::of(body))
}

fn part(row: &mut Row) -> Sections {
    let table = row.byte();
    let version = row.word().strip_prefix('v').unwrap_or("");
    let (numbers, last) = row.word().split_once('/').unwrap_or(("", ""));
    let (from, to) = numbers.split_once('-').unwrap_or((numbers, numbers));
    Sections {
        table,
        version: row.small_in(version),
        from: row.small_in(from),
        to: row.small_in(to),
        last: row.small_in(last),
    }
}

fn key_of(table: u8) -> Key {
    Key {
        pid: 0x11,
        table,
        ext: 1,
        stream: 0,
        network: 1,
    }
}

fn put_latest(row: &mut Row, collector: &Collector, table: u8) {
    let Some(completed) = collector.latest(key_of(table)) else {
        return;
    };
    row.begin_part();
    say!(row; " table {table:02X} version {}", completed.version);
    for section in completed.sections.as_slice() {
        say!(row; " | {}:", section.number);
        row.put_bytes(section.body.as_slice());
    }
}
