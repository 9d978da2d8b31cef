// Bodies of event information, both ways.
ghost use Rattle.std.specs.Prelude.{IsTrue};
ghost use Rattle.std.specs.List.{All};
ghost use Rattle.table_bodies.specs.Eit.{IsCodable};

use crate::events::{event, is_codable, put_event};
use guide_model::Event;
use row_lines::{Row, each_part, put_read, say};
use si_base::{Bytes, Items};
use std::fmt::Write;
use table_bodies::{Eit, EitHead, read_eit, write_eit};

/// `write_eit HEAD / EVENT / EVENT ..`: the body.
pub fn write(row: &mut Row) {
    let body = written(row);
    row.put_bytes(body.as_slice());
}

/// `write_and_read_eit HEAD / EVENT / EVENT ..`: what the written body is read as.
pub fn write_and_read(row: &mut Row) {
    let body = written(row);
    read(row, body.as_slice());
}

/// `read_eit BYTES`: the head and the events.
pub fn read(row: &mut Row, bytes: &[u8]) {
    let read = read_eit(row.alloc(), bytes);
    put_read(row, read, " refused", put_eit);
}

fn put_eit(row: &mut Row, eit: &Eit) {
    let head = &eit.head;
    say!(row; " stream {:04X} network {:04X}", head.stream, head.original);
    say!(row; " segment_last {} last_table {:02X}", head.segment_last, head.last_table);
    for event in eit.events.as_slice() {
        row.put(" /");
        put_event(row, event);
    }
}

// The body that is written.
fn written(row: &mut Row) -> Bytes {
    let head = head(row);
    let status = row.small("running_status");
    let events = each_part(row, event);
    if status >= 8 || !are_codable(&events) {
        row.refuse();
        return Items::new(row.alloc());
    }
    let body = write_eit(row.alloc(), &head, status, &events);
    row.made(body).unwrap_or(Items::new(row.alloc()))
}

// `stream 0405 network 233A segment_last 7 last_table 51`.
fn head(row: &mut Row) -> EitHead {
    let stream = row.hex_of("stream");
    let original = row.hex_of("network");
    let segment_last = row.small("segment_last");
    row.pass("last_table");
    EitHead {
        stream,
        original,
        segment_last,
        last_table: row.byte(),
    }
}

fn are_codable(events: &[Event]) -> bool
    ensures { IsTrue result → All IsCodable events.now }
{
    events.iter().all(is_codable)
}
