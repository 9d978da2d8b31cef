// What the calls give for the events of a row.
ghost use Rattle.std.specs.Prelude.{◌≡◌, ◌%◌};
ghost use Rattle.eit_segments.specs.Schedule.{CanBePlaced};

use crate::events::read_events;
use crate::placeable::can_be_placed;
use eit_segments::{EventAt, Piece, present_following, segments};
use row_lines::{Row, say};
use si_time::{Moment, read_day, read_moment};
use std::fmt::Write;

// A section: its table in hex, its number, the last of its table and that of its segment, and the
// places of its events.
fn put_piece(row: &mut Row, piece: &Piece) {
    row.begin_part();
    say!(row; " {:02X} {} {}", piece.table, piece.number, piece.last);
    say!(row; " {} {}..{}", piece.segment_last, piece.from, piece.to);
}

// The sections of a schedule.
fn put_sections(row: &mut Row, events: &[EventAt], day: Moment)
    requires day { day.0 % 86400 ≡ 0 }
    requires events { CanBePlaced events.now }
{
    let pieces = segments(row.alloc(), events, day);
    if let Some(pieces) = row.made(pieces) {
        for piece in pieces.as_slice() {
            put_piece(row, piece);
        }
    }
}

// A place, or a dash.
fn put_place(row: &mut Row, name: &str, place: Option<usize>) {
    row.put(name);
    match place {
        Some(place) => say!(row; " {place}"),
        None => row.put(" -"),
    }
}

// The places of the present and the following event.
fn put_both(row: &mut Row, events: &[EventAt], at: Moment)
    requires { CanBePlaced events.now }
{
    let (present, following) = present_following(events, at);
    put_place(row, " present", present);
    put_place(row, " following", following);
}

/// What a row gives: `segments DAY | EVENTS` or `present_following MOMENT | EVENTS`.
pub fn answer(row: &mut Row, call: &str) {
    let when = row.word().as_bytes();
    row.pass("|");
    let events = read_events(row);
    if !can_be_placed(&events) {
        return row.refuse();
    }
    match (call, read_day(when), read_moment(when)) {
        ("segments", Some(day), _) => put_sections(row, &events, day),
        ("present_following", _, Some(at)) => put_both(row, &events, at),
        _ => row.refuse(),
    }
}
