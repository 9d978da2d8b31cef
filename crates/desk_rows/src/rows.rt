// A row and its answer.
use crate::{books, controls, desks, edits, entries, muxes, outcomes, publications, scripts};
use row_lines::{Buffer, Cut, Lines, Row, numbered, put_in_short, reader, say, tell_in_pieces};
use std::alloc::Global;
use std::fmt::Write;

// A description of two services, without its end.
const TWO_SERVICES: &str =
    "network,40,Demo/stream,1,1/cable,1,2,3,4,5/start,1970-01-01T00:00:01Z/quota,7/service,9,1,1,100,100,P,N/service,5,1,1,101,100,P,N/component,9,2,200,/component,5,2,201,deu/component,5,2,200,/";

// The calls that read lines of one kind, or a script.
fn tell_lines(alloc: Global, call: &str, lines: &mut Lines, out: &mut Buffer) {
    match call {
        "mux" => muxes::tell(alloc, lines, out),
        "edits" => edits::tell(alloc, lines, out),
        "control" => controls::tell(alloc, lines, out),
        "outcome" => outcomes::tell(alloc, lines, out),
        "script" => scripts::tell(alloc, lines, out),
        "book" => books::tell(alloc, lines, out),
        "desk" => desks::tell(alloc, lines, out),
        "publication" => publications::tell(alloc, lines, out),
        _ => out.say("no row"),
    }
}

// The calls that have a number before the text, of a caller or a field.
fn tell_numbered(alloc: Global, call: &str, number: u32, lines: &mut Lines, out: &mut Buffer) {
    if call == "edit" {
        edits::tell_from(alloc, number, lines, out);
    } else {
        entries::tell(alloc, number, lines, out);
    }
}

// The number of a caller or a field that the text of such a call begins with, and what stands after it.
fn parts_of<'r>(call: &str, text: &'r str) -> Option<(Option<u32>, &'r str)> {
    if call != "edit" && call != "entry" {
        return Some((None, text));
    }
    let (number, text) = text.split_once(' ').unwrap_or((text, ""));
    Some((Some(number.parse::<u32>().ok()?), text))
}

// Appends what a call gives for a text that comes so.
fn tell(alloc: Global, call: &str, text: &str, cut: Cut, out: &mut Buffer) {
    let Some((number, text)) = parts_of(call, text) else {
        return out.say("no row");
    };
    let Some(mut lines) = out.made(reader(alloc, text, cut)) else {
        return;
    };
    match number {
        Some(number) => tell_numbered(alloc, call, number, &mut lines, out),
        None => tell_lines(alloc, call, &mut lines, out),
    }
}

// Appends what a call gives for a text in pieces.
fn tell_whole(alloc: Global, call: &str, text: &str, out: &mut Buffer) {
    tell_in_pieces(alloc, out, |cut: Cut, out: &mut Buffer| {
        tell(alloc, call, text, cut, out);
    });
}

// How the text of a row comes, and the row.
fn cut_of(row: &str) -> Option<(Cut, &str)> {
    let (piece, rest) = numbered(row)?;
    let (fails_at, rest) = numbered(rest)?;
    Some((Cut { piece, fails_at }, rest))
}

// Appends what the description of two services gives with these lines and an end after it.
fn tell_more(alloc: Global, text: &str, out: &mut Buffer) {
    let mut more = Buffer::open(alloc);
    say!(more; "{TWO_SERVICES}{text}/end/");
    tell_whole(alloc, "mux", more.text(), out);
}

// Appends what a call gives for a text.
fn tell_call(alloc: Global, call: &str, text: &str, out: &mut Buffer) {
    match call {
        "more" => tell_more(alloc, text, out),
        "cut" => match cut_of(text) {
            Some((cut, row)) => {
                let (call, text) = row.split_once(' ').unwrap_or((row, ""));
                tell(alloc, call, text, cut, out);
            }
            None => out.say("no row"),
        },
        _ => tell_whole(alloc, call, text, out),
    }
}

/// Puts what a row gives.
pub fn answer(row: &mut Row) {
    put_in_short(row, tell_call);
}
