// Descriptors both ways.
use crate::events::{event, genres, have_nibbles, is_codable, rating};
use descriptors::{
    ExtendedPiece, ShortEvent, event_len, read_descriptors, write_content, write_event_descriptors,
    write_extended_event, write_parental_rating, write_short_event,
};
use guide_model::{Event, RawDescs, Shown};
use row_lines::{Row, code, put_appended, put_read, say, text};
use si_base::Items;
use std::fmt::Write;

/// `write_content GENRES`.
pub fn content(row: &mut Row) {
    let genres = genres(row);
    if !have_nibbles(genres.as_slice()) || genres.len() > 127 {
        return row.refuse();
    }
    let mut out = Vec::new(row.alloc());
    let done = write_content(genres.as_slice(), &mut out);
    put_appended(row, done, &out);
}

/// `write_parental_rating RATING`.
pub fn parental_rating(row: &mut Row) {
    let Some(rating) = rating(row) else {
        return row.refuse();
    };
    let mut out = Vec::new(row.alloc());
    let done = write_parental_rating(&[rating], &mut out);
    put_appended(row, done, &out);
}

/// `write_short_event LANGUAGE | NAME | TEXT`.
pub fn short_event(row: &mut Row) {
    let language = code(row);
    row.pass("|");
    let name = text(row);
    row.pass("|");
    let short = text(row);
    if let (Some(name), Some(short)) = (name, short) {
        let event = ShortEvent {
            language,
            name: Shown::Text(name),
            short: Shown::Text(short),
        };
        put_short_event(row, &event);
    }
}

fn put_short_event(row: &mut Row, event: &ShortEvent) {
    let name = event.name.coded_len();
    if name > 250 || event.short.coded_len() > 250 - name {
        return row.refuse();
    }
    let mut out = Vec::new(row.alloc());
    let done = write_short_event(event, &mut out);
    put_appended(row, done, &out);
}

/// `write_extended_event number NUMBER last LAST LANGUAGE | TEXT`.
pub fn extended_event(row: &mut Row) {
    let number = row.small("number");
    let last = row.small("last");
    let language = code(row);
    row.pass("|");
    let piece = ExtendedPiece {
        number,
        last,
        language,
        text: Items::of(row.bytes()),
    };
    put_extended_event(row, &piece);
}

fn put_extended_event(row: &mut Row, piece: &ExtendedPiece) {
    if piece.number >= 16 || piece.last >= 16 || piece.text.len() > 249 {
        return row.refuse();
    }
    let mut out = Vec::new(row.alloc());
    let done = write_extended_event(piece, &mut out);
    put_appended(row, done, &out);
}

/// `event_len EVENT`.
pub fn event_size(row: &mut Row) {
    if let Some(event) = event(row) {
        put_size(row, &event);
    }
}

fn put_size(row: &mut Row, event: &Event) {
    if is_codable(event) {
        row.put_number(" ", u64::from(event_len(event)));
    } else {
        row.refuse();
    }
}

// The descriptors of an event.
fn written(row: &mut Row) -> Vec<u8> {
    let mut out = Vec::new(row.alloc());
    if let Some(event) = event(row) {
        write(row, &event, &mut out);
    }
    out
}

fn write(row: &mut Row, event: &Event, out: &mut Vec<u8>) {
    if !is_codable(event) {
        return row.refuse();
    }
    row.need(write_event_descriptors(event, out).is_ok());
}

/// `write_event_descriptors EVENT`.
pub fn event_descriptors(row: &mut Row) {
    let out = written(row);
    row.put_bytes(&out);
}

/// `event_descriptor_sizes EVENT`: of each descriptor that is written its tag and its length.
pub fn event_sizes(row: &mut Row) {
    let out = written(row);
    let read = read_descriptors(row.alloc(), &out);
    put_read(row, read, " refused", put_sizes);
}

fn put_sizes(row: &mut Row, descs: &RawDescs) {
    for desc in descs.as_slice() {
        row.begin_part();
        say!(row; " {:02X} of {}", desc.tag, desc.body.len());
    }
}
