// What bytes of descriptors and bodies are read as.
use crate::bodies;
use crate::events::{put_genres, put_ratings};
use descriptors::{
    ExtendedPiece, Ratings, ShortEvent, read_content, read_descriptors, read_extended_event,
    read_parental_rating, read_short_event,
};
use guide_model::{Genres, RawDescs};
use row_lines::{Row, put_code, put_read, put_shown, say};
use std::alloc::Global;
use std::fmt::Write;

/// Appends what the bytes are read as by this call.
pub fn read(row: &mut Row, call: &str, bytes: &[u8]) {
    match call {
        "read_descriptors" => {
            let read = read_descriptors(row.alloc(), bytes);
            put_read(row, read, " refused", put_descriptors);
        }
        "read_content" => {
            let read = read_content(row.alloc(), bytes);
            put_read(row, read, " refused", put_content);
        }
        "read_parental_rating" => {
            let read = read_parental_rating(row.alloc(), bytes);
            put_read(row, read, " refused", put_rated);
        }
        "read_short_event" => {
            let read = read_short_event(row.alloc(), bytes);
            put_read(row, read, " refused", put_texts);
        }
        "read_extended_event" => {
            let read = read_extended_event(row.alloc(), bytes);
            put_read(row, read, " refused", put_piece);
        }
        "read_eit" => bodies::read(row, bytes),
        _ => row.refuse(),
    }
}

/// `fronts CALL BYTES`: the lengths of the fronts of these bytes, and of all, that the call does not refuse.
pub fn fronts(row: &mut Row) {
    let call = row.word();
    let bytes = row.bytes();
    if !is_call(call) {
        return row.refuse();
    }
    put_fronts(row, call, &bytes);
    row.end_parts();
}

// Whether `read` has this call.
fn is_call(call: &str) -> bool {
    matches!(
        call,
        "read_descriptors" | "read_content" | "read_parental_rating" | "read_short_event"
    ) || matches!(call, "read_extended_event" | "read_eit")
}

fn put_fronts(row: &mut Row, call: &str, bytes: &[u8]) {
    for len in 0..=bytes.len() {
        let (front, _) = bytes.split_at(len);
        if is_read(row.alloc(), call, front) {
            row.put_number(" ", len as u64);
        }
    }
}

fn is_read(alloc: Global, call: &str, bytes: &[u8]) -> bool {
    let mut row = Row::open(alloc, "");
    read(&mut row, call, bytes);
    !row.has(" refused")
}

fn put_descriptors(row: &mut Row, descs: &RawDescs) {
    for desc in descs.as_slice() {
        row.begin_part();
        say!(row; " {:02X} |", desc.tag);
        row.put_bytes(desc.body.as_slice());
    }
    row.end_parts();
}

fn put_content(row: &mut Row, genres: &Genres) {
    put_genres(row, genres.as_slice());
}

fn put_rated(row: &mut Row, ratings: &Ratings) {
    put_ratings(row, ratings.as_slice());
}

fn put_texts(row: &mut Row, event: &ShortEvent) {
    put_code(row, &event.language);
    row.put(" |");
    put_shown(row, &event.name);
    row.put(" |");
    put_shown(row, &event.short);
}

fn put_piece(row: &mut Row, piece: &ExtendedPiece) {
    say!(row; " number {} last {}", piece.number, piece.last);
    put_code(row, &piece.language);
    row.put(" |");
    row.put_bytes(piece.text.as_slice());
}
