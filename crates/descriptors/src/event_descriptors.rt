// The descriptors of an event.
ghost use Rattle.std.specs.Prelude.{◌≡◌, ◌+◌, ◌<◌, ◌≤◌, ◌∷◌, ◌++◌, true, length, take, OnOk, OnErr, IsCharBoundary, IsUtf8};
ghost use Rattle.std.specs.List.{All};
ghost use Rattle.si_base.specs.Room.{Appended, HasRoom};
ghost use Rattle.guide_model.specs.Coding.{all_plain, coded_size, coded_text};
ghost use Rattle.guide_model.specs.Cutting.{cut_size, pieces};
ghost use Rattle.descriptors.specs.Content.{HasNibbles};
ghost use Rattle.descriptors.specs.EventDescriptors.{event_descriptors, extended_events, content_of, rating_of, entry_size, made_descriptors, IsWithinLimits};

use crate::Coded;
use crate::content::put_content;
use crate::descriptors::put_descriptors;
use crate::extended_event::put_extended_event;
use crate::parental_rating::put_parental_rating;
use crate::short_event::{put_short_event, short_event_len};
use guide_model::{Event, Genre, Rating, Txt, cut_len, plain_cut_len};
use std::alloc::AllocError;

/// The bytes of an event's entry before its descriptors (EN 300 468, 5.2.4).
const HEAD: usize = 12;

/// The size of the event's entry in an event information section: 12 bytes and its descriptors (EN 300 468, 5.2.4).
/// It needs an event within the limits: a name of at most 100 coded bytes, a short text of at most 150, an extended text
/// of at most 1,000 bytes, at most 8 genres with levels below 16, and further descriptors of at most 240 bytes in all, none of
/// a kind that is made. It takes no memory, and looks at no text that is all of the plain set.
pub fn event_len(event: &Event) -> u32
    requires { IsWithinLimits event.now }
    ensures size { result ≡ entry_size event.now }
    ensures at_most { result ≤ 1578 }
{
    (HEAD + descriptors_len(event)) as u32
}

/// Appends the descriptors of an event: one short_event; extended_event for each piece of the extended text, numbered
/// from 0; content where there is a genre; parental_rating where there is a rating; its further descriptors
/// (EN 300 468, 6.2). It needs an event within the limits that `event_len` names. Want of memory leaves `out` unchanged.
pub fn write_event_descriptors(event: &Event, out: &mut Vec<u8>) -> Result<(), AllocError>
    requires { IsWithinLimits event.now }
    ensures written { OnOk result (out.new.items ≡ out.old.items ++ event_descriptors event.now) }
    ensures memory { OnErr result (out.new.items ≡ out.old.items) }
{
    out.reserve(descriptors_len(event))?;
    put_made(event, out);
    put_descriptors(event.descriptors.as_slice(), out);
    Ok(())
}

// Appends those that are made to a buffer that has room for them.
fn put_made(event: &Event, out: &mut Vec<u8>)
    requires limits { IsWithinLimits event.now }
    requires room { HasRoom out.old (length (made_descriptors event.now)) }
    ensures { Appended out.old out.new (made_descriptors event.now) }
{
    let name = Coded::of_txt(&event.name);
    let short = Coded::of_txt(&event.short);
    put_short_event(&event.language, &name, &short, out);
    put_extended_events(&event.language, &event.extended, out);
    put_genres(event.genres.as_slice(), out);
    put_rating(event.rating, out);
}

fn descriptors_len(event: &Event) -> usize
    requires { IsWithinLimits event.now }
    ensures size { result ≡ length (event_descriptors event.now) }
    ensures at_most { result ≤ 1566 }
{
    made_len(event) + crate::descriptors_len(event.descriptors.as_slice())
}

// Those that are made.
fn made_len(event: &Event) -> usize
    requires { IsWithinLimits event.now }
    ensures size { result ≡ length (made_descriptors event.now) }
    ensures at_most { result ≤ 1326 }
{
    let name = Coded::of_txt(&event.name);
    let short = Coded::of_txt(&event.short);
    short_event_len(&event.language, &name, &short)
        + extended_len(&event.language, &event.extended)
        + genres_len(event.genres.as_slice())
        + rating_len(event.rating)
}

// ---- genres and rating

fn genres_len(genres: &[Genre]) -> usize
    requires { length genres.now ≤ 8 }
    ensures size { result ≡ length (content_of genres.now) }
    ensures at_most { result ≤ 18 }
{
    match genres.len() {
        0 => 0,
        count => 2 + 2 * count,
    }
}

fn put_genres(genres: &[Genre], out: &mut Vec<u8>)
    requires length { length genres.now ≤ 8 }
    requires levels { All HasNibbles genres.now }
    requires room { HasRoom out.old (length (content_of genres.now)) }
    ensures { Appended out.old out.new (content_of genres.now) }
{
    if !genres.is_empty() {
        put_content(genres, out);
    }
}

fn rating_len(rating: Option<Rating>) -> usize
    ensures size { result ≡ length (rating_of rating) }
    ensures at_most { result ≤ 6 }
{
    match rating {
        None => 0,
        Some(_) => 6,
    }
}

fn put_rating(rating: Option<Rating>, out: &mut Vec<u8>)
    requires room { HasRoom out.old (length (rating_of rating)) }
    ensures { Appended out.old out.new (rating_of rating) }
{
    if let Some(rating) = rating {
        put_parental_rating(&[rating], out);
    }
}

// ---- pieces of the extended text

// The length of the first piece of a text. It reads nothing of one that is known to be plain.
fn piece_len(text: &str, is_plain: bool) -> usize
    requires { is_plain ≡ true → all_plain text.now ≡ true }
    ensures size { result ≡ cut_size text.now }
    ensures whole { IsCharBoundary text.now result }
    ensures fits { coded_size (take result text.now) ≤ 249 }
{
    if is_plain {
        plain_cut_len(text)
    } else {
        cut_len(text)
    }
}

// The first piece of a text, and what is left behind it.
fn cut(text: &str, is_plain: bool) -> (&str, &str)
    requires some { 0 < length text.now }
    requires plain { is_plain ≡ true → all_plain text.now ≡ true }
    ensures pieces { pieces text.now ≡ result.0.now ∷ pieces result.1.now }
    ensures fits { coded_size result.0.now ≤ 249 }
    ensures utf8 { IsUtf8 result.1.now }
    ensures less { length result.1.now < length text.now }
    ensures front { is_plain ≡ true → all_plain result.0.now ≡ true }
    ensures back { is_plain ≡ true → all_plain result.1.now ≡ true }
{
    text.split_at(piece_len(text, is_plain))
}

// The bytes that a piece is coded as.
fn coded_piece(piece: &str, is_plain: bool) -> Coded<'_>
    requires { is_plain ≡ true → all_plain piece.now ≡ true }
    ensures { result ≡ coded_text piece.now }
{
    if is_plain {
        Coded::of_bytes(piece.as_bytes())
    } else {
        Coded::of_text(piece)
    }
}

// How many bytes the extended_event descriptors of a text have.
fn extended_len(language: &[u8; 3], text: &Txt) -> usize
    requires { length text.now ≤ 1000 }
    ensures size { result ≡ length (extended_events language.now text.now) }
    ensures at_most { result ≤ 1045 }
{
    let is_plain = text.is_plain();
    let mut size = 0;
    let mut rest = text.as_str();
    while !rest.is_empty() {
        let (piece, more) = cut(rest, is_plain);
        size += 5 + language.len() + coded_piece(piece, is_plain).len();
        rest = more;
    }
    size
}

// How many pieces a text has.
fn piece_count(text: &Txt) -> u8
    requires { length text.now ≤ 1000 }
    ensures count { result ≡ length (pieces text.now) }
    ensures at_most { result ≤ 5 }
{
    let is_plain = text.is_plain();
    let mut count = 0;
    let mut rest = text.as_str();
    while !rest.is_empty() {
        let (_, more) = cut(rest, is_plain);
        count += 1;
        rest = more;
    }
    count
}

// Appends the extended_event descriptors of a text to a buffer that has room for them.
fn put_extended_events(language: &[u8; 3], text: &Txt, out: &mut Vec<u8>)
    requires length { length text.now ≤ 1000 }
    requires room { HasRoom out.old (length (extended_events language.now text.now)) }
    ensures { Appended out.old out.new (extended_events language.now text.now) }
{
    let count = piece_count(text);
    let is_plain = text.is_plain();
    let mut number = 0;
    let mut rest = text.as_str();
    while !rest.is_empty() {
        let (piece, more) = cut(rest, is_plain);
        let coded = coded_piece(piece, is_plain);
        put_extended_event(number, count - 1, language, &coded, out);
        number += 1;
        rest = more;
    }
}
