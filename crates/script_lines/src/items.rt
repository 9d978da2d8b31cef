// Events in the fields of a line.
ghost use Rattle.std.specs.Prelude.{◌≡◌, IfOk, IfSome, map};
ghost use Rattle.script_lines.specs.Items.{after_texts, day_of, descriptors_of, further_of, genre_from, genre_of, genres_of, item_line, item_of, length_of, rating_of, stamp_of};
ghost use Rattle.journal_model.specs.Edits.{IsShapedItem};

use guide_model::{Genre, Genres, RawDescs, Txt};
use input_lines::{descriptors_in, is_word, number};
use journal_model::{DayText, Item, Length, RawRating, Stamp};
use si_time::has_shape;
use std::alloc::{AllocError, Global};

// START
fn read_stamp(field: &[u8]) -> Option<Stamp>
    ensures { result ≡ stamp_of field.now }
{
    if !has_shape(b"dddd-dd-ddTdd:dd:ddZ", field) {
        return None;
    }
    match field.as_array() {
        Some(text) => Some(Stamp(*text)),
        None => unreachable!(),
    }
}

// DURATION
fn read_length(field: &[u8]) -> Option<Length>
    ensures { result ≡ length_of field.now }
{
    if !has_shape(b"dd:dd:dd", field) {
        return None;
    }
    match field.as_array() {
        Some(text) => Some(Length(*text)),
        None => unreachable!(),
    }
}

// DATE
pub(crate) fn read_day(field: &[u8]) -> Option<DayText>
    ensures { result ≡ day_of field.now }
{
    if !has_shape(b"dddd-dd-dd", field) {
        return None;
    }
    match field.as_array() {
        Some(text) => Some(DayText(*text)),
        None => unreachable!(),
    }
}

// The genre of the parts of `a.b.u`.
fn genre_of_parts(parts: &[&str]) -> Option<Genre>
    ensures { result ≡ genre_from (map (λ part. part.now) parts.now) }
{
    let [a, b, u] = parts else {
        return None;
    };
    let level1 = number(a, 0, 255)?;
    let level2 = number(b, 0, 255)?;
    let user = number(u, 0, 255)?;
    Some(Genre {
        level1: level1 as u8,
        level2: level2 as u8,
        user: user as u8,
    })
}

// A genre `a.b.u`.
fn read_genre(alloc: Global, group: &str) -> Result<Option<Genre>, AllocError>
    ensures { IfOk result (λ found. found ≡ genre_of group.now) }
{
    let parts: Vec<&str> = group.split('.').collect(alloc)?;
    Ok(genre_of_parts(&parts))
}

/// The genres of a field: groups `a.b.u` of numbers from 0 to 255, with single spaces between; an empty field has none. `None` comes
/// exactly where the field is no such list.
pub fn read_genres(alloc: Global, field: &str) -> Result<Option<Genres>, AllocError>
    ensures { IfOk result (λ found. found ≡ genres_of field.now) }
{
    let mut genres = Genres::new(alloc);
    if field.is_empty() {
        return Ok(Some(genres));
    }
    let groups: Vec<&str> = field.split(' ').collect(alloc)?;
    for group in &groups {
        let Some(genre) = read_genre(alloc, group)? else {
            return Ok(None);
        };
        genres.push(genre)?;
    }
    Ok(Some(genres))
}

// COUNTRY and RATING
fn read_rating(country: &Txt, value: &Txt) -> Result<Option<Option<RawRating>>, AllocError>
    ensures { IfOk result (λ found. found ≡ rating_of country.now value.now) }
{
    if country.as_str().is_empty() {
        let none = value.as_str().is_empty();
        return Ok(if none { Some(None) } else { None });
    }
    let Some(value) = number(value.as_str(), 0, 255) else {
        return Ok(None);
    };
    Ok(Some(Some(RawRating {
        country: country.copy()?,
        value: value as u8,
    })))
}

// The descriptors of a field.
fn read_descriptors(alloc: Global, field: &str) -> Result<Option<RawDescs>, AllocError>
    ensures { IfOk result (λ found. found ≡ descriptors_of field.now) }
{
    if field.is_empty() {
        return Ok(Some(RawDescs::new(alloc)));
    }
    descriptors_in(alloc, field)
}

/// The descriptors of the fields after GENRES: without a field, and of an empty one, no descriptor; of another one those of its
/// groups of hexadecimal digits, as `descriptors_in` of `input_lines` reads them. `None` comes exactly where they are no such fields.
pub fn read_further(alloc: Global, fields: &[Txt]) -> Result<Option<RawDescs>, AllocError>
    ensures { IfOk result (λ found. found ≡ further_of fields.now) }
{
    if fields.is_empty() {
        return Ok(Some(RawDescs::new(alloc)));
    }
    let [field] = fields else {
        return Ok(None);
    };
    read_descriptors(alloc, field.as_str())
}

// What stands after the texts of an event: its rating, its genres and its further descriptors.
fn read_after_texts(
    alloc: Global,
    fields: &[Txt],
) -> Result<Option<(Option<RawRating>, Genres, RawDescs)>, AllocError>
    ensures { IfOk result (λ found. found ≡ after_texts fields.now) }
{
    let [_, _, _, _, _, _, _, country, value, groups, further @ ..] = fields else {
        return Ok(None);
    };
    let Some(rating) = read_rating(country, value)? else {
        return Ok(None);
    };
    let Some(genres) = read_genres(alloc, groups.as_str())? else {
        return Ok(None);
    };
    let Some(descriptors) = read_further(alloc, further)? else {
        return Ok(None);
    };
    Ok(Some((rating, genres, descriptors)))
}

// The event of ten fields, or of one more.
#[tactic(auto, unfolding(crate::specs::Items::item_of))]
pub(crate) fn read_item(alloc: Global, fields: &[Txt]) -> Result<Option<Item>, AllocError>
    ensures value { IfOk result (λ found. found ≡ item_of fields.now) }
    ensures shaped { IfOk result (λ found. IfSome found IsShapedItem) }
{
    let [event, start, duration, language, name, short, extended, ..] = fields else {
        return Ok(None);
    };
    let Some(id) = number(event.as_str(), 0, 65535) else {
        return Ok(None);
    };
    let Some(start) = read_stamp(start.as_str().as_bytes()) else {
        return Ok(None);
    };
    let Some(length) = read_length(duration.as_str().as_bytes()) else {
        return Ok(None);
    };
    let Some((rating, genres, descriptors)) = read_after_texts(alloc, fields)? else {
        return Ok(None);
    };
    Ok(Some(Item {
        id: id as u16,
        start,
        length,
        language: language.copy()?,
        name: name.copy()?,
        short: short.copy()?,
        extended: extended.copy()?,
        rating,
        genres,
        descriptors,
    }))
}

/// The event of a line `item,..`; `None` exactly where the fields are no item.
#[tactic(auto, unfolding(crate::specs::Items::item_line))]
pub fn read_item_line(alloc: Global, fields: &[Txt]) -> Result<Option<Item>, AllocError>
    ensures value { IfOk result (λ found. found ≡ item_line fields.now) }
    ensures shaped { IfOk result (λ found. IfSome found IsShapedItem) }
{
    let [word, fields @ ..] = fields else {
        return Ok(None);
    };
    if !is_word(word.as_str(), "item") {
        return Ok(None);
    }
    read_item(alloc, fields)
}
