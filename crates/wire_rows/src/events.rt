// Events and what they have, in the notation of rows.
ghost use Rattle.std.specs.Prelude.{◌≤◌, length, IsTrue};
ghost use Rattle.std.specs.List.{All};
ghost use Rattle.descriptors.specs.Content.{HasNibbles};
ghost use Rattle.table_bodies.specs.Eit.{IsCodable};

use guide_model::{Event, Genre, Genres, Rating, RawDescs, ScreenEvent, Txt, coded_len};
use row_lines::{
    MOST, Row, code, code_in, duration, moment, put_code, put_shown, repeated, say, text, text_of,
};
use si_base::Items;
use si_time::{Moment, write_duration, write_moment};
use std::fmt::Write;

/// An event without further descriptors: its id, start, duration and language, its name and its short and extended text, its
/// rating or `-`, and its genres or `-`, with bars between.
pub fn event(row: &mut Row) -> Option<Event> {
    let id = row.short();
    row.pass("|");
    let start = moment(row);
    row.pass("|");
    let seconds = duration(row);
    row.pass("|");
    let language = code(row);
    row.pass("|");
    let name = text_and_bar(row)?;
    let short = text_and_bar(row)?;
    let extended = text_and_bar(row)?;
    let rating = rating(row);
    row.pass("|");
    Some(Event {
        id,
        start,
        seconds,
        language,
        name,
        short,
        extended,
        rating,
        genres: genres(row),
        descriptors: RawDescs::new(row.alloc()),
    })
}

fn text_and_bar(row: &mut Row) -> Option<Txt> {
    let text = text(row);
    row.pass("|");
    text
}

/// A rating, as `GBR 5`, or `-`.
pub fn rating(row: &mut Row) -> Option<Rating> {
    let word = row.word();
    if word == "-" {
        return None;
    }
    Some(Rating {
        country: code_in(row, word),
        value: row.octet(),
    })
}

/// Genres up to the end, as `2.0.0`, each with a star and a number where it comes more than once; or `-`.
pub fn genres(row: &mut Row) -> Genres {
    let mut genres = Vec::new(row.alloc());
    append_genres(row, &mut genres);
    Items::of(genres)
}

fn append_genres(row: &mut Row, genres: &mut Vec<Genre>) {
    for _ in 0..MOST {
        let word = row.word();
        if row.is_end(word) {
            break;
        }
        if word != "-" {
            append_genre(row, word, genres);
        }
    }
}

fn append_genre(row: &mut Row, word: &str, genres: &mut Vec<Genre>) {
    let (unit, count) = repeated(word).unwrap_or(("", 1));
    let genre = genre(row, unit);
    for _ in 0..count {
        row.need(genres.push(genre).is_ok());
    }
}

fn genre(row: &mut Row, word: &str) -> Genre {
    let (level1, rest) = word.split_once('.').unwrap_or(("", ""));
    let (level2, user) = rest.split_once('.').unwrap_or(("", ""));
    Genre {
        level1: row.small_in(level1),
        level2: row.small_in(level2),
        user: row.small_in(user),
    }
}

/// Whether the levels of all genres are below 16.
pub fn have_nibbles(genres: &[Genre]) -> bool
    ensures { IsTrue result → All HasNibbles genres.now }
{
    genres
        .iter()
        .all(|genre| genre.level1 < 16 && genre.level2 < 16)
}

/// Whether an event without further descriptors can be coded; of another one no.
pub fn is_codable(event: &Event) -> bool
    ensures { IsTrue result → IsCodable event.now }
{
    event.start.0 < 65536 * 86400
        && event.seconds < 360_000
        && coded_len(event.name.as_str()) <= 100
        && coded_len(event.short.as_str()) <= 150
        && event.extended.as_str().len() <= 1000
        && event.genres.len() <= 8
        && have_nibbles(event.genres.as_slice())
        && event.descriptors.is_empty()
}

/// Appends an event that is shown.
pub fn put_event(row: &mut Row, event: &ScreenEvent) {
    say!(row; " {} |", event.id);
    put_times(row, event.start, event.seconds);
    put_code(row, &event.language);
    row.put(" |");
    put_shown(row, &event.name);
    row.put(" |");
    put_shown(row, &event.short);
    row.put(" |");
    put_shown(row, &event.extended);
    row.put(" |");
    put_ratings(row, event.rating.as_slice());
    row.put(" |");
    put_genres(row, event.genres.as_slice());
}

fn put_times(row: &mut Row, start: Moment, seconds: u32) {
    if start.0 >= 65_536 * 86_400 || seconds >= 360_000 {
        return row.refuse();
    }
    let (start, length) = (write_moment(start), write_duration(seconds));
    say!(row; " {} | {} |", text_of(&start), text_of(&length));
}

/// Appends genres, or `-` where there is none.
pub fn put_genres(row: &mut Row, genres: &[Genre]) {
    if genres.is_empty() {
        row.put(" -");
    }
    for genre in genres {
        say!(row; " {}.{}.{}", genre.level1, genre.level2, genre.user);
    }
}

/// Appends ratings, or `-` where there is none.
pub fn put_ratings(row: &mut Row, ratings: &[Rating]) {
    if ratings.is_empty() {
        row.put(" -");
    }
    for rating in ratings {
        put_code(row, &rating.country);
        say!(row; " {}", rating.value);
    }
}
