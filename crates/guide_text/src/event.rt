// The line of an event.
ghost use Rattle.std.specs.Prelude.{◌≡◌, ◌++◌, ◌∷◌, Option, OnOk, decimal, flat_map};
ghost use Rattle.guide_model.specs.Genres.{genres_text};
ghost use Rattle.guide_text.specs.Fields.{shown_text, code_text, moment_field, duration_field, optional};
ghost use Rattle.guide_text.specs.Guides.{country_text, value_text, event_line, event_text};

use crate::details::put_details;
use crate::field::{
    put_code, put_decimal, put_duration, put_field, put_genres, put_moment, put_shown,
};
use guide_model::{Rating, ScreenEvent};
use std::alloc::{AllocError, Global};

// Appends its id, its start, its duration and its language.
fn put_times(alloc: Global, out: &mut Vec<u8>, event: &ScreenEvent) -> Result<(), AllocError>
    ensures { OnOk result (out.new.items ≡ out.old.items
        ++ 9 ∷ (decimal event.now.id ++ 9 ∷ (moment_field event.now.start.0
        ++ 9 ∷ (duration_field event.now.seconds ++ 9 ∷ code_text event.now.language)))) }
{
    put_decimal(alloc, out, u64::from(event.id))?;
    put_moment(out, event.start)?;
    put_duration(out, event.seconds)?;
    put_code(alloc, out, event.language)
}

// Appends its texts.
fn put_texts(alloc: Global, out: &mut Vec<u8>, event: &ScreenEvent) -> Result<(), AllocError>
    ensures { OnOk result (out.new.items ≡ out.old.items
        ++ 9 ∷ (shown_text event.now.name ++ 9 ∷ (shown_text event.now.short ++ 9 ∷ shown_text event.now.extended))) }
{
    put_shown(alloc, out, &event.name)?;
    put_shown(alloc, out, &event.short)?;
    put_shown(alloc, out, &event.extended)
}

// Appends the country and the value of a rating, or two empty fields.
fn put_rating(alloc: Global, out: &mut Vec<u8>, rating: Option<Rating>) -> Result<(), AllocError>
    ensures { OnOk result (out.new.items ≡ out.old.items
        ++ 9 ∷ (optional country_text rating ++ 9 ∷ optional value_text rating)) }
{
    match rating {
        Some(rating) => {
            put_code(alloc, out, rating.country)?;
            put_decimal(alloc, out, u64::from(rating.value))
        }
        None => {
            put_field(out, b"")?;
            put_field(out, b"")
        }
    }
}

// Appends the line of an event, which begins with this word.
fn put_event_line(
    alloc: Global,
    out: &mut Vec<u8>,
    word: &[u8],
    event: &ScreenEvent,
) -> Result<(), AllocError>
    ensures { OnOk result (out.new.items ≡ out.old.items ++ event_line word.now event.now) }
{
    out.extend_from_slice(word)?;
    put_times(alloc, out, event)?;
    put_texts(alloc, out, event)?;
    put_rating(alloc, out, event.rating)?;
    put_genres(alloc, out, event.genres.as_slice())?;
    out.extend_from_slice(b"\n")
}

// Appends the lines of an event: its own, which begins with this word, and with details those of its further descriptors.
fn put_event(
    alloc: Global,
    out: &mut Vec<u8>,
    details: bool,
    word: &[u8],
    event: &ScreenEvent,
) -> Result<(), AllocError>
    ensures { OnOk result (out.new.items ≡ out.old.items ++ event_text details word.now event.now) }
{
    put_event_line(alloc, out, word, event)?;
    put_details(
        alloc,
        out,
        details,
        b"descriptor",
        event.descriptors.as_slice(),
    )
}

/// Appends the lines of an event, with details or without, where there is one. The first begins with this word.
pub fn put_some_event(
    alloc: Global,
    out: &mut Vec<u8>,
    details: bool,
    word: &[u8],
    event: &Option<ScreenEvent>,
) -> Result<(), AllocError>
    ensures { OnOk result (out.new.items ≡ out.old.items ++ optional (event_text details word.now) event.now) }
{
    match event {
        Some(event) => put_event(alloc, out, details, word, event),
        None => Ok(()),
    }
}

/// Appends the lines of events, with details or without. The first of each begins with this word.
pub fn put_events(
    alloc: Global,
    out: &mut Vec<u8>,
    details: bool,
    word: &[u8],
    events: &[ScreenEvent],
) -> Result<(), AllocError>
    ensures { OnOk result (out.new.items ≡ out.old.items ++ flat_map (event_text details word.now) events.now) }
{
    for event in events {
        put_event(alloc, out, details, word, event)?;
    }
    Ok(())
}
