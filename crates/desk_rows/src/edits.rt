// What lines of edits give.
use crate::words::{put_edit_stop, put_further};
use guide_model::Genre;
use input_lines::fields;
use journal_model::{Edit, Item};
use row_lines::{Buffer, Lines, say, text_of};
use script_lines::{next_edit, read_edit};
use std::alloc::Global;
use std::fmt::Write;

/// Appends a genre.
pub fn put_genre(out: &mut Buffer, genre: &Genre) {
    say!(out; ", genre {}.{}.{}", genre.level1, genre.level2, genre.user);
}

// An item without its texts, its rating, its genres and its further descriptors.
fn put_front(out: &mut Buffer, item: &Item) {
    let (start, length) = (text_of(&item.start.0), text_of(&item.length.0));
    let language = item.language.as_str();
    say!(out; " event {} at {start} for {length} in \"{language}\"", item.id);
}

fn put_item(out: &mut Buffer, item: &Item) {
    put_front(out, item);
    let (name, short, extended) = (&item.name, &item.short, &item.extended);
    say!(out; " \"{}\" \"{}\" \"{}\"", name.as_str(), short.as_str(), extended.as_str());
    if let Some(rating) = &item.rating {
        say!(out; ", rated \"{}\" {}", rating.country.as_str(), rating.value);
    }
    for genre in item.genres.as_slice() {
        put_genre(out, genre);
    }
    put_further(out, ", ", &item.descriptors);
}

fn put_day(out: &mut Buffer, service: u16, day: &[u8], items: &[Item]) {
    say!(out; "day of {service} {}", text_of(day));
    for item in items {
        out.say(":");
        put_item(out, item);
    }
}

/// Appends an edit.
pub fn put_edit(out: &mut Buffer, edit: &Edit) {
    match edit {
        Edit::Put(service, item) => {
            say!(out; "put on {service}");
            put_item(out, item);
        }
        Edit::Withdraw(service, event) => say!(out; "withdraw from {service} event {event}"),
        Edit::Clear(service) => say!(out; "clear {service}"),
        Edit::Name(service, provider, name) => {
            say!(out; "name {service} \"{}\" \"{}\"", provider.as_str(), name.as_str());
        }
        Edit::Day(service, day, items) => put_day(out, *service, &day.0, items.as_slice()),
    }
}

// Appends the next edit, or the stop; whether there may be more.
fn tell_next(alloc: Global, lines: &mut Lines, out: &mut Buffer) -> bool {
    match next_edit(alloc, lines) {
        Ok(Some(edit)) => {
            put_edit(out, &edit);
            out.say("; ");
            return true;
        }
        Ok(None) => out.say("end"),
        Err(stop) => put_edit_stop(out, stop),
    }
    false
}

/// Appends the edits of a text, and then its stop.
pub fn tell(alloc: Global, lines: &mut Lines, out: &mut Buffer) {
    for _ in 0..10_000 {
        if !tell_next(alloc, lines, out) {
            break;
        }
    }
}

/// Appends the edit of the fields of the first line from an index on, as on line 8.
pub fn tell_from(alloc: Global, from: u32, lines: &mut Lines, out: &mut Buffer) {
    if lines.next().is_err() {
        return out.say("no row");
    }
    let Some(Some(fields)) = out.made(fields(alloc, lines.line())) else {
        return out.say("no row");
    };
    match read_edit(alloc, &fields, from as usize, 8, lines) {
        Ok(edit) => put_edit(out, &edit),
        Err(stop) => put_edit_stop(out, stop),
    }
}
