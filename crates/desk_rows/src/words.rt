// Parts of answers in words.
use guide_model::{RawDesc, RawDescs};
use journal_model::{DayFault, Field, Outcome, Reply};
use row_lines::{Buffer, moment_text, say, text_of};
use script_lines::EditStop;
use si_causes::ReadStop;
use si_time::Moment;
use std::alloc::AllocError;
use std::fmt::Write;

/// Appends a text, and a moment after it.
pub fn put_moment(out: &mut Buffer, text: &str, at: Moment) {
    say!(out; "{text}{}", text_of(&moment_text(at)));
}

/// Appends why a reader stopped.
pub fn put_read_stop(out: &mut Buffer, stop: ReadStop) {
    out.say(match stop {
        ReadStop::Failed => "read failed",
        ReadStop::TooLong => "text too long",
    });
}

/// Appends why no edit, control line or item was read.
pub fn put_edit_stop(out: &mut Buffer, stop: EditStop) {
    match stop {
        EditStop::NoCommand(line) => say!(out; "line {line} refused"),
        EditStop::Read(stop) => put_read_stop(out, stop),
        EditStop::Memory => out.note(Err(AllocError)),
    }
}

// The word of a field.
fn field_word(field: Field) -> &'static str {
    match field {
        Field::Start => "start",
        Field::Duration => "duration",
        Field::Window => "window",
        Field::Language => "language",
        Field::Name => "name",
        Field::Short => "short text",
        Field::Extended => "extended text",
        Field::Country => "country",
        Field::Rating => "rating",
        Field::Genre => "genre",
        Field::Descriptor => "descriptor",
        Field::Provider => "provider",
        Field::ServiceName => "service name",
        Field::Count(_) => "count",
        Field::Segment(_) => "segment",
    }
}

fn put_range(out: &mut Buffer, field: Field) {
    say!(out; "range {}", field_word(field));
    if let Field::Count(n) | Field::Segment(n) = field {
        say!(out; " {n}");
    }
}

// Appends why the item at this place of a day is not taken.
fn put_member(out: &mut Buffer, place: u16, fault: DayFault) {
    say!(out; "member {place} ");
    match fault {
        DayFault::Range(field) => put_range(out, field),
        DayFault::Overlap(event) => say!(out; "overlap {event}"),
    }
}

/// Appends a reply.
pub fn put_reply(out: &mut Buffer, reply: Reply) {
    match reply {
        Reply::Done => out.say("done"),
        Reply::Foreign(service) => say!(out; "foreign {service}"),
        Reply::Range(field) => put_range(out, field),
        Reply::Overlap(event) => say!(out; "overlap {event}"),
        Reply::Member(place, fault) => put_member(out, place, fault),
    }
}

/// Appends an outcome.
pub fn put_outcome(out: &mut Buffer, outcome: Outcome) {
    match outcome {
        Outcome::Edited(reply) => put_reply(out, reply),
        Outcome::Ticked => out.say("ticked"),
        Outcome::Late(at) => put_moment(out, "late ", at),
        Outcome::Published(number) => say!(out; "published {number}"),
        Outcome::Swapped(number, at) => {
            say!(out; "swapped {number}");
            put_moment(out, " at ", at);
        }
    }
}

// A descriptor: its tag, its length, and at most nine bytes of its body.
fn put_descriptor(out: &mut Buffer, place: &str, descriptor: &RawDesc) {
    let body = descriptor.body.as_slice();
    say!(out; "{place}descriptor {:02x} {} ", descriptor.tag, body.len());
    for byte in body.iter().take(9) {
        say!(out; "{byte:02x}");
    }
}

/// Appends further descriptors, in their order.
pub fn put_further(out: &mut Buffer, place: &str, descriptors: &RawDescs) {
    let descriptors = descriptors.as_slice();
    for descriptor in descriptors {
        put_descriptor(out, place, descriptor);
    }
}
