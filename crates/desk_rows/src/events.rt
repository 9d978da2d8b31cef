// Guides in words.
use crate::edits::put_genre;
use crate::words::{put_further, put_moment};
use guide_model::{Event, Guide, ServiceGuide};
use row_lines::{Buffer, say, text_of};
use std::fmt::Write;

// An event without its rating, its genres and its further descriptors.
fn put_front(out: &mut Buffer, event: &Event) {
    say!(out; ": event {}", event.id);
    put_moment(out, " at ", event.start);
    say!(out; " for {} s in {}", event.seconds, text_of(&event.language));
    let (name, short, extended) = (&event.name, &event.short, &event.extended);
    say!(out; " \"{}\" \"{}\" \"{}\"", name.as_str(), short.as_str(), extended.as_str());
}

fn put_event(out: &mut Buffer, event: &Event) {
    put_front(out, event);
    if let Some(rating) = &event.rating {
        say!(out; ", rated {} {}", text_of(&rating.country), rating.value);
    }
    for genre in event.genres.as_slice() {
        put_genre(out, genre);
    }
    put_further(out, ", ", &event.descriptors);
}

/// Appends the names and events of a service; of more than nine events their number.
pub fn put_service(out: &mut Buffer, service: &ServiceGuide) {
    let (provider, name) = (service.provider.as_str(), service.name.as_str());
    say!(out; "; service {} \"{provider}\" \"{name}\"", service.service);
    let events = service.events.as_slice();
    if 9 < events.len() {
        return say!(out; ": {} events", events.len());
    }
    for event in events {
        put_event(out, event);
    }
}

/// Appends a guide.
pub fn put_guide(out: &mut Buffer, guide: &Guide) {
    put_moment(out, "guide of ", guide.moment);
    for service in guide.services.as_slice() {
        put_service(out, service);
    }
}
