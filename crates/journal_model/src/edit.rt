// What a feed asks for.
use guide_model::{Genres, RawDescs, Txt};
use si_base::Items;

/// A start_time as it is given (EN 300 468, 5.2.4): the text `YYYY-MM-DDThh:mm:ssZ`. Any bytes are a stamp;
/// `si_time::read_moment` reads those that are a moment.
#[derive(Clone, Copy, PartialEq, Eq)]
pub struct Stamp(pub [u8; 20]);

/// A duration as it is given (EN 300 468, 5.2.4): the text `hh:mm:ss`. Any bytes are a length;
/// `si_time::read_duration` reads those that are a duration.
#[derive(Clone, Copy, PartialEq, Eq)]
pub struct Length(pub [u8; 8]);

/// A day in UTC as it is given: the text `YYYY-MM-DD`. Any bytes are such a text; `si_time::read_day` reads those that
/// are a day.
#[derive(Clone, Copy, PartialEq, Eq)]
pub struct DayText(pub [u8; 10]);

/// A parental rating as it is given (EN 300 468, 6.2.28): a country code and a value, neither held to its limits.
#[derive(Drop)]
pub struct RawRating {
    pub country: Txt,
    pub value: u8,
}

/// An event as a feed gives it (EN 300 468, 5.2.4): its event_id, start and duration, the language code of its texts
/// (6.2.37), its name and short text (short_event, 6.2.37), its extended text (6.2.15), its parental rating where it has
/// one, its genres (content, 6.2.9), and its further descriptors. Nothing but the id is held to its limits yet.
#[derive(Drop)]
pub struct Item {
    pub id: u16,
    pub start: Stamp,
    pub length: Length,
    pub language: Txt,
    pub name: Txt,
    pub short: Txt,
    pub extended: Txt,
    pub rating: Option<RawRating>,
    pub genres: Genres,
    pub descriptors: RawDescs,
}

/// The items of a day, in the order in which they are given.
pub type DayItems = Items<Item>;

/// What a feed asks for: an edit of the service with the service_id that stands first. An event is identified by its
/// service and its event_id.
#[derive(Drop)]
pub enum Edit {
    /// The item's event stands, in place of the event of its id.
    Put(u16, Item),
    /// The event with this event_id stands no longer.
    Withdraw(u16, u16),
    /// No event of the service stands any longer.
    Clear(u16),
    /// The names of the service's provider and of itself from now on (the two texts of a service_descriptor, 6.2.33).
    Name(u16, Txt, Txt),
    /// The events that start on this day stand no longer, and the items are put in their order.
    Day(u16, DayText, DayItems),
}
