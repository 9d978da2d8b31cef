// Events and their parts.
use crate::Txt;
use crate::descriptor::RawDescs;
use si_base::{Copies, Items};
use si_time::Moment;
use std::alloc::AllocError;

/// A class of content: two levels of nibbles and a user byte (EN 300 468, 6.2.9).
#[derive(Clone, Copy, PartialEq, Eq)]
pub struct Genre {
    pub level1: u8,
    pub level2: u8,
    pub user: u8,
}

/// Genres in the order in which they are given.
pub type Genres = Items<Genre>;

/// A parental rating in one country: three letters and a value (EN 300 468, 6.2.28).
#[derive(Clone, Copy, PartialEq, Eq)]
pub struct Rating {
    pub country: [u8; 3],
    pub value: u8,
}

/// An event: its id, start, duration in seconds, the language of its texts (three letters), its texts, where they are
/// given its rating and genres, and its further descriptors (EN 300 468, 5.2.4).
#[derive(Drop)]
pub struct Event {
    pub id: u16,
    pub start: Moment,
    pub seconds: u32,
    pub language: [u8; 3],
    pub name: Txt,
    pub short: Txt,
    pub extended: Txt,
    pub rating: Option<Rating>,
    pub genres: Genres,
    pub descriptors: RawDescs,
}

/// Events, those of one service in ascending order of start.
pub type Events = Items<Event>;

impl Copies for Genre {
    fn copy(&self) -> Result<Genre, AllocError> {
        Ok(*self)
    }
}

impl Copies for Event {
    fn copy(&self) -> Result<Event, AllocError> {
        Ok(Event {
            id: self.id,
            start: self.start,
            seconds: self.seconds,
            language: self.language,
            name: self.name.copy()?,
            short: self.short.copy()?,
            extended: self.extended.copy()?,
            rating: self.rating,
            genres: self.genres.copy()?,
            descriptors: self.descriptors.copy()?,
        })
    }
}
