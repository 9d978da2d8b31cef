//! The version_number of each sub-table in each airing (EN 300 468, 5.1.1; ISO/IEC 13818-1,
//! 2.4.4.5).
//!
//! An airing is what one swap puts on air: sub-tables and a moment. The version of a sub-table is
//! the number of times that its content changed so far, modulo 32 (`specs/Airings.antt`). A
//! `VersionBook` knows these versions without storing the airings; `assign` gives the versions of
//! one airing more, whatever was aired before (`versions`, `each`). A sub-table that changes from
//! one airing to the next gets another version (`versions_tell_contents`). `kept` gives the last
//! version and content of each key in ascending order, and `VersionBook::of` makes a book that goes
//! on from there. What a book keeps is determined by the airings (`books_keep_the_same`,
//! `books_keep_what_was_carried`).
//!
//! Not promised: that `of` and `kept` fail only where memory runs out.
#![tactic(auto)]

mod book;
mod content;
mod key_version;
mod last_version;
mod laws;

pub use book::VersionBook;
pub use key_version::{KeyVersion, KeyVersions};
pub use laws::{books_keep_the_same, books_keep_what_was_carried, versions_tell_contents};
