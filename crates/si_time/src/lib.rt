//! Moments, days and durations, as texts and in BCD (EN 300 468, 5.2.4, 5.2.5 and annex C).
//!
//! A moment is a number of seconds since Modified Julian Date 0. Each reader gives the exact value,
//! or `None` exactly where there is none (`value`, `some`). Writing and reading are inverse
//! (`written`, `back`). Dates follow the civil calendar (`date`) and annex C (`annex_c`).
//! `has_shape` says whether a text has a given shape, in which `d` stands for any digit. No call
//! takes memory.
#![tactic(auto)]

mod dates;
mod digits;
mod duration;
mod moment;
mod readings;

pub use digits::has_shape;
pub use duration::{duration_bcd, duration_from_bcd, read_duration, write_duration};
pub use moment::{
    Moment, block_of, from_bcd, midnight, read_day, read_moment, to_bcd, write_moment,
};
