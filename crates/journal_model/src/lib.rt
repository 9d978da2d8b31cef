//! The records of a journal: what a feed or a control asks, what the desk answers, and the entry
//! with both (EN 300 468, 5.2.4 and 6.2).
//!
//! An edit keeps its starts, durations and days as the texts that were given; no limit is checked
//! here. The feed book decides what it accepts. `specs/Edits.antt` says what edits have that were
//! read from lines. `specs/Steps.antt` says what a desk may be asked, and which entries can be
//! written. `raise` adds to the number of an outcome's publication, as where a journal goes on.
#![tactic(auto)]

mod control;
mod edit;
mod raising;
mod reply;
mod step;

pub use control::Control;
pub use edit::{DayItems, DayText, Edit, Item, Length, RawRating, Stamp};
pub use raising::raise;
pub use reply::{DayFault, Field, Reply};
pub use step::{Entry, Outcome, Step};
