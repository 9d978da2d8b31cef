//! The place of each event in the schedule of a service, and the present and following event
//! (EN 300 468, 5.2.4).
//!
//! `segments` gives the sections of a schedule. An event stands in the segment of the three hours
//! in which it starts. A section takes the next events while their entries fit 4,078 bytes, and a
//! segment without events before the last used one has one empty section. `sections_in_table` gives
//! the sections of one table, `last_table` which table is the last, and `present_following` exactly
//! the event that is on at a moment and the first that starts after it. Each event of the 64 days
//! stands once, in order (`schedules_have_their_events`). A table's section numbers are exactly
//! those that a receiver needs (`tables_are_whole`). The events of a guide within its limits can be
//! placed (`events_can_be_placed`).
//!
//! Tested in `eit_rows`: midnight, full blocks, the last day and the day after it.
//!
//! Not promised: the time that `segments` takes, and that it fails only where memory runs out.
#![tactic(auto)]

mod blocks;
mod event;
mod laws;
mod piece;
mod present;
mod runs;
mod schedule;

pub use event::EventAt;
pub use laws::{events_can_be_placed, schedules_have_their_events, tables_are_whole};
pub use piece::{Piece, Pieces};
pub use present::present_following;
pub use schedule::{last_table, sections_in_table, segments};
