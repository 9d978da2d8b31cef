//! What a line of the description of a multiplex says.
//!
//! [`found_line`] gives exactly the record that a line spells (`found_line` of `specs/Fields.antt`), or tells that it
//! spells none, or that one of its fields is outside its range. What it gives is in its range, with texts that may be
//! kept (`found_records_are_fine`). Whether a record has a place among others is told by `mux_config`.
//!
//! Tested in `desk_rows`, by descriptions.
#![tactic(auto)]

mod further;
mod laws;
mod numbers;
mod record;
mod rows;

pub use laws::found_records_are_fine;
pub use record::{Numbered, Place, Record, RecordFound};
pub use rows::found_line;
