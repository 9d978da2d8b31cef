//! The lines of a script: edits, control lines, commands, and the outcomes that a journal keeps
//! after them (EN 300 468, 5.2.4 and 6.2).
//!
//! [`next_edit`], [`next_control`] and [`next_item`] give exactly the next edit, control line, or
//! command or kept outcome ahead of a reader, or the end, or the stop with its line (`NextOf`).
//! [`read_edit`], [`read_command`], [`read_control`] and [`read_outcome`] do so for the fields of
//! one line (`ReadOf`). No more lines are taken than needed. Where a read fails, the lines that
//! were whole are no whole edit and hold no refusal. What is read is what a desk accepts: numbers
//! as wide as their fields, texts that may be kept, moments that can be written
//! (`read_edits_are_typed`, `items_go_on`). Reading goes on edit by edit and item by item
//! (`edits_go_on`, `items_go_on`). The fields of an edit read back as the edit (`edits_read_back`).
//! [`read_genres`] and [`read_further`] read single fields of an event.
//!
//! Tested in `desk_rows`: edits cut into pieces, control lines and scripts of each form.
//!
//! Not promised: that `Memory` comes only where memory runs out.
#![tactic(auto)]

mod control;
mod edits;
mod heads;
mod items;
mod kept_outcome;
mod laws;
mod script;
mod words;

pub use control::{next_control, read_control};
pub use edits::{next_edit, read_edit};
pub use heads::{Head, read_head};
pub use input_lines::EditStop;
pub use items::{read_further, read_genres, read_item_line};
pub use journal_model::{DayItems, DayText, Edit, Item, Length, RawRating, Stamp};
pub use kept_outcome::read_outcome;
pub use laws::{edits_go_on, edits_read_back, items_go_on, read_edits_are_typed};
pub use script::{
    ScriptItem, next_item, read_caller, read_command, read_feed, read_short, starts_outcome,
};
pub use words::field_word;
