//! The text of commands and of a journal, which is a script again, and lines of fields as csv
//! writes them.
//!
//! `write_command` and the calls of [`LineWriter`] append exactly the text that the definitions
//! say. A written row of texts reads back as the row (`rows_read_back`). A readable command reads
//! back as the command, whatever follows it (`commands_read_back`).
//!
//! The report has a journal's text. An entry in it is the line of its command after its caller's
//! number, the lines of a day's items, and the line of its outcome after `=,`. `write_entry`,
//! `write_entry_with` and `write_outcome` append exactly the text that the definitions say, or
//! nothing where memory runs out. A written outcome reads back as the outcome
//! (`outcomes_read_back`), and a readable entry as its step and outcome, whatever follows
//! (`entries_read_back`). Journals whose edits were read from lines are equal where their texts are
//! (`journals_differ_in_their_texts`).
//!
//! Not promised: what `write_command` and the calls of [`LineWriter`] leave where memory runs out.
#![tactic(auto)]

mod command;
mod command_laws;
mod edit;
mod entry;
mod laws;
mod line;
mod outcome;

pub use command::write_command;
pub use command_laws::{commands_read_back, rows_read_back};
pub use entry::{write_entry, write_entry_with};
pub use laws::{entries_read_back, journals_differ_in_their_texts, outcomes_read_back};
pub use line::LineWriter;
pub use outcome::write_outcome;
pub use script_lines::{ScriptItem, items_go_on, next_item, read_outcome};
