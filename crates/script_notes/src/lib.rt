//! What is wrong with a script line, how a script is read past its lines at fault, and the report
//! that is written as a script is played.
//!
//! [`next_noting`] gives exactly the next item of a script, or the next line at fault with its
//! reason, as `first_noting` says it of the lines ahead and of what is held (`NotingOf`). It takes
//! no line after one at fault. The lines attached to that one are passed over: those that begin
//! with `item` or `=`. Another line in place of an item is read as a command. [`put_why`] appends
//! exactly the words of a reason (`why_text`), which are printing characters
//! (`comments_are_printing`). There is a reason exactly where a line is no command, no outcome or
//! no item in its place (`why_is_exact`). Notings go on one by one, and what is read is typed as
//! the items of a script are (`notings_go_on`).
//!
//! Each piece of that report is an entry of the journal, or a comment, which [`put_comment`]
//! appends (`Piece`). The whole entries of a text are its longest front that ends with the line of
//! an outcome (`whole_entries_are_longest`). Of a report that was cut anywhere they are the text of
//! its whole pieces up to the last entry (`whole_entries_are_kept`).
//!
//! Tested in `note_rows`: each form of a comment, and what is read after it.
//!
//! Not promised: that `Memory` comes only where memory runs out.
#![tactic(auto)]

mod comment;
mod day;
mod head;
mod laws;
mod noting;
mod reading;
mod report_laws;
mod why;
mod why_fields;
mod why_line;
mod why_text;
mod words;

pub use comment::put_comment;
pub use laws::{comments_are_printing, notings_go_on, why_is_exact};
pub use noting::{Held, Noting};
pub use reading::next_noting;
pub use report_laws::{whole_entries_are_kept, whole_entries_are_longest};
pub use why::{FieldName, LineWord, Why};
pub use why_text::put_why;
