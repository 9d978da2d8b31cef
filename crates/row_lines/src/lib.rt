//! What the test programs share: rows as their lines are read and compared, a row as it is read word
//! by word, bytes as they grow, the notation of bytes, numbers and texts, and a gate that holds
//! places of a run of threads until others are passed.
//!
//! A row is `CALL ARGUMENTS = ANSWER`. It has no contract. A row that cannot be read is a failure,
//! and so is one that gives another answer.
#![tactic(auto)]

mod buffer;
mod gates;
mod line;
mod lines;
mod lists;
mod notation;
mod sheet;
mod spelled;
mod table;
mod texts;
mod world;

pub use buffer::Buffer;
pub use gates::Holding;
pub use line::{MOST, Row, quoted, repeated};
pub use lines::{Cut, Lines, NEVER, WHOLE, numbered, reader, tell_in_pieces};
pub use lists::{each_part, each_word, packet_in, put_appended, put_made, put_read};
pub use notation::{moment_text, parts_counted, put_in_short, runs_counted, text_of, written_out};
pub use sheet::Sheet;
pub use spelled::put_spelled;
pub use table::run_rows;
pub use texts::{code, code_in, duration, moment, put_code, put_shown, text};
pub use world::World;
