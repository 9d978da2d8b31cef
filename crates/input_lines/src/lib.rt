//! Lines as records: the fields of a line, the numbers in them, and which lines are passed over.
//!
//! [`fields`] gives exactly the fields of the one record that csv reads of a line. It gives `None`
//! exactly where the line has more than 16,384 bytes, is not UTF-8 or has a control character.
//! [`numeral`] and [`number`] read a field of one to nine digits, [`descriptors_in`] one of descriptors in
//! hexadecimal digits. [`next_record_line`] gives the
//! next line that is not empty and no comment, however the source cuts its text (`NextRecord`).
//! Where a read fails, each line that was whole by then was passed over. `ReadOf` and `NextOf` are
//! the records of clauses for every call that reads a value from lines; [`EditStop`] says why such
//! a call stopped.
//!
//! Not promised: that csv reports only that memory ran out; each of its errors over a slice is
//! taken as that.
#![tactic(auto)]

mod groups;
mod numbers;
mod reading;
mod records;
mod stop;

pub use groups::descriptors_in;
pub use numbers::{is_word, number, numeral};
pub use reading::{next_record_line, passes_over};
pub use records::{LineFields, fields};
pub use stop::EditStop;
