//! What programs of rows over recordings share: the scripts and recordings that rows say, and their
//! changes.
//!
//! It has no contract. What cannot be read is None.
#![tactic(auto)]

mod changes;
mod nulls;
mod packets;
mod picks;
mod texts;

pub use changes::{change_all, put_changed};
pub use packets::{pid_of, put_again, put_fronts, put_pmts, spelling};
pub use picks::{put_picked, put_range};
pub use texts::{cut, description, front_lines, number, put_large, put_lines_of, put_names};
