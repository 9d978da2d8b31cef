//! How a run ends: its status, its exit code, and what the report says of it.
//!
//! [`Status::code`] gives the code of each status, and [`put_fault_line`] appends its line
//! (`fault_text` of `specs/Texts.antt`). [`journal_of`] gives the text of a desk's journal, with
//! which a report begins. [`put_rate_line`] appends what it says of the bit rate
//! (`rate_lines` of `specs/Rates.antt`).
#![tactic(auto)]

mod ending;
mod fault;
mod journal;
mod rate;
mod status;

pub use ending::ended;
pub use fault::{out_of_memory, put_fault_line};
pub use journal::journal_of;
pub use rate::put_rate_line;
pub use status::{Origin, Outlet, Status};
