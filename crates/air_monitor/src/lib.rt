//! A sink that passes packets on to an air, and hears those that the air took.
//!
//! Whoever writes through a [`Monitor`] need not know of it: it takes and fails as its air does.
//! [`Monitor::take_log`] gives the completions of the whole packets that the air took since
//! [`Monitor::open`], from a chosen packet on. These are a prefix of them where memory ran out or
//! there was a key too many (`HasHeard`). [`MonitorLog::guide`] gives the guide of these packets.
//! Where the air does not show its bytes, nothing says which packets these are. A packet that does
//! not begin with 0x47 is passed over, and no line after it is promised.
#![tactic(auto)]

mod done_line;
mod listen;
mod listener;
mod monitor;
mod part;

pub use done_line::{DoneLine, DoneLines};
pub use monitor::{Monitor, MonitorLog};
