//! The threads of feeds, control, player and viewers at one desk.
//!
//! [`run_hall`] runs these threads for a [`Sender`]: a multiplex, its player, a board, and any sink
//! as the air. What a run did is one record, `HallRan` (`specs/Ran.antt`). It holds however the
//! threads interleave: one legal journal with the commands of each caller, an air of that journal,
//! each caller's stop, and how many cycles were short at a bit rate. A failed write has its cause.
//! `BoardRan` says what was posted on the board, and what the viewers were answered. A swap is
//! posted before its cycle is sent.
//!
//! At a bit rate the clock of the desk goes with the air: before each of its swaps the player makes
//! the tick that its clock tells, and the control makes one before its last publish. `ticks_of`
//! says which ticks these are in a journal (`specs/Ticking.antt`).
//!
//! Tested by whole runs in the programs of rows. Not promised: that the threads overlap in time.
#![tactic(auto)]

mod crew;
mod jobs;
mod live;
mod sender;
mod views;

pub use journal_air::{SendStop, open_player, send_cycle, send_on_air};
pub use live::{Ended, Inputs, LiveStop, and_stop, run_hall};
pub use sender::Sender;
pub use views::ViewJob;
