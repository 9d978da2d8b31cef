//! One desk for many callers, and the jobs that read lines for it.
//!
//! A [`Hall`] guards the desk by a `turn_lock`. Each caller has a [`HallPass`]; `edit`, `tick`,
//! `publish` and `swap` add one entry of that caller, whose outcome is their answer (`Made`). What
//! a caller has seen is a legal journal. Lack of memory adds no entry (`Idle`). Where a source
//! shows its text, `feed` and `control` do its commands, each once, in order, up to the reader's
//! own stop, whatever other callers do between (`ToldDid`). Where a read fails they have done
//! exactly the lines that were whole by then (`TakenDid`). `close` gives the desk; its journal is
//! legal and has exactly what the callers made.
//!
//! Tested in `live_rows`: feeds and controls with bad lines, a failing read at each place, callers
//! in two threads, the places of the gate.
//!
//! Not promised: that a turn is ever got, and that the gate is passed before and after each edit.
#![tactic(auto)]

mod control;
mod feed;
mod hall;
mod state;

pub use hall::Hall;
pub use state::{HallPass, HallState};
