//! A run of `audit`: it reads a script as `play` does, and compares a recording with the cycles of
//! its swaps.
//!
//! The promise is on [`run_audit`], in the record `AuditRun`. The status is Done exactly where the
//! script is whole and the recording is an air of its journal, whoever made it, if nothing fails
//! and memory lasts. So whatever a receiver completes of it is of one airing, and after a whole
//! cycle the guide is the one published. For any other recording the report names the first packet
//! that differs and the rule that it breaks, or says that the recording is too short or too long.
//! Where null packets may stand in the recording, they are passed over, and counted (ISO/IEC
//! 13818-1, 2.4.3.3).
//!
//! Tested by whole runs: the airs of rows and examples, whole, short and changed; files that cannot
//! be opened or read.
//!
//! At a bit rate the recording is held against the air of the player, packet by packet. Where null
//! packets may stand, those of the air need not.
//!
//! Not promised: how often sections repeat, what is left after Memory, and that it comes only where
//! memory runs out.
#![tactic(auto)]

mod cycles;
mod ending;
mod recording;
mod run;

pub use run::run_audit;
