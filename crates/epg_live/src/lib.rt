//! A run of `live`: it reads a description, opens the feeds' files, runs feeds, control, player and
//! viewers in threads, and reports.
//!
//! The promise is on [`run_live_files`], in the record `LiveRun`. It says for each status but
//! Memory what the air and the report have (`leaves`, `LeavesLive`). The report has one legal
//! journal, in which the control, each feed and the player have exactly their commands up to their
//! own stops; at a bit rate the player makes a tick before each swap, at the moment that the clock
//! of the air tells. The air is an air of that journal, or the first bytes of one. The completions
//! are what the packets sent give, from a chosen one on; the guide and the views' lines come only
//! where nothing stopped. With a bit rate one more line says whether the cycles of the journal
//! repeat in time what is frequent (`rated`). The status names the first stop in the order air,
//! control, feeds. Where nothing fails the texts decide it (`completes`, `whole`). The paths are
//! opened in order, each once (`asked_for`), and each fault has its cause. Two runs with one report
//! have one journal (`live_reports_tell_journals`), and that is a script which prints it again
//! (`again`).
//!
//! Not promised: that the threads overlap in time, what is left with Memory, and that a feed whose
//! read failed has done all lines that were whole.
#![tactic(auto)]

mod feeds;
mod laws;
mod reporting;
mod run;
mod top;

pub use laws::live_reports_tell_journals;
pub use reporting::{LiveResult, Observed};
pub use run::run_files;
pub use top::run_live_files;
