//! A run of `soak`: a load of its own making, run as `live` runs it, and a summary, with laws of
//! that load.
//!
//! The promise is on [`run_soak`], in the record `SoakRun`. The texts of input and feeds come from
//! the number of the load; the run has three cycles and is heard from packet 0 on. With Done, where
//! the air shows what it took, the summary is the one that the number determines: all edits done
//! and the guide whole, however the threads interleave. What was sent is an air of the journal, or
//! the first bytes of one where the air failed. Where neither air nor report fails the status is
//! Done, if memory lasts.
//!
//! The laws say what the texts of `si_workload` are read as. The description makes the multiplex
//! `soak_mux`, the control has three pairs of a tick and a publish, and each feed has 60 edits
//! (`made_description_is_read`, `made_feeds_are_read`). In each journal of this load every edit is
//! done, in whatever order the feeds interleave (`made_edits_are_done`). At the end there are 120,
//! and the guide has as many events as the feeds have lines of items. The journal of a whole run
//! has 132 entries (`made_runs_are_counted`). However the callers interleave, the schedules on the
//! screen after a whole run have as many events as the feeds' texts have lines of items
//! (`made_runs_are_shown`).
//!
//! The made texts are whole, so they decide that the status of a run of `live` over them is Done
//! where nothing fails (`made_texts_are_whole`). Such a run of three cycles with status Done has a
//! journal of 132 entries, and each of its 120 edits is done (`done_runs_are_counted`).
//!
//! Tested by whole runs: the summaries of some numbers, a failing air or report.
//!
//! Not promised: that the threads overlap in time, and what is left with Memory.
#![tactic(auto)]

mod feed_texts;
mod load;
mod summary;
mod top;
mod workload_laws;
mod workload_run_laws;
mod workload_screen_laws;

pub use top::run_soak;
pub use workload_laws::{
    made_description_is_read, made_edits_are_done, made_feeds_are_read, made_runs_are_counted,
};
pub use workload_run_laws::{done_runs_are_counted, made_texts_are_whole};
pub use workload_screen_laws::made_runs_are_shown;
