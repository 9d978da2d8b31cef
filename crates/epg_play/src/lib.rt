//! A run of `play`: it reads a script, keeps one desk, sends a cycle at each swap, and reports the
//! journal, or with `--fold` the checkpoint. With `--resume` it goes on from a checkpoint. All are
//! one run (`play_on` of `run.rt`), from a head-end that did nothing yet or from a file, with one of
//! two reports: the entries that were made, or the checkpoint of the desk.
//!
//! The promise is on [`run_play`]: its clause `run` is the record `PlayRun`, which says what the
//! air and the report have with each status but Memory. With Done the script is whole, each kept
//! outcome is the desk's, the air has the whole cycles, and the report has the journal. With a
//! fault the air and the report have what was done before it. At a bit rate the report has one more
//! line, after the journal and before the fault: whether the cycles repeat in time what is
//! frequent, or how many do not and which rate would have done (`rate_line` of `epg_report`). The
//! multiplex and the journal decide it. Without a rate there is no such line
//! (`plain_reports_are_journals`). What `play` sends, `listen` hears (`play_is_heard`). A printed
//! journal is a script that plays again (`journals_play_again`). Equal reports of `play` have one
//! journal, one line on the rate and one fault line, where the edits were read from lines
//! (`reports_tell_journals`). [`do_item`] and [`play_rest`] play a script at its desk
//! ([`ScriptDesk`]), which keeps no journal, but the entries that the report has.
//!
//! The promises on [`run_folded`] and [`run_resumed`] are the records `FoldRun` and `ResumeRun`
//! (`specs/CheckpointRuns.antt`). With `--fold` the report is the checkpoint of the run's journal and
//! air, and no entry is kept, so memory goes by what stands. Such a checkpoint is never refused
//! (`checkpoints_are_never_refused`). With `--resume` the entries go on from that journal, and the
//! packets make one air with those before. At a bit rate the report's line is that of the new cycles
//! (`new_text` of `specs/Behind.antt`). Folded again, the report is the checkpoint of both runs
//! together. A file that is no checkpoint is refused before any step is done. What was sent is
//! coherent, exact and spaced, also where a cycle was cut: with `--resume` it and the air before it in
//! a row.
//!
//! [`run_play_as`] and [`run_resumed_as`] are the same runs of a script that may be long: their
//! records are `PlayRunWithin`, `FoldRunWithin` and `ResumeRunWithin`, which take the limit of the
//! script's bytes. Those of a text are `PlayRun`, `FoldRun` and `ResumeRun`.
//!
//! Tested by whole runs: how much the air has after a failed write; that a cycle is sent before the
//! next line is read; scripts cut after each swap, joined again and compared with the whole; refused
//! checkpoints; files that cannot be opened or read.
//!
//! Not promised: what is left after Memory, and that it comes only where memory runs out; how long
//! the headend was silent between two airs.
#![tactic(auto)]

mod begin;
mod desk;
mod item;
mod laws;
mod limit;
mod play;
mod played;
mod report;
mod run;
mod stop;

pub use begin::{new_start, start_at};
pub use desk::ScriptDesk;
pub use item::{ItemDone, agree, do_item};
pub use laws::{
    checkpoints_are_never_refused, journals_play_again, outcomes_are_compared,
    plain_reports_are_journals, play_is_heard, reports_tell_journals,
};
pub use limit::{LONG_LIMIT, PlayAs};
pub use play::play_rest;
pub use played::Course;
pub use run::{run_folded, run_play, run_play_as, run_resumed, run_resumed_as};
pub use stop::{PlayStop, mux_stop_of, status_of};
