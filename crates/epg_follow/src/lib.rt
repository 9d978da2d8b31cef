//! A run of `play --follow`, which plays a script as `play` does and reports the journal as it
//! happens, and laws of going on after a kill.
//!
//! [`follow_item`] follows one line. A command is done at the desk, its entry is reported, and then
//! a swap sends its cycle. An outcome is compared with the one that was reported last. A line at
//! fault is passed over with a comment (`--keep-going`), or ends the script. Its clause has the
//! order: a piece that the report did not take whole leaves the air as it was, and a cycle follows
//! its whole entry (`ItemDid`). [`follow_rest`] follows a script to its end. The desk keeps no
//! journal (`LeanDesk`), so memory goes by what stands.
//!
//! The promises on [`run_followed`] and [`run_follow_resumed`] are the records `FollowRun` and
//! `FollowResumeRun` (`specs/Runs.antt`). They say what the air and the report have with each
//! status, also with Memory (`FollowsBehind`): some first pieces of the script (`followed` of
//! `specs/Course.antt`) and their cycles. Where the air failed, it has a proper front of the cycle
//! of a last swap. Where the report failed, it has a proper front of what comes next, and the air
//! has nothing of that. The report ends with the comment on the line that ended the script, at a
//! bit rate the line of the rate, and the line of the fault. The input may have 2^64 - 2 bytes.
//! With `--resume` all goes on from a checkpoint, as with `play`; a file that is none is refused
//! before any step is done. What was sent is coherent, exact and spaced, also where a cycle was
//! cut: with `--resume` it and the air before it in a row.
//!
//! A script without a line at fault is followed as `play` plays it (`following_is_playing`), and
//! with `--keep-going` no line at fault ends one (`keeping_goes_on`). Where nothing outside of a run
//! fails, the script decides its status, but for want of memory (`followed_runs_complete`).
//!
//! A run may be killed at any moment. `Stands` says what its report and its air have then: whole
//! pieces and a front of the next one, and the cycles of those pieces, but perhaps only a front of
//! a last swap's cycle. The whole entries of the report (`whole_entries` of `script_notes`) are a
//! script (`reports_are_scripts`). Folded, they make the very cycles that were on air
//! (`folds_make_what_was_aired`), since cycles are determined by their airings
//! (`made_cycles_are_one`). So the checkpoint is that of what stood, also where it was folded by
//! parts (`parts_fold_as_the_whole`).
//!
//! A run from that checkpoint goes on (`runs_go_on`), and bridges the kill (`kills_are_bridged`):
//! one journal and one air, of which only the last packets of the cut cycle are lost. Counters
//! count on over these, and no version has two contents within 31 airings (`near_versions_differ`).
//! Where at most 14 packets of each PID are lost, a strict receiver hears both runs as one air.
//!
//! What a run leaves that ended, or whose report or air failed, or that ran out of memory, stands so
//! too (`what_is_left_stands`), also where the report has what a run prints at its end
//! (`endings_have_no_outcome`).
//!
//! Tested by whole runs in `play_rows`: lines at fault of each kind, each write and each read that
//! fails in turn, how much the air has after a failed write, the order of entries, cycles and
//! reads, and journals that are folded and gone on from.
//!
//! Not promised: that `Memory` comes only where memory runs out; that what stands at any moment
//! within a run is as `Stands` says, but for what a run leaves whose report or air fails there;
//! that anything is on the disk when it was written; what a power cut leaves, and what others lost
//! of the air after the sink; how long the headend was silent between two airs.
#![tactic(auto)]

mod finish;
mod follower;
mod item;
mod laws;
mod recovery_laws;
mod run;
mod stop;

pub use follower::Follower;
pub use item::follow_item;
pub use laws::{followed_runs_complete, following_is_playing, keeping_goes_on};
pub use recovery_laws::{
    endings_have_no_outcome, folds_make_what_was_aired, kills_are_bridged, made_cycles_are_one,
    near_versions_differ, parts_fold_as_the_whole, reports_are_scripts, runs_go_on,
    what_is_left_stands,
};
pub use run::{follow_rest, run_follow_resumed, run_followed};
pub use stop::{FollowStop, met_of};
