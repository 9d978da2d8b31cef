//! The top call [`run`]: it reads the command words, and does what they spell.
//!
//! The promise of the program is on `run`. `Usage` comes exactly where the words spell no command,
//! and nothing is then read, opened or sent. For each command one record says all of its run:
//! `PlayRun`, `FoldRun`, `ResumeRun`, `FollowRun` and `FollowResumeRun` (with `--keep-going` or
//! without), `ListenRun` (however it hears), `LiveRun`, `SoakRun` and `AuditRun`, each in the crate
//! of its command. With `--long` the first three are within the limit of a long script
//! (`PlayRunWithin`, `FoldRunWithin` and `ResumeRunWithin`). `listen` and `audit` send nothing; only `live`, `audit` and `play --resume` open
//! files; `soak` reads no input (`air_kept`, `opener_kept`, `input_kept`). `cause`, `open_cause` and
//! `report` hold for all words: each fault has its cause.
//!
//! Tested by whole runs, and by those of the examples.
#![tactic(auto)]

mod top;

pub use epg_follow::{run_follow_resumed, run_followed};
pub use epg_listen::{run_listen, run_listen_as};
pub use epg_live::live_reports_tell_journals;
pub use epg_play::{
    journals_play_again, outcomes_are_compared, play_is_heard, reports_tell_journals, run_folded,
    run_play, run_resumed,
};
pub use epg_report::{Origin, Outlet, Status};
pub use top::run;
