//! What programs of rows over whole runs share: the inputs and files that a row says, one call of
//! `run` for all commands, and what is shown of a run.
//!
//! A row is `VIEW ARGUMENTS WORDS ; FAULTS ; INPUT ; FILE ; ..`. A slash stands between the words
//! of a command line, and `-` for no word. The files have the paths 1, 2, ... It has no contract.
#![tactic(auto)]

mod airs;
mod bench;
mod cases;
mod faults;
mod guides;
mod journals;
mod left;
mod sources;
mod table;

pub use airs::put_whole;
pub use bench::Bench;
pub use cases::{Case, words_after};
pub use faults::{Faults, NONE, faults_of};
pub use journals::{caller_of, put_counts, put_ends, put_entries};
pub use left::{Left, Outside};
pub use table::run_sheet;
