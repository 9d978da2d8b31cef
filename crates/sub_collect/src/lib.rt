//! The sub-tables that heard sections complete (ISO/IEC 13818-1, 2.4.4; EN 300 468, 5.1.1).
//!
//! `Collector::take` counts one section more, and gives a completion exactly where the sections of
//! one version now hold all that is needed, with a version or content that is new (`shown`). It
//! refuses the section that would bring key 65,537 (`too_many`), and an error changes nothing
//! (`unchanged`). `latest` gives the last completion of a key, and `keys` how many keys there are.
//! `repeats` is true exactly where the run of the key holds the section already (`held`): to count
//! it would change nothing and show nothing (`repeated`). Completions of a key do not depend on
//! other keys (`completions_by_key`). A version that was carried whole completes
//! (`whole_versions_complete`, `runs_complete_their_content`), and is shown once
//! (`contents_are_shown_once`). For event information the needed sections go by segments. `forget`
//! drops the sections of a PID, and `forget_all` those of every PID, but no completion; each
//! completion is made of sections taken since then (`marks_forget`). `part` gives what is held of a
//! key though it may not be whole: the latest completion, or else what its run holds of the needed
//! numbers; a whole run it gives whole (`whole_is_held`). `keys_in_order` gives the keys.
//!
//! Not promised: that a repeated section costs one comparison.
#![tactic(auto)]

mod collector;
mod completed;
mod laws;
mod needed;
mod parts;
mod run;

pub use collector::{Collector, TakeStop};
pub use completed::Completed;
pub use laws::{
    completions_by_key, completions_go_on, contents_are_shown_once, marks_forget,
    runs_complete_their_content, versions_part_runs, whole_versions_complete,
};
pub use parts::{Part, whole_is_held};
