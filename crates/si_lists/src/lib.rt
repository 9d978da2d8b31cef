//! Lemmas on lists, options, results and truth values that `std` lacks and that say nothing about
//! DVB, and the longest runs of a list.
//!
//! It has no code, only lemmas, definitions and one law. A lemma moves here as soon as a second
//! crate needs it.
//!
//! `specs/Runs.antt` says how things in order are split into groups within a limit, each as long as
//! possible. Things that fit by themselves are split so that the groups join to the whole, each is
//! within the limit, and none could take one thing more (`runs_are_longest`).
#![tactic(auto)]

mod laws;

pub use laws::runs_are_longest;
