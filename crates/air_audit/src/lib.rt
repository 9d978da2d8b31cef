//! The auditor, at a bit rate or without one: whether recorded packets are an air of a list of
//! airings, whoever made them (ISO/IEC 13818-1, 2.4.3 and 2.4.4).
//!
//! A `Checker` is the auditor without a bit rate. It holds a list of airings, to which `swap` adds
//! one, and the packets accepted so far, a prefix of an air of that list without null packets.
//! `check` accepts a packet exactly where the packets with it are still such a prefix. Otherwise it
//! gives the first of five rules that the packet breaks, and changes nothing (`accepted`,
//! `exactly`, `rule`, `kept`). `at_end` is true exactly where the packets accepted are an air of
//! the list. Packets that go on consistently can be completed to an air, and no others
//! (`consistent_is_prefix`). While a cycle has not ended, a longer list accepts the same next
//! packets (`longer_lists_agree`). Lists and packets determine what is still to come, and so the
//! rule (`one_is_to_come`). `check` refuses a null packet by the rule `Pid`, and `check_past_nulls`
//! passes over it. So an air in which null packets stand anywhere is accepted
//! (`null_packets_are_passed_over`).
//!
//! At a bit rate an airing list has one air: that of the player (`cycle_player`). A `TimedChecker`
//! holds a list of airings, to which `swap` adds one, and the packets accepted so far, which are
//! the first ones of the air. `check` accepts a packet exactly where it is the next one. Otherwise
//! it gives the first of five rules by which the two differ (`rule_between`), and changes nothing.
//! Where null packets are passed over, those of the air are not asked for, and the packets accepted
//! are the others. A longer list begins with the air of a shorter one, and a whole air has no next
//! packet (`timed_lists_agree`).
//!
//! A `CycleChecker` is a `Checker`, to which each air of the list is right, or a `TimedChecker`, to
//! which the one air at the rate is, and has the promises of the one that it is. `AreAirAt` says
//! which packets are such an air, `BeginAirAt` which are first ones of one, and `BreaksAt` by which
//! rule the next one is refused.
//!
//! Tested in `publication_rows`: recordings made by hand, and a player's air changed bit by bit.
//!
//! Not promised: how often sections of an air that a `Checker` accepts repeat, and that `swap`
//! fails only where memory runs out.
#![tactic(auto)]

mod checker;
mod cycle_checker;
mod header;
mod lanes;
mod laws;
mod linking;
mod payload;
mod progress;
mod rules;
mod timed_checker;
mod timed_laws;

pub use air_model::Rule;
pub use checker::Checker;
pub use cycle_checker::CycleChecker;
pub use header::is_null;
pub use laws::{
    consistent_is_prefix, longer_lists_agree, null_packets_are_passed_over, one_is_to_come,
    whole_airs_end,
};
pub use timed_checker::TimedChecker;
pub use timed_laws::timed_lists_agree;
