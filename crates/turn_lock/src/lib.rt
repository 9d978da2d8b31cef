//! A lock that callers take in turns, over one state that keeps a journal.
//!
//! `Turns::turn` runs a job once on the state, while no other job runs; it adds one entry of its
//! caller to the journal, or none (`Turned`). The journal that it finds begins with all that this
//! caller has seen. A `Pass` is the right to take turns under caller numbers: `split` gives some to
//! another pass, `join` takes them back, and a `Receipt` shows one pass what another has seen
//! (`learn`). `Turns::close` gives the state back: its journal has exactly the entries that the
//! callers made, each once, each caller's in order (`Closes`). The lock is two words and one slot
//! of `atomic_table`: 1 while it is held, the journal's length, and the state; `specs/Rule.antt`
//! has the steps that change them and the rule that each keeps. A dropped pass loses its numbers,
//! so that `close` becomes impossible. After `open` no call takes memory, and only `turn` may wait.
//!
//! Tested in `src/tests.rt`: two threads of 1,000 turns and four of 5,000, which a lost wake-up
//! would hang.
//!
//! Not promised: that a wait ends, who is next, and how long a turn takes (`bench/`).
#![tactic(auto)]

mod chronicle;
mod known;
mod pass;
mod rule;
mod turns;

pub use chronicle::{Chronicle, Job};
pub use pass::{Pass, Receipt};
pub use turns::Turns;

#[cfg(test)]
mod tests;
