//! A checkpoint: a journal folded into a few steps, and the text that a headend writes when it
//! stops, and goes on from.
//!
//! After the steps of a checkpoint a desk goes on as after the whole journal. A fresh desk accepts
//! each of these steps, they put nothing on air, and then the desk has the journal's book, moment
//! and latest publication (`checkpoints_are_taken`). The numbers of its publications are lower by a
//! fixed number, the shift. Whatever is asked next gets equal replies and outcomes up to that
//! shift, and puts the same on air (`desks_go_on`). A desk that went on can be folded again
//! (`checkpoints_fold_again`).
//!
//! The text has the count of publications, the clock of the air where the multiplex has a bit rate,
//! these steps, the last version and content of each key that was on air, and the continuity
//! counters. [`write_checkpoint`] appends that text for a desk and for a player at the end of a
//! cycle, or nothing where memory runs out (`text`, `handed`, `kept`); [`write_lean_checkpoint`] does
//! so for a desk that keeps no journal. [`read_checkpoint`] gives exactly the checkpoint that the
//! lines are, as a desk and a player that go on, or the first line that may not stand there (`gives`,
//! `start`). `Failed` comes only where a read failed. The checkpoint of a journal whose commands were
//! read from lines, with fewer publications than 10^18, reads back whatever follows it
//! (`checkpoints_read_back`), at a bit rate where the clock's moment is below 10^18 and its bits are
//! at most 99,999,999.
//!
//! Tested in `checkpoint_rows`: checkpoints of each form, each kind of refused line, desks and
//! players that go on.
//!
//! Not promised: that `Memory` comes only where memory runs out.
#![tactic(auto)]

mod folding_laws;
mod head;
mod laws;
mod part;
mod parts;
mod read;
mod reading;
mod start;
mod text;

pub use folding_laws::{checkpoints_are_taken, checkpoints_fold_again, desks_go_on};
pub use laws::checkpoints_read_back;
pub use read::read_checkpoint;
pub use start::{CheckStop, Start};
pub use text::{write_checkpoint, write_lean_checkpoint};
