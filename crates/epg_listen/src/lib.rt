//! A run of `listen`: it hears the pieces of a recording, and reports each table that is
//! completed, then the guide.
//!
//! The promise is on [`run_listen_as`], in the record `ListenRun`, by the options with which it hears;
//! [`run_listen`] hears without options. The pieces of a recording are its packets, up to the first
//! that is none. With `resync` they are what `packet_finder` finds in it, and a line `junk` stands
//! where bytes were passed over. With `strict` a strict receiver hears them: each break is reported
//! too, and where bytes were passed over it starts afresh. With Done the report has the lines of all
//! pieces and the text of their guide: the needs that are not met, or else the whole screen. With
//! `partial` these needs come first, and then what the receiver holds of each table, whole or not
//! (`guide_parts`). A recording with a byte, in which no packet is found, is broken. By
//! [`packets_are_reported`] the report without options is the completions of all packets and the
//! guide that was heard of them. By [`whole_guides_are_reported_alike`] a whole guide is the same with
//! `partial`, if of events that the SDT says are not sent nothing is held but whole tables, and no
//! table of a schedule without the first one.
//!
//! Tested by whole runs: a completion is reported before the next packet is read; recordings of
//! other generators.
//!
//! Not promised: what is left after Memory, and that it comes only where memory runs out.
#![tactic(auto)]

mod guide;
mod laws;
mod lines;
mod listen;
mod listener;
mod piece_reader;
mod resync;
mod run;

pub use laws::{packets_are_reported, whole_guides_are_reported_alike};
pub use run::{run_listen, run_listen_as};
