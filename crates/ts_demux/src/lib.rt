//! The sections that packets carry, whatever packets come (ISO/IEC 13818-1, 2.4.3.3 and 2.4.4).
//!
//! `Demux::hear` takes one packet more and gives exactly the sections that it ends, in order
//! (`heard`). The definition speaks of the whole list of packets so far, which is not stored. One
//! PID's sections are heard as if no other PID were there (`order_is_kept`). Any part of packets
//! that carry sections on a PID gives exactly those that begin and end in it, however they share
//! packets (`carried_is_heard`). `Demux::follows` says whether a packet continues the last one of
//! its PID. No section is heard over a break, so a PID is heard part by part (`breaks_split`).
//!
//! Tested in `wire_rows`: 40 lists of packets with the sections that the standard gives.
//!
//! Not promised: how much memory it takes.
#![tactic(auto)]

mod demux;
mod headers;
mod joining;
mod laws;
mod places;
mod section;
mod slot;

pub use demux::Demux;
pub use laws::{breaks_split, carried_is_heard, order_is_kept};
pub use section::{RawSection, RawSections};
