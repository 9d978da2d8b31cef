//! A receiver that notices lost packets (ISO/IEC 13818-1, 2.4.3.3).
//!
//! A break on a PID is a packet that can't be used, the first load after one, or a load whose
//! continuity_counter does not follow. At a break the receiver reports the loss, and forgets the sections of
//! that PID. So it makes no sub-table of sections from before and after a break. Sub-tables that it completed
//! earlier stay. The counter has four bits, so a loss of 15 or more packets of a PID in a row can look like
//! none.
//!
//! [`Strict::hear`] takes one packet and gives the loss and the sub-tables that are now complete.
//! [`Strict::guide`] gives the guide. `specs/Strict.antt` defines both for a list of packets.
//!
//! Where a part of a recording could not be read, [`Strict::restart`] starts afresh: what comes then is heard
//! as a recording of its own, and the sub-tables that were completed stay. `specs/Earlier.antt` defines what is
//! heard then. No sub-table is made of sections from before and after it (`recordings_are_heard_apart`).
#![tactic(auto)]

mod gaps;
mod laws;
mod strict;

pub use guide_receiver::{Dones, HearStop, Heard};
pub use laws::{recordings_are_heard_apart, unbroken_packets_are_heard_alike};
pub use strict::{Lost, Strict, StrictHeard};
