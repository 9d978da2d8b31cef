//! Transport stream packets: sections cut into packets, and continuity counters (ISO/IEC 13818-1,
//! 2.4.3.2 and 2.4.4.2).
//!
//! `packet`, `put_packet` and `packets_of` give the packets of a section that begins a packet of
//! its own. A `Packer` gives the packets of sections that share packets. The packets carry exactly
//! the sections (`packets_carry_sections`). `read_packet` says exactly what a packet is by its
//! header. `Counters::stamp` gives a packet the next continuity_counter of its PID. `next` gives
//! that counter without stamping, and `count` counts a packet that has it already. `kept` gives the
//! counter of each PID in ascending order, and `Counters::of` makes counters that go on from there.
//! Only `kept` takes memory. Not promised: that it fails only where memory runs out.
#![tactic(auto)]

mod counters;
mod laws;
mod packer;
mod pid_counter;
mod shape;
mod written;

pub use counters::Counters;
pub use laws::packets_carry_sections;
pub use packer::Packer;
pub use pid_counter::{PidCounter, PidCounters};
pub use shape::{BadPacket, Shape, read_packet};
pub use written::{TsPacket, packet, packets_of, put_packet};
