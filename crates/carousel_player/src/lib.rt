//! The player: for each swap one whole cycle of packets, in which sections of one PID share packets
//! (ISO/IEC 13818-1, 2.4.3 and 2.4.4; EN 300 468, 5.1).
//!
//! `swap` begins the cycle of one airing more, `next_packet` gives its next packet, and
//! `play_cycle` writes the rest of it to a sink. A cycle has the sections of the airing and, after
//! the SDT, the TDT of the swap's moment and, where the player has offsets of local time, the TOT
//! of that moment, in the order of `air_model`. Sections of one PID that follow each other share
//! packets, and none is shared beyond the end of a cycle. It sends no null packet. At the end of a
//! cycle all packets handed out are an air of all airings so far (`begun`, `came`, `done`,
//! `failed`). Fast and Near sections repeat within their bounds, also into a next cycle of the same
//! sub-tables, where no Near or Far section has the PID of the first (`made_airs_are_spaced`). At
//! the end of a cycle `kept` gives the versions, contents and counters that the player keeps.
//! `Player::resume` makes a player that goes on from them.
//!
//! A player says which sections it still has to send (`SectionQueue`). `PackedSections` puts them
//! into packets: neighbours of one PID share packets, and the bytes are those of `each_dense` of
//! `air_model`. A player also says which packets it still has to hand out (`PacketQueue`), and
//! `send_all` writes them to a sink, many at a time, each with its continuity_counter. No call of
//! these takes memory.
//!
//! Proved, and not tried by the gate: a player is unchanged where memory runs out in `swap`.
//!
//! Not promised: how many packets go to the sink in one write.
#![tactic(auto)]

mod batches;
mod cycle;
mod laws;
mod packing;
mod packing_queue;
mod player;
mod queue;

pub use batches::{BATCH, PacketQueue, send_all};
pub use laws::made_airs_are_spaced;
pub use packing::PackedSections;
pub use packing_queue::SectionQueue;
pub use player::Player;
