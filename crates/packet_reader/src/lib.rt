//! The packets of a recording, one by one.
//!
//! [`PacketReader::next`] gives the packets of 188 bytes, however the source is cut into pieces
//! (`packets`, `takes`, `counts`). It stops at the end, at a piece that is no packet, or at a byte
//! after packet 4,294,967,295, and stays stopped (`over`, `sticky`). A failed read has its cause
//! (`cause`), and the bytes not yet handed out are then less than one packet. With any answer but
//! `Failed` the source's count of faults is as it was (`quiet`). A packet is given where it lies in
//! the buffer, and is not copied. When a call begins with a whole packet in the buffer it takes
//! nothing from the source (`lazy`).
//!
//! Tested in `ground_rows`: recordings longer than the buffer, reads of each size, a failed read at
//! each place.
//!
//! The limit of packets is reached by no test.
#![tactic(auto)]

mod reader;
mod stop;

pub use reader::PacketReader;
pub use stop::PacketStop;
