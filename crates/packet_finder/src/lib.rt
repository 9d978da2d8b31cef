//! The packets found in a recording that may be damaged, and how many bytes stand between them.
//!
//! [`Finder::next`] gives the pieces of a recording, however the source is cut into reads (`pieces`,
//! `takes`, `counts`): its packets of 188 bytes, and before a packet how many bytes were passed over.
//! Packets may be 188, 192 or 204 bytes apart. In sync a packet is given by its sync byte alone, as
//! soon as its 188 bytes have come. Where sync is lost, bytes are passed over up to the next row: a
//! packet with two more sync bytes at that distance, or with the end. The finder stops at the end, or
//! at a byte after packet 4,294,967,295, and stays stopped (`over`, `sticky`). A failed read has its
//! cause (`cause`), and of the bytes that have come no piece is left out. Where a piece is found in the
//! bytes that are held, nothing is taken from the source (`lazy`).
//!
//! By [`finding_goes_on`] it finds no fewer packets than a reader of whole recordings, by
//! [`bytes_are_found`] the pieces and the tails of packets are the recording, and by [`air_is_found`]
//! three packets in a row end the bytes passed over.
//!
//! Tested in `ground_rows`: recordings with bytes lost, added and changed, reads of each size, a failed
//! read at each place.
//!
//! The limits of packets and of bytes passed over are reached by no test.
#![tactic(auto)]

mod finder;
mod found;
mod laws;
mod rows;
mod stop;

pub use finder::Finder;
pub use found::Found;
pub use laws::{air_is_found, bytes_are_found, finding_goes_on};
pub use stop::FindStop;
