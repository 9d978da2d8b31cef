//! A receiver of packets: which sections count, the tables that it completes, and the guide that
//! they make (ISO/IEC 13818-1, 2.4; EN 300 468, 5.1 and 5.2).
//!
//! A section counts where it is current, is of PAT, PMT, NIT, SDT or event information, of this
//! stream or of another, and its body is one of its table (ISO/IEC 13818-1, 2.4.4; EN 300 468,
//! 5.1). [`counted_section`] gives the section that counts, or `None` exactly where it does not.
//! The completions of a packet list are `dones_of` (`specs/Dones.antt`). [`write_done`] appends the
//! `done` line of a completion, or nothing where memory runs out.
//!
//! [`Receiver::hear`] takes one packet more and gives exactly the completions that this packet
//! brings (`dones`), by the definition over all packets heard. A packet without the sync byte is
//! refused and changes nothing (`sync`, `unchanged`). A section with a broken body is passed over.
//! The time of day comes from the last TDT, and local time from the last TOT. `TooMany` comes only
//! where the counted sections have more than 65,536 keys, and no completion comes where they have
//! (`too_many`, `few`). [`Receiver::guide`] gives exactly the guide of these packets: the needs
//! that are not met, or the whole screen (`guide_of`).
//!
//! Not promised: anything more of a receiver after `Memory` and `TooMany`, and that a repeated
//! section costs no CRC.
#![tactic(auto)]

mod clock;
mod counting;
mod done;
mod known;
mod known_section;
mod latest_keys;
mod offsets;
mod receiver;
mod short;

pub use counting::{CountedSection, counted_section};
pub use done::{DoneKey, Dones, write_done};
pub use guide_screen::{Heard, Need, Needs};
pub use receiver::{HearStop, Receiver};
