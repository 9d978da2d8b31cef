//! The bodies of PAT, PMT, NIT, SDT and event information sections, and the entries in them
//! (ISO/IEC 13818-1, 2.4.4.3 and 2.4.4.8; EN 300 468, 5.2.1, 5.2.3 and 5.2.4).
//!
//! An entry is fields, four bits, and descriptors after a length of 12 bits. The loops of PMT, NIT,
//! SDT and EIT are lists of such entries, with fields of different sizes. [`split_entry`] cuts an
//! entry off the front of bytes, or gives `None` exactly where they end within it. [`read_entries`]
//! gives the values of a whole loop of a kind of entries ([`EntryKind`]), or `None` exactly where
//! bytes are no such loop ([`entries_are_read`]). [`are_entries`] says which of the two it is,
//! without taking memory.
//!
//! `write_pat`, `write_pmt`, `write_nit` and `write_sdt` give the body of a section, and
//! `write_eit` the body of events. `read_pat`, `read_pmt`, `read_nit`, `read_sdt` and `read_eit`
//! give the one value of a body, or `None` exactly where it has none. Written bodies read back
//! (`written_programs_read_back`, `written_networks_read_back`), those of events with all texts as
//! `Text` (`written_events_read_back`). `is_pat_body`, `is_pmt_body`, `is_nit_body` and
//! `is_sdt_body` say whether a body is read, without taking memory, and `is_eit_body` without
//! making events.
//!
//! `service_len` and `stream_len` give the sizes of the entries of services and streams, for whoever
//! splits them into sections. An event's entry has the size that `event_len` gives. `bodies_have_their_sizes` says how long the
//! bodies of NIT and SDT are.
//!
//! Not promised: how much memory a body of events takes.
#![tactic(auto)]

mod eit;
mod entry;
mod entry_laws;
mod event_laws;
mod network_laws;
mod nit;
mod pat;
mod pmt;
mod program_laws;
mod read;
mod reading;
mod sdt;
mod shown_event;
mod writing;

pub use eit::{Eit, EitHead};
pub use entry::{RawEntry, split_entry};
pub use entry_laws::entries_are_read;
pub use event_laws::{events_are_typed, written_events_read_back};
pub use network_laws::{bodies_have_their_sizes, written_networks_read_back};
pub use nit::{Nit, NitStream, NitStreams, is_nit_body, read_nit, stream_len, write_nit};
pub use pat::{PatEntries, PatEntry, is_pat_body, read_pat, write_pat};
pub use pmt::{HeardPmt, Pmt, is_pmt_body, read_pmt, write_pmt};
pub use program_laws::written_programs_read_back;
pub use read::{EntryKind, are_entries, read_entries};
pub use reading::{is_eit_body, read_eit};
pub use sdt::{Sdt, SdtService, SdtServices, is_sdt_body, read_sdt, service_len, write_sdt};
pub use writing::write_eit;
