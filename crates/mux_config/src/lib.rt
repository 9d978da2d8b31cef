//! The description of a multiplex: its network, its stream, its services, the offsets of local time,
//! the other streams of the network and further descriptors (EN 300 468, 5.2.1, 5.2.3 and 5.2.6).
//!
//! [`read_mux`] gives the multiplex that the lines describe, which is sound, or exactly their first
//! fault; lines after `end` are left unread. That holds however the source cuts its text. A source
//! that does not show its text gives the lines that make the multiplex or the fault, and no more
//! than needed are taken. Where a read fails, the lines that were whole have neither a fault nor
//! the end. A line with which the records pass the room in a section is a fault (`is_full` of
//! `specs/Taken.antt`). Each whole description makes a sound multiplex, whose names may be kept
//! (`whole_descriptions_are_sound`, `described_texts_are_kept`).
//!
//! Tested in `desk_rows`: descriptions cut into pieces. Not promised: how long a description takes.
#![tactic(auto)]

mod fault;
mod kinds;
mod laws;
mod read;
mod room;
mod stop;
mod whole;

pub use fault::{MuxFault, Word};
pub use input_lines::{LineFields, fields};
pub use laws::{described_texts_are_kept, whole_descriptions_are_sound};
pub use mux_model::{Mux, MuxService, MuxServices, Other, Others, RemoteService, RemoteServices};
pub use read::read_mux;
pub use stop::MuxStop;
