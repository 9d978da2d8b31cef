//! Laws of what a receiver hears of an air, the whole of it or from any packet on (ISO/IEC 13818-1,
//! 2.4; EN 300 468, 5.1).
//!
//! It has no code. What is sent is heard: a receiver of a whole air hears on each PID, and of each
//! key, exactly the sections of the cycles (`air_is_heard`). Sections of a table that counts still
//! count (`tables_count`). The completions of a key are its version changes, however sections share
//! packets and however often a cycle repeats them (`changes_are_heard`).
//!
//! A receiver may also join an air at any packet and lose none after that (ISO/IEC 13818-1, 2.4.4;
//! EN 300 468, 5.1.1). On each PID it hears exactly the sections that begin and end in the packets
//! that it heard, in order (`joined_air_is_heard`, `joined_repeating_air_is_heard`). A section
//! heard is of an airing whose cycle has a packet among them, and of a cycle that was heard whole
//! each section of its sub-tables is heard, and its time (`cycles_are_heard`). Two contents under
//! one version_number have another version between them, and are at least 32 changes apart
//! (`versions_wrap`).
//!
//! A receiver never completes a table from two contents. It may hear an air from any packet to any
//! other. Each table that it completes has the content and the version of one airing whose cycle
//! has a packet among these (`airs_are_coherent`). This holds for any number of changes, for tables
//! that vanish and return, and for the whole packets of an air that was cut at any byte. Only keys
//! that the airings carry are heard (`heard_keys_are_carried`).
//!
//! An airing may stay on air: a receiver hears all packets of one cycle, and after it only packets
//! of cycles with the same sub-tables. Then the last content that it completed of each key is the
//! one on air, whatever it heard before (`contents_on_air_are_heard`). Where all airings have one
//! PAT, one NIT, one SDT of the stream, the same SDTs of other streams and the same offsets of
//! local time, it has these keys, these offsets and a moment (`what_is_on_air_is_heard`).
//!
//! Not promised: in which packet a completion comes, and that all tables of a receiver's guide are
//! of one publication; the laws of an airing that stays on air say when they are.
#![tactic(auto)]

mod coherence_laws;
mod exactness_laws;
mod hearing_laws;
mod joining_laws;

pub use coherence_laws::{airs_are_coherent, heard_keys_are_carried};
pub use exactness_laws::{contents_on_air_are_heard, what_is_on_air_is_heard};
pub use hearing_laws::{air_is_heard, changes_are_heard, tables_count};
pub use joining_laws::{
    cycles_are_heard, joined_air_is_heard, joined_repeating_air_is_heard, versions_wrap,
};
