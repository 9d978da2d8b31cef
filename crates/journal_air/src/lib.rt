//! What a journal puts on air, the guide that a receiver shows of it, and the calls that send it
//! (ISO/IEC 13818-1, 2.4.4; EN 300 468, 5.2).
//!
//! `airings` is the list of what the swaps of a journal put on air, one airing for each: the
//! sub-tables of the publication that the swap names, and its moment. Each airing of a legal
//! journal can be sent and heard, and receivers count all its tables (`airings_can_be_heard`). All
//! airings together carry at most 2,258 keys (`airings_have_few_keys`).
//!
//! `screen_of` is the screen of a publication's guide, with the other streams of the network and
//! their services. A receiver that has a publication's bodies, of schedules only its sections, and
//! a moment shows exactly that screen, whole (`publications_are_shown`). A publication may stay on
//! air, where each cycle of the air has the multiplex's offsets of local time: a receiver hears all
//! packets of one cycle, and after it only packets of cycles of the same publication. Then its
//! guide is whole and is the screen of that publication, with the moment of the last TDT heard
//! (`what_is_published_is_shown`). What was on air and heard before makes no difference.
//!
//! The same holds of the air of a legal journal whose lines were read, and of any first bytes of
//! that air: after a whole cycle, and while that publication stays on air, the guide is the screen
//! of the publication (`journals_are_shown`). Where a journal ends with a publish and two swaps,
//! the last two cycles are of one publication with every accepted edit. A receiver that joined
//! before the last cycle shows its whole screen (`journals_end_shown`).
//!
//! [`open_player`] opens the player of a multiplex. [`send_cycle`] adds one whole cycle of a
//! publication to the air, or a proper prefix of it where a write failed; lack of memory sends
//! nothing. [`send_on_air`] does so with what is on air at the desk. The player is then at the end
//! of a cycle, and all cycles together are one air.
//!
//! `AirOf`, `CutAirOf` and `SomeAirOf` (`specs/AirOf.antt`) say what the air has of a journal: all
//! cycles, all but a part of the last, or the first ones. `SentAir` says what holds of each: one
//! content for each table, the published guide, repetition, at most 2,258 keys, and at a bit rate
//! the time and the distances. The laws that lead from the ones to the other are in `proofs/`.
//!
//! Not promised: how many packets a receiver needs that joins within a cycle, and that the sink
//! takes the bytes at the rate.
#![tactic(auto)]

mod air_screen_laws;
mod journal_screen_laws;
mod laws;
mod publication_screen_laws;
mod send;

pub use air_screen_laws::what_is_published_is_shown;
pub use journal_screen_laws::{journals_are_shown, journals_end_shown};
pub use laws::{airings_can_be_heard, airings_have_few_keys};
pub use publication_screen_laws::publications_are_shown;
pub use send::{SendStop, open_player, send_cycle, send_on_air};
