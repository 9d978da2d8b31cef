//! Laws of what a strict receiver hears of an air from which packets were lost, and of what a
//! receiver holds of tables that are not whole (ISO/IEC 13818-1, 2.4.3.3 and 2.4.4; EN 300 468,
//! 5.1.1 and 5.2).
//!
//! It has no code. `specs/Thinned.antt` defines a thinned air: the packets of an air, each with
//! whether it came. Between two packets of one PID that came, at most 14 of that PID may be
//! missing. Before the first one and after the last one any number may be missing.
//!
//! `thinned_airs_are_coherent` says that no content is made of two cycles with different contents.
//! `whole_cycles_are_heard` says that after one whole cycle the receiver has what is on air.
//! `whole_parts_are_heard_alike` says that without losses a strict receiver hears what any receiver
//! hears.
//!
//! A recording is what came of an air of a journal, where again at most 14 packets of a PID may be
//! missing between two that came. `specs/Heard.antt` says what a strict receiver then has: each
//! sub-table that it completes is the one that some airing carried, and a packet of that airing's
//! cycle came. After one whole cycle its guide is the whole screen of that publication, while only
//! cycles of that publication follow (`thinned_journals_are_heard`). The law is in the words of the
//! strict receiver, so it speaks of the report that `listen --strict` writes.
//!
//! What a receiver holds of a table of an air, whole or not, is of one airing. It may hear an air
//! from any packet to any other: of each table it holds sections of the content of one airing whose
//! cycle has a packet among these, each once (`parts_are_of_one_airing`). So does a strict receiver
//! where packets were lost, and where it started afresh between recordings of one air
//! (`thinned_parts_are_of_one_airing`). This holds for any number of changes of version, and for
//! tables that vanish and return.
//!
//! Not promised: that what is held of two tables is of one publication.
#![tactic(auto)]

mod part_laws;
mod thinned_air_laws;
mod thinned_journal_laws;

pub use part_laws::{parts_are_of_one_airing, thinned_parts_are_of_one_airing};
pub use thinned_air_laws::{
    thinned_airs_are_coherent, whole_cycles_are_heard, whole_parts_are_heard_alike,
};
pub use thinned_journal_laws::thinned_journals_are_heard;
