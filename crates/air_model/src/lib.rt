//! What is on air: the order of a cycle's sections, the packets of a cycle, and the air of a list
//! of airings (ISO/IEC 13818-1, 2.4.3 and 2.4.4; EN 300 468, 5.1; TR 101 211, 4.4).
//!
//! An airing is what one swap puts on air. `IsCycle` and `IsAirOf` say which packets are a cycle,
//! and an air; the player makes an air, the auditor checks one, and receivers hear one. Null
//! packets may stand anywhere in an air, and without them it is an air of the same airings
//! (`nulls_are_left_out`). In `IsRepeatingAirOf` the cycles repeat sections as they like, and what
//! tells the time says the moment of the swap or a later one; so bursts of sections with null
//! packets between are a cycle (`paced_airs_go_on`). [`Rule`] has the names of the five rules that
//! a packet of an air keeps.
//!
//! The order in which one cycle sends its sections goes by tiers (TR 101 211, 4.4). A section is of
//! tier Fast, Near or Far. Far sections are sent once, in chunks; all Near sections stand before
//! each chunk; all Fast sections stand before each run of the result (`specs/Cycle.antt`). `plan`
//! gives this order without storing it, and `CyclePlan::next` its next section, by its place among
//! the given ones. A cycle has each section and no other (`cycles_are_whole`), and its cut into
//! chunks and runs is the only one by the rule (`cuts_are_unique`). Sections of one PID that follow
//! each other may share packets, and then take no more packets than without sharing
//! (`packing_is_dense`). Fast and Near sections repeat within bounds, also into a next cycle of the
//! same sections (`cycles_are_spaced`). The bound for Fast sections holds where no Near or Far
//! section has the PID of the first section.
//!
//! `plan_cycle` gives the order of a cycle of sub-tables. In `LaidSections` the sections of one
//! cycle are laid end to end (ISO/IEC 13818-1, 2.4.4; EN 300 468, 5.1). `take_room` takes the
//! memory for their bytes. After `LaidSections::lay` the bytes at the places of that order are
//! exactly the sections of the airing's cycle (`versions`, `sections`, `placed`, `within`). The
//! player sends from it and the auditor checks against it. `LaidSections::tell` writes another
//! moment over that of a TDT or a TOT.
//!
//! Not promised: that `CyclePlan::next` takes constant time, and that `plan_cycle` and the calls of
//! `LaidSections` fail only where memory runs out.
#![tactic(auto)]

mod body;
mod cycle;
mod laws;
mod laying;
mod placed;
mod plan_laws;
mod planning;
mod rule;
mod sections;
mod telling;

pub use cycle::{CyclePlan, plan};
pub use laws::{nulls_are_left_out, paced_airs_go_on};
pub use placed::Placed;
pub use plan_laws::{cuts_are_unique, cycles_are_spaced, cycles_are_whole, packing_is_dense};
pub use planning::plan_cycle;
pub use rule::Rule;
pub use sections::LaidSections;
