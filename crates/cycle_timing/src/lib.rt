//! The air of airings at a bit rate, and the plan of a cycle of it, made from sub-tables (EN 300
//! 468, 5.1.4; TR 101 290, 5.2).
//!
//! A cycle is sent in frames (`air_timing`). At the front of each stands a lead, with the sections
//! of the Fast sub-tables that have a turn (`specs/Leads.antt`); after it come the sections of the
//! body, Near and Far in turns (`specs/Planning.antt`). A sub-table is named by its PID, table_id
//! and table_id_extension (`specs/SubTables.antt`). Null packets stand wherever no section is, and
//! TDT and TOT tell what the clock of the air reads in their packet (`specs/Cycle.antt`,
//! `specs/Clock.antt`).
//!
//! `plan_timed` lists the sections of a cycle, numbers their sub-tables, makes the leads of a round
//! and the body in turns, and chooses the span of a frame. Its plan has exactly the sections and
//! the packets that these definitions say (`frames`), whatever versions and moment the airing has,
//! and it says whether its span is right (`right`). A cycle that may be too long to count its
//! packets is refused as want of memory.
//!
//! Such cycles are cycles of their airings, and make an air of them, so that all that is proved of
//! what receivers hear of an air holds of this one (`timed_airs_are_airs`). Each section begins and
//! ends in the packets that the plan says (`timed_sections_stand`). Between any two sections of one
//! sub-table lie packets that last 25 ms or more, over the ends of cycles too
//! (`timed_airs_are_apart`). Where the frames have the right span, PAT, PMT, NIT, SDT, TDT and TOT
//! are sent again within half a second, and each section of a Fast sub-table within two seconds
//! (`timed_airs_repeat`). The clock never goes back, and keeps time to the second
//! (`timed_airs_tell_the_time`).
//!
//! Not promised: that a sender sends at the rate, and how often schedules are sent; how long
//! `plan_timed` takes, which is about n log n for n sections of the cycle and of its leads, and
//! that it fails only where memory runs out.
#![tactic(auto)]

mod body;
mod groups;
mod laws;
mod leads;
mod listed;
mod numbers;
mod plan;
mod rounds;

pub use laws::{
    timed_airs_are_airs, timed_airs_are_apart, timed_airs_repeat, timed_airs_tell_the_time,
    timed_sections_stand,
};
pub use plan::{TimedPlan, plan_timed};
