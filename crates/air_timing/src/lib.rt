//! An air at a bit rate: how far apart the sections of one sub-table are sent, and how often
//! (EN 300 468, 5.1.4; TR 101 290, 5.2 and 5.3).
//!
//! A section is named by a number. It begins in the packet begun, if that has sections of its lane
//! and room, or in the next one; or after null packets, where its sub-table is not free by then
//! (`specs/Pacing.antt`). A cycle is sent in frames: a lead stands in
//! front of each, and after it sections of the body as far as they end within the frame
//! (`specs/Frames.antt`). The body has the first sections of all sub-tables, then the second ones,
//! and so on (`specs/Spreading.antt`).
//!
//! Between two sections of one sub-table lie at least the packets of the gap (`gaps_are_kept`), and
//! a section never waits for more null packets than these (`waits_are_short`). The frames have all
//! of the body in its order, and each has its lead (`frames_are_whole`). They begin near enough to
//! each other (`frames_are_near`), and often enough where their span is right (`spans_are_right`).
//! Spread sections are a permutation that keeps the order of each sub-table (`spread_keeps_order`).
//! Each section of a Fast sub-table stands in a lead of a round (`each_has_turn`).
//!
//! `FramePlan` gives the sections of a cycle one after the other, each with its first and its last
//! packet (`specs/Plan.antt`), over a `Pace`, which knows where the air has come to. `gap_at`,
//! `half_second` and `span_at` are the packets of a bit rate, and `turn_of` the section of a
//! sub-table in a lead.
//!
//! Not promised: that a sender sends at the rate, and that a multiplexer keeps distances.
#![tactic(auto)]

mod laws;
mod pace;
mod plan;
mod span;
mod timing;
mod turns;

pub use laws::{
    each_has_turn, frames_are_near, frames_are_whole, gaps_are_kept, spans_are_right,
    spread_keeps_order, waits_are_short,
};
pub use pace::{Extent, Pace, Paced, Spacing};
pub use plan::FramePlan;
pub use span::{Leads, Span, gap_at, half_second, span_at};
pub use timing::Timing;
pub use turns::{often_of, round_of, turn_of};
