//! The player of cycles, at a bit rate or without one: for each swap one whole cycle of packets
//! (ISO/IEC 13818-1, 2.4.3 and 2.4.4; EN 300 468, 5.1 and 5.1.4; TR 101 290, 5.2).
//!
//! A `CyclePlayer` is a `Player` of `carousel_player`, or a `TimedPlayer`, and has the promises of
//! the one that it is. `cycle_at` says which packets the cycle of a swap has, `AreMadeAt` which the
//! cycles of an air have, and `IsAirAt` that they are an air of their airings. `SentOf` says of
//! which air the bytes that a sink took are the first ones. At a rate the player counts the cycles
//! that are short (`tally`, `tallies_tell`), and `time` gives the moment that its clock reads.
//!
//! A `TimedPlayer` is the player at a bit rate. `swap` begins the cycle of one airing more,
//! `next_packet` gives its next packet, and `play_cycle` writes the rest of it to a sink. The cycle
//! is that of `cycle_timing` (`begun`): its sections stand in the packets that the plan says, with
//! null packets wherever no section is. TDT and TOT tell what the clock reads in the packet in
//! which they begin. The clock goes on by the packets of each cycle, and is set forward by a swap
//! with a later moment.
//!
//! What was handed out at the end of a cycle is an air of all airings so far. Between two sections
//! of one sub-table lie packets that last 25 ms or more at the rate. The clock never goes back.
//! Where `swap` says that the span is right, PAT, PMT, NIT, SDT, TDT and TOT are sent again within
//! half a second, and present and following within two seconds (`timed_players_send_airs`). At the
//! end of a cycle `kept` gives the versions, contents, counters and the clock that the player
//! keeps. `TimedPlayer::resume` makes a player that goes on from them. A `Tally` counts the cycles
//! whose span is not right, and says the least rate that would have done.
//!
//! Not promised: that the sink takes or sends the bytes at the rate, how many packets go to it in
//! one write, and how often schedules are sent.
#![tactic(auto)]

mod clock;
mod cycle;
mod laws;
mod player;
mod runs;
mod tally;
mod timed_laws;
mod timed_player;

pub use clock::Clock;
pub use laws::{airs_are_made_again, tallies_tell};
pub use player::CyclePlayer;
pub use tally::{Tally, Timeliness};
pub use timed_laws::timed_players_send_airs;
pub use timed_player::{PlayerState, TimedPlayer};
