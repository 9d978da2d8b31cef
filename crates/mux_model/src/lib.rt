//! The records of a multiplex: its network, its stream, its services, the offsets of local time and
//! the other streams of the network (EN 300 468, 5.2.1, 5.2.3 and 5.2.6).
//!
//! `IsSound` (`specs/Sound.antt`) is what makes a multiplex sound. A copy equals its source
//! (`Mux::copy`). The services that feeds edit are the own ones and those of other streams
//! (`fed_services`); `Mux::feed_of` finds the feed of one.
#![tactic(auto)]

mod fed;
mod mux;

pub use mux::{Mux, MuxService, MuxServices, Other, Others, RemoteService, RemoteServices};
