//! Standard streams and files of the host as sources, sinks and an opener.
//!
//! They are adapters over any reader, writer and files of `std`, proved against the traits of
//! `si_causes`. Each error of a reader is a fault, and so is a path that cannot be opened.
//!
//! Tested in `ground_rows`: a reader is a source, and standard error takes a line.
//!
//! Trusted: that the real streams and files behave as `std` says, and give and keep their bytes.
#![tactic(auto)]

mod opening;
mod streams;

pub use opening::Opening;
pub use streams::{ReaderSource, WriterSink};
