// Places that the jobs of a run pass.
use std::marker::Sync;

/// A place in a run of `live`: before or after an edit, with the number of its feed and its place in that feed
/// from 1, or before or after a swap, with its place from 1.
#[derive(Clone, Copy, PartialEq, Eq)]
pub enum Place {
    BeforeEdit(u8, u64),
    AfterEdit(u8, u64),
    BeforeSwap(u64),
    AfterSwap(u64),
}

/// What the jobs of a run pass. A test may hold a job at a place.
pub trait Gate: Sync {
    /// Returns when the job may go on.
    fn pass(&self, place: Place);
}

/// The gate that holds nothing.
#[derive(Clone, Copy, PartialEq, Eq)]
pub struct OpenGate;

impl Gate for OpenGate {
    fn pass(&self, _place: Place) {}
}
