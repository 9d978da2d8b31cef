// Local time.
use si_base::{Copies, Items};
use si_time::Moment;
use std::alloc::AllocError;

/// How far a region's clocks are from UTC (EN 300 468, 6.2.20): country_code (three letters),
/// country_region_id, whether the clocks are behind UTC, by how many minutes, and from which moment
/// on by which other number of minutes.
#[derive(Clone, Copy, PartialEq, Eq)]
pub struct Offset {
    pub country: [u8; 3],
    pub region: u8,
    pub behind: bool,
    pub minutes: u16,
    pub change: Moment,
    pub next: u16,
}

/// Offsets in the order in which they are given.
pub type Offsets = Items<Offset>;

impl Copies for Offset {
    fn copy(&self) -> Result<Offset, AllocError> {
        Ok(*self)
    }
}
