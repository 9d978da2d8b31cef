// The packets of a section.

/// A section, named by its place among those of a plan, and the packets that have its first and its
/// last byte.
#[derive(Clone, Copy, PartialEq, Eq)]
pub struct Timing {
    pub section: usize,
    pub first: u64,
    pub last: u64,
}
