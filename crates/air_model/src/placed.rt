// Where a section is laid.

/// A section that is laid: its PID, and where its bytes stand.
#[derive(Clone, Copy, PartialEq, Eq)]
pub struct Placed {
    pub pid: u16,
    pub start: usize,
    pub len: usize,
}
