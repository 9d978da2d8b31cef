// Events as their place depends on them.
ghost use Rattle.std.specs.Prelude.{◌≡◌};
ghost use Rattle.eit_segments.specs.Placement.{start_block};

use si_time::{Moment, block_of};

/// Of an event its start, its duration in seconds, and the size of its entry in a section, in bytes.
#[derive(Clone, Copy)]
pub struct EventAt {
    pub start: Moment,
    pub seconds: u32,
    pub size: u32,
}

/// The three-hour block in which an event starts.
pub(crate) fn start_block(event: &EventAt) -> u64
    ensures { result ≡ start_block event.now }
{
    block_of(event.start)
}
