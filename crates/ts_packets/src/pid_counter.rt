// Counters that are kept.
use si_base::Items;

/// A PID that had a packet, and the continuity_counter of its next packet (ISO/IEC 13818-1, 2.4.3.3).
#[derive(Clone, Copy)]
pub struct PidCounter {
    pub pid: u16,
    pub next: u8,
}

/// PIDs with their counters.
pub type PidCounters = Items<PidCounter>;
