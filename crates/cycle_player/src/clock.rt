// The clock of an air at a bit rate.
ghost use Rattle.std.specs.Prelude.{◌≡◌, ◌*◌, ◌<◌};
ghost use Rattle.cycle_timing.specs.Clock.{later, at_swap, told_at};
ghost use Rattle.cycle_player.specs.Clock.{reads, capped};

use si_time::Moment;

// The last moment that is told: its day has 16 bits (EN 300 468, annex C).
const LAST_MOMENT: u64 = 65_536 * 86_400 - 1;

/// What the clock of an air reads: a moment, in seconds since Modified Julian Date 0, and the bits
/// that were sent since, less than those of a second.
#[derive(Clone, Copy, PartialEq, Eq)]
pub struct Clock {
    pub moment: u64,
    pub bits: u32,
}

impl Clock {
    /// The clock so many packets later, at a rate in bits per second: a packet has 1,504 bits. No
    /// moment is later than 2^64 - 1.
    pub fn later(self, rate: u32, packets: u64) -> Clock
        requires { 0 < rate }
        ensures later { reads result ≡ capped (later rate packets (reads self)) }
        ensures bits { result.bits < rate }
    {
        let bits = u128::from(self.bits) + u128::from(packets) * 1504;
        let seconds = u128::from(self.moment) + bits / u128::from(rate);
        Clock {
            moment: seconds.min(u128::from(u64::MAX)) as u64,
            bits: (bits % u128::from(rate)) as u32,
        }
    }

    // At a swap: the later of the swap's moment and what the clock reads.
    pub(crate) fn at_swap(self, moment: Moment) -> Clock
        ensures { reads result ≡ at_swap moment.0 (reads self) }
    {
        if moment.0 <= self.moment {
            return self;
        }
        Clock {
            moment: moment.0,
            bits: 0,
        }
    }

    // What is told in a packet of a cycle that begins with this clock.
    pub(crate) fn told(self, rate: u32, packet: u64) -> Moment
        requires { 0 < rate }
        ensures told { result.0 ≡ told_at rate (reads self) packet }
        ensures window { result.0 < 65536 * 86400 }
    {
        Moment(self.later(rate, packet).moment.min(LAST_MOMENT))
    }
}
