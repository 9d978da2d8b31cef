// How many cycles are not repeated in time at their bit rate, and the rate that would do.
ghost use Rattle.std.specs.Prelude.{◌≡◌, ◌<◌, ◌*◌, ◌^◌, ◌-◌, ◌↔◌, List, ℕ, IsTrue, false, max};
ghost use Rattle.version_book.specs.Airings.{AiredTables};
ghost use Rattle.cycle_timing.specs.Again.{IsRight, leads_in};
ghost use Rattle.cycle_player.specs.Tally.{is_right, larger, least_rate, no_cycles, with_cycle};

use air_timing::{Leads, span_at};
use std::marker::Model;

/// Of a cycle at a bit rate: whether the span of its frames is right, and what the leads are like
/// that decide it.
#[derive(Clone, Copy)]
pub struct Timeliness {
    pub is_right: bool,
    pub leads: Leads,
}

/// Of cycles at one bit rate: how many are short, since the span of their frames is not right, and
/// the largest that their leads are. Contracts see both.
#[derive(Clone, Copy)]
pub struct Tally {
    short: u64,
    most: Leads,
}

impl Model for Tally {
    ghost use Rattle.cycle_player.specs.Tally.{Tallied, tallied_of, HasTurns};

    ghost Value = { Tallied };

    ghost view = { tallied_of };

    ghost invariant = { HasTurns };

    ghost inverse = { λ t. record { short = t.short; most = t.most } };
}

impl Tally {
    /// Of no cycles.
    pub fn none() -> Tally
        ensures { result ≡ no_cycles }
    {
        Tally {
            short: 0,
            most: Leads {
                first: 0,
                most: 0,
                often: 1,
                round: 1,
            },
        }
    }

    /// Whether no further cycle can be counted.
    pub fn is_full(&self) -> bool
        ensures { result ≡ false → self.now.short < 2 ^ 64 - 1 }
    {
        self.short == u64::MAX
    }

    /// One cycle more.
    pub fn with(self, cycle: Timeliness) -> Tally
        requires { self.short < 2 ^ 64 - 1 }
        ensures { (rate : ℕ) (past : List AiredTables) (a : AiredTables)
            → IsTrue cycle.is_right ↔ IsRight rate past a → cycle.leads ≡ leads_in rate past a
            → result ≡ with_cycle rate (leads_in rate past a) self }
    {
        Tally {
            short: self.short + u64::from(!cycle.is_right),
            most: larger(self.most, cycle.leads),
        }
    }

    /// How many cycles are short.
    pub fn short(&self) -> u64
        ensures { result ≡ self.now.short }
    {
        self.short
    }

    /// The least bit rate, 100,000 to 100,000,000, at which frames with the largest leads have a
    /// right span: with it no cycle would have been short. There may be none, where a sub-table has
    /// too many sections for 25 ms between them.
    pub fn least_rate(&self) -> Option<u32>
        ensures { result ≡ least_rate self.now.most }
    {
        let leads = self.most;
        // No rate with as many packets in half a second is right where the least of them is not.
        'rates: for half in 33..33_245 {
            let rate = least_with(half);
            if is_right(rate, leads) {
                return Some(rate);
            }
        }
        None
    }
}

// The least rate, 100,000 or more, with so many packets in half a second.
fn least_with(half: u32) -> u32
    requires { half < 33245 }
    ensures { result ≡ max (half * 3008) 100000 }
{
    (half * 3008).max(100_000)
}

fn is_right(rate: u32, leads: Leads) -> bool
    requires often { 0 < leads.often }
    requires round { 0 < leads.round }
    ensures { result ≡ is_right rate leads }
{
    span_at(rate, leads).is_right
}

fn larger(one: Leads, two: Leads) -> Leads
    ensures { result ≡ larger one two }
{
    Leads {
        first: one.first.max(two.first),
        most: one.most.max(two.most),
        often: one.often.max(two.often),
        round: one.round.max(two.round),
    }
}
