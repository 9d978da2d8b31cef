// Where an air has come to, section by section.
ghost use Rattle.std.specs.Prelude.{◌≡◌, ◌+◌, ◌^◌, ◌<◌, ◌≤◌, ℕ, IfOk, length, replicate, slice_index_or};
ghost use Rattle.air_model.specs.Packing.{begun_at, need_of, has_room_needing, taken_needing, used_at_end};
ghost use Rattle.air_timing.specs.Pacing.{Timed, begins_in, is_free_at, first_of, taken_at, last_of};
ghost use Rattle.air_timing.specs.PaceView.{AreOf, Puts, place_of, alone, lane_of};

use section_codec::Tier3;
use std::alloc::{AllocError, Global};
use std::marker::Model;

/// A section as it is paced: its PID, its tier, its bytes, and its sub-table as a number. Sections
/// share packets only where they have one PID and one tier.
#[derive(Clone, Copy)]
pub struct Paced {
    pub pid: u16,
    pub tier: Tier3,
    pub len: u16,
    pub table: u32,
}

/// What an air keeps: the whole packets between two sections of one sub-table, and the bytes that a
/// section has at least in the packet in which it begins, if it has so many.
#[derive(Clone, Copy)]
pub struct Spacing {
    pub gap: u32,
    pub least: u16,
}

/// The packets that have the first and the last byte of a section.
#[derive(Clone, Copy)]
pub struct Extent {
    pub first: u64,
    pub last: u64,
}

/// The packets that are closed, what the packet begun has, and of each sub-table the first packet
/// in which its next section may begin.
#[derive(Drop)]
pub struct Pace {
    closed: u64,
    lane: u32,
    used: u16,
    free: Vec<u64>,
    spacing: Spacing,
}

impl Model for Pace {
    ghost use Rattle.air_timing.specs.PaceView.{Seen, seen_of, IsPace};

    ghost Value = { Seen };

    ghost view = { seen_of };

    ghost invariant = { IsPace };
}

impl Pace {
    /// After `first` packets, where no sub-table has been sent, of so many sub-tables. It takes 8
    /// bytes of memory for each; AllocError is want of it.
    pub fn open(
        alloc: Global,
        first: u64,
        tables: usize,
        spacing: Spacing,
    ) -> Result<Pace, AllocError>
        ensures packing { IfOk result (λ p. p.packing ≡ begun_at first) }
        ensures free { IfOk result (λ p. p.free ≡ replicate tables 0) }
        ensures spacing { IfOk result (λ p. p.spacing ≡ spacing) }
    {
        let free = vec![in alloc; 0; tables]?;
        Ok(Pace {
            closed: first,
            lane: 0,
            used: 0,
            free,
            spacing,
        })
    }

    /// Puts a section in, after as few null packets as the gap asks for, and gives its first and its
    /// last packet. It takes no memory, and constant time.
    pub fn put(&mut self, section: Paced) -> Extent
        requires table { section.table < length self.old.free }
        requires len { section.len ≤ 4096 }
        requires closed { self.old.packing.closed < 2 ^ 62 }
        ensures puts { (t : Timed) (x : ℕ) → AreOf t x section self.old.spacing
            → Puts t x self.old self.new result.first result.last }
        ensures tables { length self.new.free ≡ length self.old.free }
        ensures spacing { self.new.spacing ≡ self.old.spacing }
        ensures most { self.new.packing.closed ≤ self.old.packing.closed + 2 ^ 33 }
    {
        let first = self.first_packet(section);
        let last = self.last_packet(section);
        let used = used_at_end(self.before(section) + section.len);
        let free = last + 1 + u64::from(self.spacing.gap);
        self.closed = last;
        self.lane = lane_of(section);
        self.used = used;
        self.free[section.table as usize] = free;
        Extent { first, last }
    }

    /// The packet in which a section would begin, were it put in next.
    pub fn first(&self, section: Paced) -> u64
        requires table { section.table < length self.now.free }
        requires closed { self.now.packing.closed < 2 ^ 62 }
        ensures first { (t : Timed) (x : ℕ) → AreOf t x section self.now.spacing
            → result ≡ first_of t (place_of self.now) x }
        ensures most { result ≤ self.now.packing.closed + 2 ^ 32 }
    {
        self.first_packet(section)
    }

    /// The packet in which the last byte of a section would stand, were it put in next.
    pub fn last(&self, section: Paced) -> u64
        requires table { section.table < length self.now.free }
        requires len { section.len ≤ 4096 }
        requires closed { self.now.packing.closed < 2 ^ 62 }
        ensures { (t : Timed) (x : ℕ) → AreOf t x section self.now.spacing
            → result ≡ last_of t (place_of self.now) x }
    {
        self.last_packet(section)
    }

    fn last_packet(&self, section: Paced) -> u64
        requires table { section.table < length self.now.free }
        requires len { section.len ≤ 4096 }
        requires closed { self.now.packing.closed < 2 ^ 62 }
        ensures last { result ≡ last_of (alone section self.now.spacing) (place_of self.now) 0 }
        ensures most { result ≤ self.now.packing.closed + 2 ^ 33 }
        ensures least { self.now.packing.closed ≤ result }
    {
        self.first_packet(section) + u64::from((self.before(section) + section.len) / 184)
    }

    // The packet in which it begins,
    fn first_packet(&self, section: Paced) -> u64
        requires table { section.table < length self.now.free }
        requires closed { self.now.packing.closed < 2 ^ 62 }
        ensures first { result ≡ first_of (alone section self.now.spacing) (place_of self.now) 0 }
        ensures most { result ≤ self.now.packing.closed + 2 ^ 32 }
        ensures least { self.now.packing.closed ≤ result }
    {
        if self.is_free(section) {
            self.begins(section)
        } else {
            self.free_from(section)
        }
    }

    // the bytes of sections before it there,
    fn before(&self, section: Paced) -> u16
        requires table { section.table < length self.now.free }
        requires closed { self.now.packing.closed < 2 ^ 62 }
        ensures before { result ≡ taken_at (alone section self.now.spacing) (place_of self.now) 0 }
        ensures most { result ≤ 184 }
    {
        if self.is_free(section) {
            self.taken(section)
        } else {
            0
        }
    }

    fn is_free(&self, section: Paced) -> bool
        requires table { section.table < length self.now.free }
        requires closed { self.now.packing.closed < 2 ^ 62 }
        ensures { result ≡ is_free_at (alone section self.now.spacing) (place_of self.now) 0 }
    {
        self.free_from(section) <= self.begins(section)
    }

    fn free_from(&self, section: Paced) -> u64
        requires table { section.table < length self.now.free }
        ensures value { result ≡ slice_index_or self.now.free section.table 0 }
        ensures most { result ≤ self.now.packing.closed + 2 ^ 32 }
    {
        self.free[section.table as usize]
    }

    fn begins(&self, section: Paced) -> u64
        requires { self.now.packing.closed < 2 ^ 62 }
        ensures begins { result ≡ begins_in (alone section self.now.spacing) self.now.packing 0 }
        ensures least { self.now.packing.closed ≤ result }
        ensures most { result ≤ self.now.packing.closed + 1 }
    {
        if self.used == 0 || self.shares(section) {
            self.closed
        } else {
            self.closed + 1
        }
    }

    fn taken(&self, section: Paced) -> u16
        ensures taken { result
            ≡ taken_needing (need_of self.now.spacing.least section.len)
            self.now.packing (lane_of section) }
        ensures most { result ≤ 184 }
    {
        if self.used != 0 && self.shares(section) {
            self.used
        } else {
            0
        }
    }

    fn shares(&self, section: Paced) -> bool
        ensures { result ≡ has_room_needing (need_of self.now.spacing.least section.len)
            self.now.packing (lane_of section) }
    {
        let need = self.spacing.least.min(section.len);
        self.lane == lane_of(section) && self.used < 184u16.saturating_sub(need)
    }
}

fn lane_of(section: Paced) -> u32
    ensures { result ≡ lane_of section }
{
    let rank = match section.tier {
        Tier3::Fast => 0,
        Tier3::Near => 1,
        Tier3::Far => 2,
    };
    u32::from(section.pid) * 4 + rank
}

fn used_at_end(bytes: u16) -> u16
    ensures used { result ≡ used_at_end bytes }
    ensures most { result ≤ 184 }
{
    if bytes < 184 { bytes } else { bytes % 184 + 1 }
}
