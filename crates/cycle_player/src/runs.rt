// The sections of a cycle in their runs: in each run they share packets, and null packets stand
// between two runs.
ghost use Rattle.std.specs.Prelude.{◌≡◌, ◌+◌, ◌*◌, ◌<◌, [], List, ℕ, Some, None, ◌++◌, ◌∷◌, ◌==◌, length, map, take, drop, true, false, IfSome, IfNone, IfOk, OnOk, OnErr, IsTrue, ◌↔◌};
ghost use Rattle.std.specs.List.{AllByRecursion};
ghost use Rattle.air_timing.specs.PlanView.{left_of};
ghost use Rattle.air_model.specs.Air.{CanBeTold, sections_once};
ghost use Rattle.air_model.specs.Bursts.{paced_packets};
ghost use Rattle.cycle_timing.specs.Again.{IsRight, leads_in};
ghost use Rattle.cycle_timing.specs.Planning.{timings_of};
ghost use Rattle.section_codec.specs.SubTables.{AreFit};
ghost use Rattle.carousel_player.specs.Packing.{packets_behind};
ghost use Rattle.carousel_player.specs.Queue.{IsBegun};
ghost use Rattle.air_model.specs.Laying.{IsPlaced};
ghost use Rattle.air_model.specs.Telling.{sent_retold};
ghost use Rattle.version_book.specs.Airings.{AiredTables, CycleForm};
ghost use Rattle.version_book.specs.Book.{BookStandsFor, aired};
ghost use Rattle.cycle_player.specs.Clock.{reads};
ghost use Rattle.cycle_player.specs.Running.{first_of, shares_with, run_of, bursts_of, packets_left, after, Begins, PassesNull, BeginsRun, IsAtStart, IsOver};

use crate::clock::Clock;
use air_model::{LaidSections, Placed};
use air_timing::{FramePlan, Leads, Timing};
use carousel_player::SectionQueue;
use cycle_timing::plan_timed;
use guide_model::Offset;
use section_codec::Tables;
use si_time::Moment;
use std::alloc::{AllocError, Global};
use std::marker::Model;
use version_book::VersionBook;

// The last byte of each section of a cycle stands in a packet below this one.
const MOST_PACKETS: u64 = 4_611_686_018_427_387_904;

/// What is known of a cycle that begins: how many packets it has, whether the span of its frames is
/// right, and what the leads of these are like.
#[derive(Clone, Copy)]
pub(crate) struct Begun {
    pub(crate) packets: u64,
    pub(crate) is_right: bool,
    pub(crate) leads: Leads,
}

/// The sections of a cycle, each laid once, and how far its runs were sent. Contracts see where the
/// cycle has come to.
#[derive(Drop)]
pub(crate) struct RunQueue {
    alloc: Global,
    laid: LaidSections,
    timings: Vec<Timing>,
    next: usize,
    at: Option<usize>,
    end: u64,
    rate: u32,
    clock: Clock,
}

impl Model for RunQueue {
    ghost use Rattle.cycle_player.specs.Running.{Course, course_of, IsUnderWay};

    ghost Value = { Course };

    ghost view = { course_of };

    ghost invariant = { IsUnderWay };
}

impl SectionQueue for RunQueue {
    ghost use Rattle.std.proofs.Common.{◌≡◌, refl, ◌∙◌};
    ghost use Rattle.cycle_player.specs.Running.{run_of, bursts_of};

    ghost sections = { run_of };

    ghost keeps = { λ a b. bursts_of b ≡ bursts_of a };

    ghost keeps_at_once = { λ a. refl };

    ghost keeps_later = { λ a b c p q. q ∙ p };

    fn pid(&self) -> Option<u16> {
        let Some(at) = self.at else {
            return None;
        };
        Some(self.laid.placed[at].pid)
    }

    fn bytes(&self) -> &[u8] {
        let Some(at) = self.at else {
            return &[];
        };
        section_at(&self.laid.bytes, self.laid.placed[at])
    }

    fn pass(&mut self) {
        match self.sharing() {
            Some(timing) => self.begin_section(timing),
            None => self.at = None,
        }
    }
}

impl RunQueue {
    /// A cycle that is over, at a rate in bits per second.
    pub(crate) fn ended(alloc: Global, rate: u32) -> RunQueue
        requires { 0 < rate }
        ensures at { result.at ≡ None }
        ensures left { result.left ≡ [] }
    {
        RunQueue {
            alloc,
            laid: LaidSections::none(alloc),
            timings: Vec::new(alloc),
            next: 0,
            at: None,
            end: 0,
            rate,
            clock: Clock { moment: 0, bits: 0 },
        }
    }

    /// Begins the cycle of these sub-tables at this moment, with the versions that the book gives
    /// them, and with a TOT of these offsets where there are any. The clock is that of its first
    /// packet. All memory is taken first.
    pub(crate) fn begin(
        &mut self,
        book: &mut VersionBook,
        tables: &Tables,
        offsets: &[Offset],
        moment: Moment,
        rate: u32,
        clock: Clock,
    ) -> Result<Begun, AllocError>
        requires fit { AreFit tables.now.list }
        requires offsets { CanBeTold offsets.now }
        requires moment { moment.0 < 65536 * 86400 }
        requires rate { 0 < rate }
        ensures versions { OnOk result ((past : List AiredTables) (form : CycleForm)
            → BookStandsFor past book.old
            → BookStandsFor (past ++ aired tables.now.list moment.0 form ∷ []) book.new) }
        ensures course { OnOk result (IsAtStart rate (reads clock) self.new) }
        ensures left { OnOk result ((past : List AiredTables) (a : AiredTables)
            → a.tables ≡ tables.now.list → a.form.offsets ≡ offsets.now
            → self.new.left ≡ timings_of rate past a) }
        ensures laid { OnOk result ((past : List AiredTables) (quota at : ℕ)
            → BookStandsFor past book.old → map (sent_retold at) self.new.laid
            ≡ sections_once past
            (aired tables.now.list at (record { quota = quota; offsets = offsets.now }))) }
        ensures packets { IfOk result (λ begun. begun.packets ≡ after 0 self.new.left) }
        ensures right { IfOk result (λ begun. (past : List AiredTables) (a : AiredTables)
            → a.tables ≡ tables.now.list → a.form.offsets ≡ offsets.now
            → IsTrue begun.is_right ↔ IsRight rate past a) }
        ensures leads { IfOk result (λ begun. (past : List AiredTables) (a : AiredTables)
            → a.tables ≡ tables.now.list → a.form.offsets ≡ offsets.now
            → begun.leads ≡ leads_in rate past a) }
        ensures ended { OnErr result (IsOver self.new) }
        ensures kept { OnErr result (book.new ≡ book.old) }
    {
        self.at = None;
        self.next = 0;
        self.timings.clear();
        let list = tables.list.as_slice();
        self.laid.take_room(list, offsets)?;
        let plan = plan_timed(self.alloc, list, offsets, rate)?;
        let timings = timings_of(self.alloc, plan.frames)?;
        self.laid.lay(self.alloc, book, tables, moment, offsets)?;
        let packets = packets_in(timings.as_slice());
        self.timings = timings;
        self.end = 0;
        self.rate = rate;
        self.clock = clock;
        Ok(Begun {
            packets,
            is_right: plan.is_right,
            leads: plan.leads,
        })
    }

    /// Whether nothing is to come.
    pub(crate) fn is_over(&self) -> bool
        ensures over { result ≡ true
            → (run_of self.now ≡ []) × (paced_packets (bursts_of self.now) ≡ []) }
        ensures some { result ≡ false → (from : ℕ) → IsBegun from (run_of self.now)
            → 0 < length (packets_left self.now from) }
    {
        self.at.is_none() && self.next >= self.timings.len()
    }

    /// Whether no section is at hand, since no run has begun or the last one is over.
    pub(crate) fn is_between(&self) -> bool
        ensures between { result ≡ true → run_of self.now ≡ [] }
        ensures within { result ≡ false → (from : ℕ) → IsBegun from (run_of self.now)
            → 0 < length (packets_behind (run_of self.now) from) }
    {
        self.at.is_none()
    }

    /// Passes a null packet, if one comes before the next run, and says so. Else the run begins.
    pub(crate) fn pass_null(&mut self) -> bool
        requires between { run_of self.old ≡ [] }
        requires some { 0 < length (paced_packets (bursts_of self.old)) }
        ensures null { result ≡ true → PassesNull self.old self.new }
        ensures run { result ≡ false → BeginsRun self.old self.new }
    {
        let Some(timing) = self.following() else {
            return false;
        };
        if self.end < timing.first {
            self.end += 1;
            return true;
        }
        self.begin_section(timing);
        false
    }

    // The section that comes next, if it shares the packets of the run at hand.
    fn sharing(&self) -> Option<Timing>
        ensures first { IfSome result (λ timing. first_of self.now.left ≡ Some timing) }
        ensures shares { IfSome result (λ timing. timing.first < self.now.end) }
        ensures alone { IfNone result (shares_with self.now.end self.now.left ≡ false) }
    {
        let Some(timing) = self.following() else {
            return None;
        };
        if timing.first < self.end {
            Some(timing)
        } else {
            None
        }
    }

    // The section that comes next.
    fn following(&self) -> Option<Timing>
        ensures { result ≡ first_of self.now.left }
    {
        self.timings.get(self.next).copied()
    }

    // It is at hand now, with the moment of its packet where it tells the time.
    fn begin_section(&mut self, timing: Timing)
        requires { first_of self.old.left ≡ Some timing }
        ensures { Begins timing self.old self.new }
    {
        let moment = self.clock.told(self.rate, timing.first);
        self.laid.tell(timing.section, moment);
        self.at = Some(timing.section);
        self.end = timing.last + 1;
        self.next += 1;
    }
}

fn section_at(bytes: &[u8], placed: Placed) -> &[u8]
    requires { IsPlaced (length bytes.now) placed }
    ensures { result.now ≡ take placed.len (drop placed.start bytes.now) }
{
    let (_, from) = bytes.split_at(placed.start);
    let (section, _) = from.split_at(placed.len);
    section
}

// All sections of a plan. AllocError comes also where a cycle has too many packets.
fn timings_of(alloc: Global, frames: FramePlan) -> Result<Vec<Timing>, AllocError>
    ensures all { IfOk result (λ timings. timings.items ≡ left_of frames) }
    ensures most { IfOk result (λ timings.
        AllByRecursion (λ t. t.last < 4611686018427387904) timings.items) }
{
    let mut frames = frames;
    let mut timings = Vec::new(alloc);
    while let Some(timing) = frames.next() {
        if timing.last >= MOST_PACKETS {
            return Err(AllocError);
        }
        timings.push(timing)?;
    }
    Ok(timings)
}

// How many packets these sections have, with the null packets before them.
fn packets_in(timings: &[Timing]) -> u64
    requires { AllByRecursion (λ t. t.last < 4611686018427387904) timings.now }
    ensures { result ≡ after 0 timings.now }
{
    match timings.last() {
        Some(timing) => timing.last + 1,
        None => 0,
    }
}
