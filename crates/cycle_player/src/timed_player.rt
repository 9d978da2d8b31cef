// The player at a bit rate.
ghost use Rattle.std.specs.Prelude.{◌≡◌, ◌≤◌, ◌<◌, ◌*◌, ◌↔◌, ◌++◌, [], ◌∷◌, List, ℕ, Some, None, All, IsTrue, IsNone, IfNone, IsOk, IfOk, OnOk, OnErr, flat_map, slice_index_or};
ghost use Rattle.std.specs.Io.KnownBytes.{Appends};
ghost use Rattle.si_causes.specs.Causes.{HasCause};
ghost use Rattle.ts_packets.specs.Bytes.{Packet, bytes_of_packet};
ghost use Rattle.ts_packets.specs.PidCounters.{IsPidCounter, ArePidCountersOf, counter_in};
ghost use Rattle.section_codec.specs.SubTables.{AreFit};
ghost use Rattle.section_codec.specs.declared.table.Key.{Key};
ghost use Rattle.version_book.specs.Airings.{AiredTables};
ghost use Rattle.version_book.specs.Book.{AreKeyVersionsOf, aired, given_in, given_entries};
ghost use Rattle.air_model.specs.Air.{Aired, CanBeTold, airings_of};
ghost use Rattle.cycle_timing.specs.Again.{IsRight, leads_in};
ghost use Rattle.cycle_player.specs.Clock.{reads};
ghost use Rattle.cycle_player.specs.Playing.{AtEnd, AreKeptOf, Within, Begins, GaveUp};

use crate::clock::Clock;
use crate::cycle::Cycle;
use crate::tally::Timeliness;
use carousel_player::{BATCH, PacketQueue, send_all};
use guide_model::Offsets;
use section_codec::Tables;
use si_causes::{Failed, Sink};
use si_time::Moment;
use std::alloc::{AllocError, Global};
use std::marker::Model;
use ts_packets::{Counters, PidCounter, PidCounters, TsPacket};
use version_book::{KeyVersions, VersionBook};

/// What a player goes on from: each key with its last version and content, and each PID with its
/// counter, both in ascending order, and the clock.
#[derive(Drop)]
pub struct PlayerState {
    pub versions: KeyVersions,
    pub counters: PidCounters,
    pub clock: Clock,
}

/// A player of cycles at a bit rate. It stands for the air that it has handed out: the cycles of
/// all airings swapped to, the last one as far as it has come. Versions, continuity counters and
/// the clock go on over all cycles.
#[derive(Drop)]
pub struct TimedPlayer {
    book: VersionBook,
    counters: Counters,
    cycle: Cycle,
    buffer: [u8; BATCH],
    rate: u32,
    offsets: Offsets,
    clock: Clock,
}

impl Model for TimedPlayer {
    ghost use Rattle.cycle_player.specs.Playing.{TimedPlaying};
    ghost use Rattle.cycle_player.specs.TimedPlayer.{playing_of, IsPlayer};

    ghost Value = { TimedPlaying };

    ghost view = { playing_of };

    ghost invariant = { IsPlayer };
}

impl TimedPlayer {
    /// A player that has handed out nothing and is at its end. The rate, 100,000 to 100,000,000, is
    /// in bits per second: that at which what it hands out is to be sent. The offsets, at most 16,
    /// are sent as the TOT of each cycle; where there are none, no TOT is sent. It takes no memory.
    pub fn open(alloc: Global, rate: u32, offsets: Offsets) -> TimedPlayer
        requires least { 100000 ≤ rate }
        requires most { rate ≤ 100000000 }
        requires offsets { CanBeTold offsets }
        ensures at_end { AtEnd [] result }
        ensures rate { result.rate ≡ rate }
        ensures offsets { result.offsets ≡ offsets }
    {
        TimedPlayer {
            book: VersionBook::open(alloc),
            counters: Counters::open(),
            cycle: Cycle::ended(alloc, rate),
            buffer: [0; BATCH],
            rate,
            offsets,
            clock: Clock { moment: 0, bits: 0 },
        }
    }

    /// A player at its end that goes on from these versions, each below 32, and counters, each
    /// below 16 and of a PID below 8,192, and from this clock: it stands for each air of which they
    /// are what is kept (ISO/IEC 13818-1, 2.4.3.3 and 2.4.4.5). The rate and the offsets are as for
    /// `open`. AllocError comes where memory is wanting.
    pub fn resume(
        alloc: Global,
        rate: u32,
        offsets: Offsets,
        versions: KeyVersions,
        counters: &[PidCounter],
        clock: Clock,
    ) -> Result<TimedPlayer, AllocError>
        requires least { 100000 ≤ rate }
        requires most { rate ≤ 100000000 }
        requires offsets { CanBeTold offsets }
        requires small { All (λ k. k.version < 32) versions }
        requires counters { All IsPidCounter counters.now }
        ensures stands { IfOk result (λ player.
            (xs : List Aired) → AreKeptOf rate xs versions counters.now clock → AtEnd xs player) }
        ensures keeps { IfOk result (λ player.
            (k : Key) → given_in k player.book ≡ given_in k (given_entries versions)) }
        ensures named { IfOk result (λ player. (pid : ℕ) → pid < 8192
            → slice_index_or player.counters pid None ≡ counter_in pid counters.now) }
        ensures clock { IfOk result (λ player. player.clock ≡ reads clock) }
        ensures ended { IfOk result (λ player. player.left ≡ []) }
        ensures rate { IfOk result (λ player. player.rate ≡ rate) }
        ensures offsets { IfOk result (λ player. player.offsets ≡ offsets) }
    {
        Ok(TimedPlayer {
            book: VersionBook::of(alloc, versions)?,
            counters: Counters::of(counters),
            cycle: Cycle::ended(alloc, rate),
            buffer: [0; BATCH],
            rate,
            offsets,
            clock,
        })
    }

    /// What a player at its end goes on from (`resume`). What was handed in counts as carried and
    /// as sent. AllocError comes where memory is wanting.
    pub fn kept(&self) -> Result<PlayerState, AllocError>
        requires { self.now.left ≡ [] }
        ensures versions { IfOk result (λ kept. AreKeyVersionsOf self.now.book kept.versions) }
        ensures counters { IfOk result (λ kept. ArePidCountersOf self.now.counters kept.counters) }
        ensures clock { IfOk result (λ kept. reads kept.clock ≡ self.now.clock) }
        ensures are { IfOk result (λ kept. (xs : List Aired) → AtEnd xs self.now
            → AreKeptOf self.now.rate xs kept.versions kept.counters kept.clock) }
    {
        let versions = self.book.kept()?;
        let counters = self.counters.kept(versions.allocator())?;
        Ok(PlayerState {
            versions,
            counters,
            clock: self.clock,
        })
    }

    /// Begins the cycle of one airing more: of these sub-tables, at the moment of the swap, or at
    /// what the clock reads where that is later (EN 300 468, 5.1.1). It says whether the span of
    /// the cycle's frames is right, so that all is repeated in time. TDT and TOT tell what the
    /// clock reads in the packet in which they begin (EN 300 468, 5.2.5 and 5.2.6). The quota of
    /// the form of the airing has no effect. It needs a player at its end, a moment whose day has
    /// 16 bits, and sub-tables whose keys differ, in the order of their tiers (TR 101 211, 4.4),
    /// with PIDs below 8,191, each with at least one section, ascending numbers and bodies that fit
    /// a section in the long form, and none with the table_id 0xFF, which is fill. All memory is
    /// taken first, with 24 bytes for each section that the cycle sends: where it is wanting, or
    /// where a cycle has too many packets to count, the player stays as it was.
    pub fn swap(&mut self, tables: Tables, moment: Moment) -> Result<Timeliness, AllocError>
        requires at_end { self.old.left ≡ [] }
        requires fit { AreFit tables.list }
        requires moment { moment.0 < 65536 * 86400 }
        ensures begun { (xs : List Aired) (quota : ℕ) → AtEnd xs self.old → OnOk result (Begins xs
            (aired tables.list moment.0 (record { quota = quota; offsets = self.old.offsets }))
            self.new) }
        ensures right { IfOk result (λ cycle. (past : List AiredTables) (quota : ℕ)
            → IsTrue cycle.is_right ↔ IsRight self.old.rate past
            (aired tables.list moment.0 (record { quota = quota; offsets = self.old.offsets }))) }
        ensures leads { IfOk result (λ cycle. (past : List AiredTables) (quota : ℕ)
            → cycle.leads ≡ leads_in self.old.rate past
            (aired tables.list moment.0 (record { quota = quota; offsets = self.old.offsets }))) }
        ensures rate { self.new.rate ≡ self.old.rate }
        ensures offsets { self.new.offsets ≡ self.old.offsets }
        ensures memory { OnErr result (self.new ≡ self.old) }
    {
        let rate = self.rate;
        let clock = self.clock.at_swap(moment);
        let begun = self.cycle.begin(
            &mut self.book,
            &tables,
            self.offsets.as_slice(),
            moment,
            rate,
            clock,
        )?;
        let end = clock.later(rate, begun.packets);
        self.clock = end;
        Ok(Timeliness {
            is_right: begun.is_right,
            leads: begun.leads,
        })
    }

    /// The clock at the end of the cycle.
    pub fn clock(&self) -> Clock
        ensures { reads result ≡ self.now.clock }
    {
        self.clock
    }

    /// Whether the cycle has ended: nothing of it is to come.
    pub fn at_end(&self) -> bool
        ensures { IsTrue result ↔ (self.now.left ≡ []) }
    {
        self.cycle.is_ended()
    }

    /// The next packet of the cycle, or None at its end. It takes no memory.
    pub fn next_packet(&mut self) -> Option<TsPacket>
        ensures came { (xs : List Aired) (x : Aired) (p : Packet) (rest : List Packet)
            → Within xs x (p ∷ rest) self.old
            → (result ≡ Some (record { 0 = bytes_of_packet p })) × Within xs x rest self.new }
        ensures none { IsNone result ↔ (self.old.left ≡ []) }
        ensures kept { IfNone result (self.new ≡ self.old) }
        ensures rate { self.new.rate ≡ self.old.rate }
        ensures offsets { self.new.offsets ≡ self.old.offsets }
    {
        if self.cycle.is_ended() {
            return None;
        }
        let mut packet = TsPacket([0; 188]);
        self.cycle.put_next(&mut packet.0);
        self.counters.stamp(&mut packet);
        Some(packet)
    }

    /// Writes all that remains of the cycle into a sink, many packets at a time. Failed comes only
    /// where the sink's count of faults rose: then some packets were handed out, and the sink has a
    /// front of their bytes. It takes no memory, and keeps no time: the sink takes the bytes as
    /// fast as it likes.
    pub fn play_cycle<A: Sink>(&mut self, sink: &mut A) -> Result<(), Failed>
        ensures done { (xs : List Aired) (x : Aired) (rest : List Packet)
            → Within xs x rest self.old → OnOk result (AtEnd (xs ++ x ∷ []) self.new
            × Appends (A.written sink.old) (A.written sink.new) (flat_map bytes_of_packet rest)) }
        ensures failed { (xs : List Aired) (x : Aired) (rest : List Packet)
            → Within xs x rest self.old → OnErr result
            (GaveUp xs x rest (A.written sink.old) (A.written sink.new) self.new) }
        ensures idle { self.old.left ≡ []
            → IsOk result × (self.new ≡ self.old) × (sink.new ≡ sink.old) }
        ensures ended { OnOk result (self.new.left ≡ []) }
        ensures cause { HasCause (A.faults sink.old) (A.faults sink.new) result }
        ensures same { A.same sink.old sink.new }
        ensures rate { self.new.rate ≡ self.old.rate }
        ensures offsets { self.new.offsets ≡ self.old.offsets }
    {
        send_all(&mut self.cycle, &mut self.counters, &mut self.buffer, sink)
    }
}
