// The player.
ghost use Rattle.std.specs.Prelude.{◌≡◌, ◌≤◌, ◌<◌, ◌*◌, ◌↔◌, ◌++◌, [], ◌∷◌, List, ℕ, Some, None, All, IsTrue, IsNone, IfNone, IsOk, IfOk, OnOk, OnErr, flat_map, slice_index_or};
ghost use Rattle.std.specs.Io.KnownBytes.{Appends};
ghost use Rattle.si_causes.specs.Causes.{HasCause};
ghost use Rattle.ts_packets.specs.Bytes.{Packet, bytes_of_packet};
ghost use Rattle.ts_packets.specs.PidCounters.{IsPidCounter, ArePidCountersOf, counter_in};
ghost use Rattle.section_codec.specs.declared.table.Key.{Key};
ghost use Rattle.version_book.specs.Book.{AreKeyVersionsOf, aired, given_in, given_entries};
ghost use Rattle.air_model.specs.Air.{Aired};
ghost use Rattle.section_codec.specs.SubTables.{AreFit};
ghost use Rattle.air_model.specs.Air.{CanBeTold};
ghost use Rattle.carousel_player.specs.Playing.{AtEnd, AreKeptOf, Within, Begins, GaveUp};

use crate::cycle::Cycle;
use crate::{BATCH, PacketQueue, send_all};
use guide_model::Offsets;
use section_codec::Tables;
use si_causes::{Failed, Sink};
use si_time::Moment;
use std::alloc::{AllocError, Global};
use std::marker::Model;
use ts_packets::{Counters, PidCounter, PidCounters, TsPacket};
use version_book::{KeyVersions, VersionBook};

/// A player of cycles. It stands for the air that it has handed out: the cycles of all airings swapped to, the last one
/// as far as it has come. Versions and continuity counters go on over all cycles.
#[derive(Drop)]
pub struct Player {
    book: VersionBook,
    counters: Counters,
    cycle: Cycle,
    buffer: [u8; BATCH],
    quota: u32,
    offsets: Offsets,
}

impl Model for Player {
    ghost use Rattle.air_model.specs.Air.{CanBeTold};
    ghost use Rattle.carousel_player.specs.Playing.{Playing};

    ghost Value = { Playing };

    ghost view = { λ p. record { book = p.book; counters = p.counters; left = p.cycle; form = record { quota = p.quota; offsets = p.offsets } } };

    ghost invariant = { λ p. CanBeTold p.offsets };
}

impl Player {
    /// A player that has handed out nothing and is at its end. The quota, 1 to 10,000, is the
    /// number of packets of a run between two sendings of the sections of tier Fast (`air_model`).
    /// The offsets, at most 16, are sent as the TOT of each cycle; where there are none, no TOT is
    /// sent. It takes no memory.
    pub fn open(alloc: Global, quota: u32, offsets: Offsets) -> Player
        requires some { 1 ≤ quota }
        requires most { quota ≤ 10000 }
        requires offsets { CanBeTold offsets }
        ensures at_end { AtEnd [] result }
        ensures form { result.form ≡ record { quota = quota; offsets = offsets } }
    {
        Player {
            book: VersionBook::open(alloc),
            counters: Counters::open(),
            cycle: Cycle::ended(alloc),
            buffer: [0; BATCH],
            quota,
            offsets,
        }
    }

    /// A player at its end that goes on from these versions, each below 32, and counters, each
    /// below 16 and of a PID below 8,192: it stands for each air of which they are what is kept. A
    /// PID whose counter is 0 had 16, 32, .. packets, and one that is not named had none (ISO/IEC
    /// 13818-1, 2.4.3.3 and 2.4.4.5). The quota and the offsets are as for `open`. AllocError comes
    /// where memory is wanting.
    pub fn resume(
        alloc: Global,
        quota: u32,
        offsets: Offsets,
        kept: KeyVersions,
        counters: &[PidCounter],
    ) -> Result<Player, AllocError>
        requires some { 1 ≤ quota }
        requires most { quota ≤ 10000 }
        requires offsets { CanBeTold offsets }
        requires small { All (λ k. k.version < 32) kept }
        requires counters { All IsPidCounter counters.now }
        ensures stands { IfOk result (λ player.
            (xs : List Aired) → AreKeptOf xs kept counters.now → AtEnd xs player) }
        ensures keeps { IfOk result (λ player.
            (k : Key) → given_in k player.book ≡ given_in k (given_entries kept)) }
        ensures named { IfOk result (λ player. (pid : ℕ) → pid < 8192
            → slice_index_or player.counters pid None ≡ counter_in pid counters.now) }
        ensures ended { IfOk result (λ player. player.left ≡ []) }
        ensures form { IfOk result (λ player. player.form ≡ record { quota = quota; offsets = offsets }) }
    {
        Ok(Player {
            book: VersionBook::of(alloc, kept)?,
            counters: Counters::of(counters),
            cycle: Cycle::ended(alloc),
            buffer: [0; BATCH],
            quota,
            offsets,
        })
    }

    /// What a player at its end goes on from (`resume`): each key that an airing carried, with its
    /// last version and content, and each PID that had a packet, with its counter, both in
    /// ascending order. What was handed in counts as carried and as sent. AllocError comes where
    /// memory is wanting.
    pub fn kept(&self) -> Result<(KeyVersions, PidCounters), AllocError>
        requires { self.now.left ≡ [] }
        ensures versions { IfOk result (λ kept. AreKeyVersionsOf self.now.book kept.0) }
        ensures counters { IfOk result (λ kept. ArePidCountersOf self.now.counters kept.1) }
        ensures are { IfOk result (λ kept.
            (xs : List Aired) → AtEnd xs self.now → AreKeptOf xs kept.0 kept.1) }
    {
        let versions = self.book.kept()?;
        let counters = self.counters.kept(versions.allocator())?;
        Ok((versions, counters))
    }

    /// Begins the cycle of one airing more: of these sub-tables, of the publication with this
    /// number, at the moment of the swap (EN 300 468, 5.1.1), in a cycle of the player's form. The
    /// moment is sent as the cycle's TDT (EN 300 468, 5.2.5), and where there are offsets with
    /// these as its TOT (5.2.6); no packet tells the number. Each section is laid once, and is sent
    /// as often as its tier and the quota say (`air_model`); sections of one PID that follow each
    /// other share packets (ISO/IEC 13818-1, 2.4.4). It needs a player at its end, a moment whose
    /// day has 16 bits, and sub-tables whose keys differ, in the order of their tiers (TR 101 211,
    /// 4.4), with PIDs below 8,191, each with at least one section, ascending numbers and bodies
    /// that fit a section in the long form, and none with the table_id 0xFF, which is fill. All
    /// memory is taken first: where it is wanting, the player stays as it was, at its end.
    pub fn swap(&mut self, tables: Tables, number: u64, moment: Moment) -> Result<(), AllocError>
        requires at_end { self.old.left ≡ [] }
        requires fit { AreFit tables.list }
        requires moment { moment.0 < 65536 * 86400 }
        ensures begun { (xs : List Aired) → AtEnd xs self.old → OnOk result (Begins xs (aired tables.list moment.0 self.old.form) self.new) }
        ensures form { self.new.form ≡ self.old.form }
        ensures memory { OnErr result (self.new ≡ self.old) }
    {
        let quota = self.quota;
        self.cycle.begin(
            &mut self.book,
            &tables,
            quota,
            self.offsets.as_slice(),
            moment,
        )
    }

    /// Whether the cycle has ended: nothing of it is to come.
    pub fn at_end(&self) -> bool
        ensures { IsTrue result ↔ (self.now.left ≡ []) }
    {
        self.cycle.is_ended()
    }

    /// The next packet of the cycle, or None at its end. It takes no memory.
    pub fn next_packet(&mut self) -> Option<TsPacket>
        ensures came { (xs : List Aired) (x : Aired) (p : Packet) (rest : List Packet) → Within xs x (p ∷ rest) self.old
            → (result ≡ Some (record { 0 = bytes_of_packet p })) × Within xs x rest self.new }
        ensures none { IsNone result ↔ (self.old.left ≡ []) }
        ensures kept { IfNone result (self.new ≡ self.old) }
        ensures form { self.new.form ≡ self.old.form }
    {
        if self.cycle.is_ended() {
            return None;
        }
        let mut packet = TsPacket([0; 188]);
        self.cycle.put_next(&mut packet.0);
        self.counters.stamp(&mut packet);
        Some(packet)
    }

    /// Writes all that remains of the cycle into a sink, many packets at a time. Failed comes only where the sink's
    /// count of faults rose: then some packets were handed out, and the sink has a front of their bytes. It takes no
    /// memory.
    pub fn play_cycle<A: Sink>(&mut self, sink: &mut A) -> Result<(), Failed>
        ensures done { (xs : List Aired) (x : Aired) (rest : List Packet) → Within xs x rest self.old
            → OnOk result (AtEnd (xs ++ x ∷ []) self.new × Appends (A.written sink.old) (A.written sink.new) (flat_map bytes_of_packet rest)) }
        ensures failed { (xs : List Aired) (x : Aired) (rest : List Packet) → Within xs x rest self.old
            → OnErr result (GaveUp xs x rest (A.written sink.old) (A.written sink.new) self.new) }
        ensures idle { self.old.left ≡ [] → IsOk result × (self.new ≡ self.old) × (sink.new ≡ sink.old) }
        ensures ended { OnOk result (self.new.left ≡ []) }
        ensures cause { HasCause (A.faults sink.old) (A.faults sink.new) result }
        ensures same { A.same sink.old sink.new }
        ensures form { self.new.form ≡ self.old.form }
    {
        send_all(&mut self.cycle, &mut self.counters, &mut self.buffer, sink)
    }
}
