// The player.
ghost use Rattle.std.specs.Prelude.{◌≡◌, ◌≤◌, ◌<◌, ◌*◌, ◌↔◌, ◌++◌, [], ◌∷◌, List, ℕ, Some, None, All, IsTrue, IsNone, IfNone, IsOk, IfOk, OnOk, OnErr, flat_map, slice_index_or};
ghost use Rattle.std.specs.Io.KnownBytes.{Appends};
ghost use Rattle.si_causes.specs.Causes.{HasCause};
ghost use Rattle.ts_packets.specs.Bytes.{Packet, bytes_of_packet};
ghost use Rattle.ts_packets.specs.PidCounters.{IsPidCounter, ArePidCountersOf, counter_in};
ghost use Rattle.section_codec.specs.declared.table.Key.{Key};
ghost use Rattle.section_codec.specs.SubTables.{AreFit};
ghost use Rattle.version_book.specs.Airings.{AiredTables};
ghost use Rattle.version_book.specs.Book.{AreKeyVersionsOf, aired, given_in, given_entries};
ghost use Rattle.air_model.specs.Air.{Aired, CanBeTold};
ghost use Rattle.cycle_player.specs.Clock.{reads};
ghost use Rattle.cycle_player.specs.Tally.{no_cycles};
ghost use Rattle.cycle_player.specs.Ticks.{told_by, tick_at};
ghost use Rattle.cycle_player.specs.Tallies.{tallied_at};
ghost use Rattle.cycle_player.specs.Sending.{AtEnd, AreKeptAt, Within, Begins, GaveUp};
ghost use Rattle.cycle_player.specs.Player.{CanBeRate};

use crate::{Clock, PlayerState, Tally, TimedPlayer};
use carousel_player::Player;
use guide_model::Offsets;
use section_codec::Tables;
use si_causes::{Failed, Sink};
use si_time::Moment;
use std::alloc::{AllocError, Global};
use std::marker::Model;
use ts_packets::{PidCounter, TsPacket};
use version_book::KeyVersions;

// A player without a bit rate, or one at a rate, which is not bound by the quota.
#[derive(Drop)]
enum Kind {
    Dense(Player),
    Timed(u32, TimedPlayer),
}

/// A player of cycles, at a bit rate or without one. It stands for the air that it has handed out:
/// the cycles of all airings swapped to, the last one as far as it has come. Versions, continuity
/// counters and the clock go on over all cycles. Of the cycles at a rate that it has begun itself it
/// counts those that are short.
#[derive(Drop)]
pub struct CyclePlayer {
    kind: Kind,
    tally: Tally,
}

impl Model for CyclePlayer {
    ghost use Rattle.cycle_player.specs.Sending.{Sending};
    ghost use Rattle.cycle_player.specs.Player.{sending_of};

    ghost Value = { Sending };

    ghost view = { sending_of };
}

impl CyclePlayer {
    /// A player that has handed out nothing and is at its end. The rate, where there is one,
    /// 100,000 to 100,000,000 bits per second, is that at which what it hands out is to be sent.
    /// The quota, 1 to 10,000, is the number of packets of a run between two sendings of the
    /// sections of tier Fast (`air_model`); at a rate it has no effect. The offsets, at most 16,
    /// are sent as the TOT of each cycle; where there are none, no TOT is sent. It takes no memory.
    pub fn open(alloc: Global, rate: Option<u32>, quota: u32, offsets: Offsets) -> CyclePlayer
        requires rate { CanBeRate rate }
        requires some { 1 ≤ quota }
        requires most { quota ≤ 10000 }
        requires offsets { CanBeTold offsets }
        ensures at_end { AtEnd [] result }
        ensures form { result.form ≡ record { quota = quota; offsets = offsets } }
        ensures rate { result.rate ≡ rate }
        ensures tally { result.tally ≡ no_cycles }
    {
        let kind = match rate {
            None => Kind::Dense(Player::open(alloc, quota, offsets)),
            Some(rate) => Kind::Timed(quota, TimedPlayer::open(alloc, rate, offsets)),
        };
        CyclePlayer {
            kind,
            tally: Tally::none(),
        }
    }

    /// A player at its end that goes on from what another one kept: versions, each below 32,
    /// counters, each below 16 and of a PID below 8,192, and at a rate the clock. It stands for
    /// each air of which they are what is kept (ISO/IEC 13818-1, 2.4.3.3 and 2.4.4.5). The rate,
    /// the quota and the offsets are as for `open`. AllocError comes where memory is wanting.
    pub fn resume(
        alloc: Global,
        rate: Option<u32>,
        quota: u32,
        offsets: Offsets,
        versions: KeyVersions,
        counters: &[PidCounter],
        clock: Clock,
    ) -> Result<CyclePlayer, AllocError>
        requires rate { CanBeRate rate }
        requires some { 1 ≤ quota }
        requires most { quota ≤ 10000 }
        requires offsets { CanBeTold offsets }
        requires small { All (λ k. k.version < 32) versions }
        requires counters { All IsPidCounter counters.now }
        ensures stands { IfOk result (λ player. (xs : List Aired)
            → AreKeptAt rate xs versions counters.now clock → AtEnd xs player) }
        ensures keeps { IfOk result (λ player.
            (k : Key) → given_in k player.book ≡ given_in k (given_entries versions)) }
        ensures named { IfOk result (λ player. (pid : ℕ) → pid < 8192
            → slice_index_or player.counters pid None ≡ counter_in pid counters.now) }
        ensures clock { IfOk result (λ player. (bits : ℕ) → rate ≡ Some bits
            → player.clock ≡ reads clock) }
        ensures ended { IfOk result (λ player. player.left ≡ []) }
        ensures form { IfOk result (λ player.
            player.form ≡ record { quota = quota; offsets = offsets }) }
        ensures rate { IfOk result (λ player. player.rate ≡ rate) }
        ensures tally { IfOk result (λ player. player.tally ≡ no_cycles) }
    {
        let kind = match rate {
            None => Kind::Dense(Player::resume(alloc, quota, offsets, versions, counters)?),
            Some(rate) => {
                let player = TimedPlayer::resume(alloc, rate, offsets, versions, counters, clock)?;
                Kind::Timed(quota, player)
            }
        };
        Ok(CyclePlayer {
            kind,
            tally: Tally::none(),
        })
    }

    /// What a player at its end goes on from (`resume`). What was handed in counts as carried and
    /// as sent. The clock of a player without a rate stands at 0. AllocError comes where memory is
    /// wanting.
    pub fn kept(&self) -> Result<PlayerState, AllocError>
        requires { self.now.left ≡ [] }
        ensures versions { IfOk result (λ kept. AreKeyVersionsOf self.now.book kept.versions) }
        ensures counters { IfOk result (λ kept. ArePidCountersOf self.now.counters kept.counters) }
        ensures clock { IfOk result (λ kept. reads kept.clock ≡ self.now.clock) }
        ensures are { IfOk result (λ kept. (xs : List Aired) → AtEnd xs self.now
            → AreKeptAt self.now.rate xs kept.versions kept.counters kept.clock) }
    {
        match &self.kind {
            Kind::Dense(player) => {
                let (versions, counters) = player.kept()?;
                let clock = Clock { moment: 0, bits: 0 };
                Ok(PlayerState {
                    versions,
                    counters,
                    clock,
                })
            }
            Kind::Timed(_, player) => player.kept(),
        }
    }

    /// Begins the cycle of one airing more: of these sub-tables, of the publication with this
    /// number, at the moment of the swap (EN 300 468, 5.1.1). Without a rate the cycle is that of
    /// `Player::swap`, and with one that of `TimedPlayer::swap`. It needs a player at its end, a
    /// moment whose day has 16 bits, and sub-tables whose keys differ, in the order of their tiers
    /// (TR 101 211, 4.4), with PIDs below 8,191, each with at least one section, ascending numbers
    /// and bodies that fit a section in the long form, and none with the table_id 0xFF, which is
    /// fill. All memory is taken first: where it is wanting, the player stays as it was, at its
    /// end.
    pub fn swap(&mut self, tables: Tables, number: u64, moment: Moment) -> Result<(), AllocError>
        requires at_end { self.old.left ≡ [] }
        requires fit { AreFit tables.list }
        requires moment { moment.0 < 65536 * 86400 }
        ensures begun { (xs : List Aired) → AtEnd xs self.old
            → OnOk result (Begins xs (aired tables.list moment.0 self.old.form) self.new) }
        ensures form { self.new.form ≡ self.old.form }
        ensures rate { self.new.rate ≡ self.old.rate }
        ensures tally { OnOk result ((past : List AiredTables) → self.new.tally
            ≡ tallied_at self.old.rate past (aired tables.list moment.0 self.old.form)
            self.old.tally) }
        ensures memory { OnErr result (self.new ≡ self.old) }
    {
        match &mut self.kind {
            Kind::Dense(player) => player.swap(tables, number, moment),
            Kind::Timed(_, player) => {
                if self.tally.is_full() {
                    return Err(AllocError);
                }
                let cycle = player.swap(tables, moment)?;
                self.tally = self.tally.with(cycle);
                Ok(())
            }
        }
    }

    /// What its cycles at a rate are like, of those that were begun since it was opened or resumed.
    pub fn tally(&self) -> Tally
        ensures { result ≡ self.now.tally }
    {
        self.tally
    }

    /// The moment that the clock reads at the end of the cycle, at most the last one whose day has
    /// 16 bits. There is none without a bit rate, and none while the clock stands at 0, before the
    /// first swap.
    pub fn time(&self) -> Option<Moment>
        ensures { result ≡ tick_at self.now.rate self.now.clock }
    {
        match &self.kind {
            Kind::Dense(_) => None,
            Kind::Timed(_, player) => moment_of(player.clock()),
        }
    }

    /// Whether the cycle has ended: nothing of it is to come.
    pub fn at_end(&self) -> bool
        ensures { IsTrue result ↔ (self.now.left ≡ []) }
    {
        match &self.kind {
            Kind::Dense(player) => player.at_end(),
            Kind::Timed(_, player) => player.at_end(),
        }
    }

    /// The next packet of the cycle, or None at its end. It takes no memory.
    pub fn next_packet(&mut self) -> Option<TsPacket>
        ensures came { (xs : List Aired) (x : Aired) (p : Packet) (rest : List Packet)
            → Within xs x (p ∷ rest) self.old
            → (result ≡ Some (record { 0 = bytes_of_packet p })) × Within xs x rest self.new }
        ensures none { IsNone result ↔ (self.old.left ≡ []) }
        ensures kept { IfNone result (self.new ≡ self.old) }
        ensures form { self.new.form ≡ self.old.form }
        ensures rate { self.new.rate ≡ self.old.rate }
        ensures tally { self.new.tally ≡ self.old.tally }
    {
        match &mut self.kind {
            Kind::Dense(player) => player.next_packet(),
            Kind::Timed(_, player) => player.next_packet(),
        }
    }

    /// Writes all that remains of the cycle into a sink, many packets at a time. Failed comes only
    /// where the sink's count of faults rose: then some packets were handed out, and the sink has a
    /// front of their bytes. It takes no memory, and keeps no time: the sink takes the bytes as
    /// fast as it likes.
    pub fn play_cycle<A: Sink>(&mut self, sink: &mut A) -> Result<(), Failed>
        ensures done { (xs : List Aired) (x : Aired) (rest : List Packet)
            → Within xs x rest self.old → OnOk result (AtEnd (xs ++ x ∷ []) self.new
            × Appends (A.written sink.old) (A.written sink.new) (flat_map bytes_of_packet rest)) }
        ensures failed { (xs : List Aired) (x : Aired) (rest : List Packet)
            → Within xs x rest self.old → OnErr result
            (GaveUp xs x rest (A.written sink.old) (A.written sink.new) self.new) }
        ensures idle { self.old.left ≡ []
            → IsOk result × (self.new ≡ self.old) × (sink.new ≡ sink.old) }
        ensures ended { OnOk result (self.new.left ≡ []) }
        ensures cause { HasCause (A.faults sink.old) (A.faults sink.new) result }
        ensures same { A.same sink.old sink.new }
        ensures form { self.new.form ≡ self.old.form }
        ensures rate { self.new.rate ≡ self.old.rate }
        ensures tally { self.new.tally ≡ self.old.tally }
    {
        match &mut self.kind {
            Kind::Dense(player) => player.play_cycle(sink),
            Kind::Timed(_, player) => player.play_cycle(sink),
        }
    }
}

// The last moment whose day has 16 bits (EN 300 468, annex C).
const LAST_MOMENT: u64 = 65_536 * 86_400 - 1;

fn moment_of(clock: Clock) -> Option<Moment>
    ensures { result ≡ told_by (reads clock) }
{
    if clock.moment == 0 {
        return None;
    }
    Some(Moment(clock.moment.min(LAST_MOMENT)))
}
