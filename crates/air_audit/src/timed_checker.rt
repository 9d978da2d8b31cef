// The auditor.
ghost use Rattle.std.specs.Prelude.{◌≡◌, ◌*◌, ◌<◌, ◌≤◌, ◌↔◌, ◌++◌, ◌&&◌, [], ◌∷◌, List, ℕ, Some, IsTrue, IsNone, IfNone, IfSome, OnOk, OnErr, bytes_eq};
ghost use Rattle.section_codec.specs.SubTables.{AreFit};
ghost use Rattle.ts_packets.specs.Bytes.{Packet};
ghost use Rattle.version_book.specs.Airings.{AiredTables};
ghost use Rattle.version_book.specs.Book.{aired};
ghost use Rattle.air_model.specs.Air.{Aired, CanBeTold};
ghost use Rattle.air_audit.specs.Passing.{is_null as is_null_packet};
ghost use Rattle.cycle_player.specs.Playing.{Within};
ghost use Rattle.air_audit.specs.TimedAirs.{AreTheAir, BeginTheAir};
ghost use Rattle.air_audit.specs.TimedChecking.{Came, IsAtEnd, IsPlaced, IsWithin, StandsFor, rule_at};

use crate::is_null;
use crate::rules::rule_between;
use air_model::Rule;
use cycle_player::TimedPlayer;
use guide_model::Offsets;
use section_codec::Tables;
use si_time::Moment;
use std::alloc::{AllocError, Global};
use std::marker::Model;
use ts_packets::TsPacket;

/// An auditor of packets at a bit rate. It stands for an airing list and the packets that it
/// accepted, which are the first ones of the air of that list: the cycles of all airings but the
/// last, and the last one as far as it has come.
#[derive(Drop)]
pub struct TimedChecker {
    player: TimedPlayer,
    next: Option<TsPacket>,
    nulls: bool,
    quota: u32,
}

impl Model for TimedChecker {
    ghost use Rattle.air_audit.specs.TimedChecking.{TimedChecking, IsPlaced};

    ghost Value = { TimedChecking };

    ghost view = { λ c. record {
      playing = c.player;
      next = c.next;
      nulls = c.nulls;
      form = record { quota = c.quota; offsets = c.player.offsets };
    } };

    ghost invariant = { λ c. IsPlaced c.next c.player };
}

// Whether a packet of the air is not asked for: a null packet, where these are passed over.
fn is_passed(nulls: bool, packet: &[u8; 188]) -> bool
    ensures { result ≡ (nulls && is_null_packet packet.now) }
{
    nulls && is_null(packet)
}

// Has the player hand out its packets up to the next one that is asked for, or to the end of the
// cycle.
fn advance(player: &mut TimedPlayer, nulls: bool) -> Option<TsPacket>
    requires { IsWithin player.old }
    ensures came { (xs : List Aired) (x : Aired) (rest : List Packet)
        → Within xs x rest player.old → Came nulls xs x rest player.new result }
    ensures placed { IsPlaced result player.new }
    ensures rate { player.new.rate ≡ player.old.rate }
    ensures offsets { player.new.offsets ≡ player.old.offsets }
{
    'nulls: loop {
        match player.next_packet() {
            Some(packet) => {
                if !is_passed(nulls, &packet.0) {
                    return Some(packet);
                }
            }
            None => return None,
        }
    }
}

// Whether two packets are the same.
fn is_same(expected: &[u8; 188], found: &[u8; 188]) -> bool
    ensures { result ≡ bytes_eq expected.now found.now }
{
    expected.as_slice() == found.as_slice()
}

impl TimedChecker {
    /// An auditor of the empty airing list, which is at an end. The rate, 100,000 to 100,000,000
    /// bits per second, and the offsets are those of the air, as a player's; the quota has no
    /// effect. With `nulls` null packets are passed over. It takes no memory.
    pub fn open(alloc: Global, rate: u32, quota: u32, offsets: Offsets, nulls: bool) -> TimedChecker
        requires least { 100000 ≤ rate }
        requires most { rate ≤ 100000000 }
        requires offsets { CanBeTold offsets }
        ensures stands { StandsFor [] [] result }
        ensures at_end { IsAtEnd result }
        ensures rate { result.playing.rate ≡ rate }
        ensures form { result.form ≡ record { quota = quota; offsets = offsets } }
        ensures nulls { result.nulls ≡ nulls }
    {
        TimedChecker {
            player: TimedPlayer::open(alloc, rate, offsets),
            next: None,
            nulls,
            quota,
        }
    }

    /// Adds an airing: these sub-tables, at the moment of the swap, in a cycle of the auditor's
    /// form. It needs an auditor at an end, and sub-tables and a moment with which a player swaps
    /// (`TimedPlayer::swap`). All memory is taken first: where it is wanting, the auditor is
    /// unchanged.
    pub fn swap(&mut self, tables: Tables, moment: Moment) -> Result<(), AllocError>
        requires at_end { IsAtEnd self.old }
        requires fit { AreFit tables.list }
        requires moment { moment.0 < 65536 * 86400 }
        ensures swapped { (airings : List AiredTables) (accepted : List (List ℕ))
            → StandsFor airings accepted self.old → OnOk result (StandsFor
            (airings ++ aired tables.list moment.0 self.old.form ∷ []) accepted self.new) }
        ensures rate { self.new.playing.rate ≡ self.old.playing.rate }
        ensures form { self.new.form ≡ self.old.form }
        ensures nulls { self.new.nulls ≡ self.old.nulls }
        ensures memory { OnErr result (self.new ≡ self.old) }
    {
        self.player.swap(tables, moment)?;
        self.next = advance(&mut self.player, self.nulls);
        Ok(())
    }

    /// Whether the packets accepted are the air of the airing list: nothing of its cycle is to
    /// come.
    pub fn at_end(&self) -> bool
        ensures end { IsTrue result ↔ IsAtEnd self.now }
        ensures air { (airings : List AiredTables) (accepted : List (List ℕ))
            → StandsFor airings accepted self.now → IsTrue result
            ↔ AreTheAir self.now.playing.rate self.now.nulls airings accepted }
    {
        self.next.is_none()
    }

    /// Checks a packet. None comes exactly where the packets accepted with it are the first ones of
    /// the air of the airing list; it is then accepted. Otherwise nothing changes, and the answer
    /// is the first rule by which it differs from the packet that is expected; at an end it is
    /// `Pid`. It takes no memory.
    pub fn check(&mut self, packet: &[u8; 188]) -> Option<Rule>
        ensures accepted { (airings : List AiredTables) (accepted : List (List ℕ))
            → StandsFor airings accepted self.old
            → IfNone result (StandsFor airings (accepted ++ packet.now ∷ []) self.new) }
        ensures exactly { (airings : List AiredTables) (accepted : List (List ℕ))
            → StandsFor airings accepted self.old → IsNone result
            ↔ BeginTheAir self.old.playing.rate self.old.nulls airings
            (accepted ++ packet.now ∷ []) }
        ensures rule { IfSome result (λ rule. rule ≡ rule_at self.old packet.now) }
        ensures kept { IfSome result (λ _. self.new ≡ self.old) }
        ensures rate { self.new.playing.rate ≡ self.old.playing.rate }
        ensures form { self.new.form ≡ self.old.form }
        ensures nulls { self.new.nulls ≡ self.old.nulls }
    {
        let expected = match &self.next {
            Some(expected) => *expected,
            None => return Some(Rule::Pid),
        };
        if !is_same(&expected.0, packet) {
            return Some(rule_between(&expected.0, packet));
        }
        self.next = advance(&mut self.player, self.nulls);
        None
    }
}
