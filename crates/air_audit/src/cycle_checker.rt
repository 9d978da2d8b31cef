// The auditor.
ghost use Rattle.std.specs.Prelude.{◌≡◌, ◌*◌, ◌<◌, ◌≤◌, ◌↔◌, ◌++◌, [], ◌∷◌, List, ℕ, Bool, Option, IsTrue, IsNone, IfNone, IfSome, OnOk, OnErr};
ghost use Rattle.section_codec.specs.SubTables.{AreFit};
ghost use Rattle.version_book.specs.Airings.{AiredTables};
ghost use Rattle.version_book.specs.Book.{aired};
ghost use Rattle.air_model.specs.Air.{CanBeTold};
ghost use Rattle.cycle_player.specs.Player.{CanBeRate};
ghost use Rattle.air_audit.specs.CycleChecking.{BeginsFor, IsAtEnd, IsOf, StandsAt, form_of, rule_at};

use crate::{Checker, TimedChecker};
use air_model::Rule;
use guide_model::Offsets;
use section_codec::Tables;
use si_time::Moment;
use std::alloc::{AllocError, Global};
use std::marker::Model;

// An auditor without a bit rate, or one at a rate.
#[derive(Drop)]
enum Kind {
    Dense(Checker),
    Timed(TimedChecker),
}

/// An auditor of packets, at a bit rate or without one. It stands for an airing list and the packets
/// that it accepted, which are first ones of an air of that list: the cycles of all airings but the
/// last, and the last one as far as it has come.
#[derive(Drop)]
pub struct CycleChecker {
    kind: Kind,
}

impl Model for CycleChecker {
    ghost use Rattle.air_audit.specs.CycleChecking.{Auditing};
    ghost use Rattle.air_audit.specs.Checker.{auditing_of};

    ghost Value = { Auditing };

    ghost view = { auditing_of };
}

impl CycleChecker {
    /// An auditor of the empty airing list, which is at an end. The rate, where there is one, the
    /// quota and the offsets are those of the cycles, as a player's (`CyclePlayer::open`). With
    /// `nulls` the null packets of an air at a rate are not asked for. It takes no memory.
    pub fn open(
        alloc: Global,
        rate: Option<u32>,
        quota: u32,
        offsets: Offsets,
        nulls: bool,
    ) -> CycleChecker
        requires rate { CanBeRate rate }
        requires some { 1 ≤ quota }
        requires most { quota ≤ 10000 }
        requires offsets { CanBeTold offsets }
        ensures stands { StandsAt [] [] result }
        ensures at_end { IsAtEnd result }
        ensures form { form_of result ≡ record { quota = quota; offsets = offsets } }
        ensures kind { IsOf rate nulls result }
    {
        let kind = match rate {
            None => Kind::Dense(Checker::open(alloc, quota, offsets)),
            Some(rate) => { Kind::Timed(TimedChecker::open(alloc, rate, quota, offsets, nulls)) }
        };
        CycleChecker { kind }
    }

    /// Adds an airing: these sub-tables, at the moment of the swap, in a cycle of the auditor's
    /// form. It needs an auditor at an end, and sub-tables and a moment with which a player swaps
    /// (`CyclePlayer::swap`). All memory is taken first: where it is wanting, the auditor is
    /// unchanged.
    pub fn swap(&mut self, tables: Tables, moment: Moment) -> Result<(), AllocError>
        requires at_end { IsAtEnd self.old }
        requires fit { AreFit tables.list }
        requires moment { moment.0 < 65536 * 86400 }
        ensures swapped { (airings : List AiredTables) (accepted : List (List ℕ))
            → StandsAt airings accepted self.old → OnOk result (StandsAt
            (airings ++ aired tables.list moment.0 (form_of self.old) ∷ []) accepted self.new) }
        ensures form { form_of self.new ≡ form_of self.old }
        ensures kind { (rate : Option ℕ) (nulls : Bool) → IsOf rate nulls self.old
            → IsOf rate nulls self.new }
        ensures memory { OnErr result (self.new ≡ self.old) }
    {
        match &mut self.kind {
            Kind::Dense(checker) => checker.swap(tables, moment),
            Kind::Timed(checker) => checker.swap(tables, moment),
        }
    }

    /// Whether nothing of its cycle is to come.
    pub fn at_end(&self) -> bool
        ensures { IsTrue result ↔ IsAtEnd self.now }
    {
        match &self.kind {
            Kind::Dense(checker) => checker.at_end(),
            Kind::Timed(checker) => checker.at_end(),
        }
    }

    /// Checks a packet. None comes exactly where the packets accepted with it are first ones of an
    /// air of the airing list; it is then accepted. Otherwise nothing changes, and the answer is the
    /// first rule that the packet breaks, or by which it differs from the one that is expected. It
    /// takes no memory.
    pub fn check(&mut self, packet: &[u8; 188]) -> Option<Rule>
        ensures accepted { (airings : List AiredTables) (accepted : List (List ℕ))
            → StandsAt airings accepted self.old
            → IfNone result (StandsAt airings (accepted ++ packet.now ∷ []) self.new) }
        ensures exactly { (airings : List AiredTables) (accepted : List (List ℕ))
            → StandsAt airings accepted self.old
            → IsNone result ↔ BeginsFor self.old airings (accepted ++ packet.now ∷ []) }
        ensures rule { (airings : List AiredTables) (accepted : List (List ℕ))
            → StandsAt airings accepted self.old
            → IfSome result (λ rule. rule ≡ rule_at accepted self.old packet.now) }
        ensures kept { IfSome result (λ _. self.new ≡ self.old) }
        ensures form { form_of self.new ≡ form_of self.old }
        ensures kind { (rate : Option ℕ) (nulls : Bool) → IsOf rate nulls self.old
            → IsOf rate nulls self.new }
    {
        match &mut self.kind {
            Kind::Dense(checker) => checker.check(packet),
            Kind::Timed(checker) => checker.check(packet),
        }
    }
}
