//! Passes and receipts: what a caller holds between its turns.
ghost use Rattle.std.specs.Prelude.{◌≡◌, ◌<◌, ◌+◌, ◌-◌, [], ◌∷◌, ◌++◌};
ghost use Rattle.std.specs.Prelude.{ℕ, false};
ghost use mathlib.Core.List.{IsPrefix};
ghost use Rattle.turn_lock.specs.Rule.{kept_part, new_part};

use crate::chronicle::Chronicle;
use crate::known::Known;
use crate::rule::{Comparing, Copying, Cutting, Joining, Learning, Span};
use crate::turns::{Here, Steps, Turns};
use atomic_table::Seat;
use std::marker::{Brand, Model};

/// The right to take turns under one number, and what was seen and made with it.
///
/// Contracts see a pass as `Knowledge`: the turns that it belongs to, what it has seen (a beginning of the journal), its
/// own numbers with the entries that it made under the lowest, the callers that it took in by `join`, and what the
/// state stands on. It may go to another thread. A pass that is dropped loses its numbers, so `close` cannot be reached
/// any more; all else goes on.
#[derive(Drop)]
pub struct Pass<S: Chronicle> {
    pub(crate) low: u32,
    pub(crate) span: u32,
    pub(crate) seat: Seat<Option<S>, Known<S::Entry, S::Ground>>,
}

impl<S: Chronicle> Model for Pass<S> {
    ghost use Rattle.std.specs.Prelude.{◌≡◌, ◌<◌, ◌+◌, ◌^◌, [], ◌∷◌, false};
    ghost use Rattle.turn_lock.specs.Knowledge.{Knowledge, first_of};

    ghost Value = { Knowledge S.Entry S.Ground };

    ghost view = { λ p. record { turns = p.seat.table_id; seen = p.seat.me.0.seen; own = p.seat.me.0.own; finished = p.seat.me.0.finished; on = first_of p.seat.me.0.on } };

    ghost invariant = { λ p. (p.seat.me.1 ≡ []) × (p.seat.me.0.holder ≡ false) × (p.seat.me.0.joined ≡ []) × (p.low ≡ p.seat.me.0.own.low) × (p.span ≡ p.seat.me.0.own.span) × (0 < p.span) × (p.low + p.span < 2 ^ 32) × ((g : S.Ground) × (p.seat.me.0.on ≡ g ∷ [])) };
}

/// A token of what a pass had seen when it was made. It has no number.
///
/// Contracts see it as `ReceiptTells`. It may go to another thread, and dropping it loses nothing.
#[derive(Drop)]
pub struct Receipt<S: Chronicle> {
    pub(crate) seat: Seat<Option<S>, Known<S::Entry, S::Ground>>,
}

impl<S: Chronicle> Model for Receipt<S> {
    ghost use Rattle.std.specs.Prelude.{◌≡◌, [], false};
    ghost use Rattle.turn_lock.specs.Knowledge.{ReceiptTells, first_of};

    ghost Value = { ReceiptTells S.Entry S.Ground };

    ghost view = { λ p. record { turns = p.seat.table_id; seen = p.seat.me.0.seen; on = first_of p.seat.me.0.on } };

    ghost invariant = { λ p. (p.seat.me.1 ≡ []) × (p.seat.me.0.holder ≡ false) × (p.seat.me.0.own.span ≡ 0) × (p.seat.me.0.finished ≡ []) };
}

/// Makes a seat for the highest `span` numbers of this one.
fn cut<S: Chronicle, N: Span>(shared: &Steps<S>, seat: &mut Here<S>, span: u32) -> Here<S>
    requires table { (seat.old.table_id ≡ shared.now.table_id) × (shared.now.table_id.words ≡ 2) }
    requires idle { seat.old.me.0.holder ≡ false }
    requires span { (N.span ≡ span) × (0 < span) × (span < seat.old.me.0.own.span) }
    ensures table { (seat.new.table_id ≡ seat.old.table_id) × (result.table_id ≡ seat.old.table_id) }
    ensures kept { seat.new.me ≡ (kept_part span seat.old.me.0, seat.old.me.1) }
    ensures new { result.me ≡ (new_part span seat.old.me.0, []) }
{
    let _ = span;
    shared.split_seat::<Cutting<N>>(seat)
}

impl<S: Chronicle> Pass<S> {
    ghost use Rattle.turn_lock.specs.Knowledge.{lower_part, upper_part, token, joined, having_learnt, numbers, HasAny};

    /// The number that the pass acts under: its lowest.
    pub fn who(&self) -> u32
        ensures { result ≡ self.now.own.low }
    {
        self.low
    }

    /// How many numbers the pass has of its own, at least 1; those that it took in by `join` do not count.
    pub fn span(&self) -> u32
        ensures { result ≡ self.now.own.span }
    {
        self.span
    }

    /// Cuts off the highest `span` numbers as a pass for another caller, which has seen what this one has seen, and has
    /// made nothing. At least one number stays.
    pub fn split(&mut self, turns: &Turns<S>, span: u32) -> Pass<S>
        requires turns { self.old.turns ≡ turns.now.turns }
        requires span { (0 < span) × (span < self.old.own.span) }
        ensures kept { self.new ≡ lower_part self.old span }
        ensures new { result ≡ upper_part self.old span }
    {
        let shared = &turns.table.shared;
        let seat = cut::<S, Brand>(shared, &mut self.seat, span);
        self.span -= span;
        Pass {
            low: self.low + self.span,
            span,
            seat,
        }
    }

    /// Takes in the pass of a caller that has finished: this pass has then seen the longer of both lists, which both of
    /// them begin, and keeps the other's numbers and entries with the callers that the other took in. The two never share a
    /// number.
    pub fn join(&mut self, turns: &Turns<S>, other: Pass<S>)
        requires turns { (self.old.turns ≡ turns.now.turns) × (other.turns ≡ turns.now.turns) }
        ensures joined { self.new ≡ joined self.old other }
        ensures own { IsPrefix self.old.seen self.new.seen }
        ensures told { IsPrefix other.seen self.new.seen }
        ensures apart { (k : ℕ) → HasAny (numbers self.old) k → HasAny (numbers other) k → ⊥ }
    {
        let shared = &turns.table.shared;
        let Pass {
            low: _,
            span: _,
            seat,
        } = other;
        shared.join_seat::<Joining>(&mut self.seat, seat);
        shared.load::<Comparing>(&mut self.seat, 1);
    }

    /// A token of what this pass has seen, for another pass to learn.
    pub fn receipt(&mut self, turns: &Turns<S>) -> Receipt<S>
        requires { self.old.turns ≡ turns.now.turns }
        ensures same { self.new ≡ self.old }
        ensures token { result ≡ token self.old }
    {
        let seat = turns.table.shared.split_seat::<Copying>(&mut self.seat);
        Receipt { seat }
    }

    /// Sees what the receipt tells too: the longer of both lists, which both of them begin.
    pub fn learn(&mut self, turns: &Turns<S>, receipt: Receipt<S>)
        requires turns { (self.old.turns ≡ turns.now.turns) × (receipt.turns ≡ turns.now.turns) }
        ensures told { self.new ≡ having_learnt self.old receipt }
        ensures own { IsPrefix self.old.seen self.new.seen }
        ensures learnt { IsPrefix receipt.seen self.new.seen }
    {
        let shared = &turns.table.shared;
        let Receipt { seat } = receipt;
        shared.join_seat::<Learning>(&mut self.seat, seat);
        shared.load::<Comparing>(&mut self.seat, 1);
    }
}
