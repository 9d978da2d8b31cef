//! The lock itself: opening, turns and closing.
ghost use Rattle.std.specs.Prelude.{◌≡◌, ℕ, ◌<◌, ◌+◌, ◌-◌, List, [], ◌∷◌, ◌++◌, length, false, true, Some, None, IfOk};
ghost use mathlib.Core.List.{IsPrefix};
ghost use Rattle.turn_lock.specs.Journal.{Grows};
ghost use Rattle.turn_lock.specs.Knowledge.{IsExact};
ghost use Rattle.turn_lock.specs.Rule.{all_of, holding, counted_view, let_go_view};

use crate::chronicle::{Chronicle, Job};
use crate::known::Known;
use crate::pass::Pass;
use crate::rule::{Acquiring, Counting, Releasing, Said, TurnKey, Turning};
use atomic_table::{Seat, Shared, Table};
use std::alloc::{AllocError, Global};
use std::marker::{Brand, Model};
use std::snapshot::Snapshot;
use std::sync::Wait;

pub(crate) type Here<S> = Seat<Option<S>, Known<<S as Chronicle>::Entry, <S as Chronicle>::Ground>>;

pub(crate) type Steps<S> = Shared<
    Option<S>,
    Known<<S as Chronicle>::Entry, <S as Chronicle>::Ground>,
    TurnKey<S>,
    Turning,
>;

/// The lock over a state. It may be shared by threads, where the state may be sent to one.
///
/// Contracts see it as `Lock`: which turns they are, and how many numbers there are for callers.
#[derive(Drop)]
pub struct Turns<S: Chronicle> {
    pub(crate) table: Table<Option<S>, Known<S::Entry, S::Ground>, TurnKey<S>, Turning, Global>,
}

impl<S: Chronicle> Model for Turns<S> {
    ghost use Rattle.std.specs.Prelude.{◌≡◌};
    ghost use Rattle.turn_lock.specs.Knowledge.{Lock};

    ghost Value = { Lock };

    ghost view = { λ t. record { turns = t.table.shared.table_id; callers = t.table.shared.key.callers } };

    ghost invariant = { λ t. (t.table.shared.table_id.words ≡ 2) × (t.table.shared.table_id.slots ≡ 1) };
}

/// Takes the lock with the state. Where another holds it, this parks until it is woken, and tries again.
fn take_lock<S: Chronicle, W: Wait>(shared: &Steps<S>, rt: &W, seat: &mut Here<S>)
    requires table { (seat.old.table_id ≡ shared.now.table_id) × (shared.now.table_id.words ≡ 2) × (shared.now.table_id.slots ≡ 1) }
    requires idle { (seat.old.me.1 ≡ []) × (seat.old.me.0.joined ≡ []) × (0 < seat.old.me.0.own.span) }
    ensures table { (seat.new.table_id ≡ seat.old.table_id) × (seat.new.id ≡ seat.old.id) }
    ensures takes { (x : S) × (seat.new.me.1 ≡ (0, Some x) ∷ []) × (seat.new.me.0 ≡ holding seat.old.me.0 (S.entries x)) × IsPrefix seat.old.me.0.seen (S.entries x) × ((g : S.Ground) → seat.old.me.0.on ≡ g ∷ [] → S.stands_on x ≡ g) }
{
    for _ in rt.forever() {
        if shared.compare_exchange::<Acquiring>(seat, 0, 0, 1) == 0 {
            return;
        }
        shared.park(rt, 0, 1);
    }
    unreachable!()
}

/// Stores the count of the journal behind the job: here its entry comes into the journal.
fn store_count<S: Chronicle, W: Said<S>>(shared: &Steps<S>, seat: &mut Here<S>, state: &S)
    requires said { W.state ≡ Some state.now }
    requires table { (seat.old.table_id ≡ shared.now.table_id) × (shared.now.table_id.words ≡ 2) }
    requires holds { (seat.old.me.0.holder ≡ true) × (seat.old.me.0.joined ≡ []) × (0 < seat.old.me.0.own.span) }
    requires grows { Grows S.caller seat.old.me.0.own.low seat.old.me.0.seen (S.entries state.now) }
    ensures table { (seat.new.table_id ≡ seat.old.table_id) × (seat.new.id ≡ seat.old.id) }
    ensures view { seat.new.me ≡ (counted_view seat.old.me.0 (S.entries state.now), seat.old.me.1) }
    ensures exact { IsExact S.caller (S.entries state.now) (all_of seat.new.me.0) }
{
    shared.store::<Counting<W>>(seat, 1, state.count());
}

/// Puts the state back, whose journal was counted, and lets the lock go.
fn put_back<S: Chronicle>(shared: &Steps<S>, seat: &mut Here<S>, state: S)
    requires table { (seat.old.table_id ≡ shared.now.table_id) × (shared.now.table_id.words ≡ 2) × (shared.now.table_id.slots ≡ 1) }
    requires holds { (seat.old.me.1 ≡ (0, None) ∷ []) × (seat.old.me.0.holder ≡ true) × (seat.old.me.0.joined ≡ []) }
    requires counted { (seat.old.me.0.counted ≡ true) × (seat.old.me.0.seen ≡ S.entries state) }
    requires stands { seat.old.me.0.on ≡ S.stands_on state ∷ [] }
    ensures table { (seat.new.table_id ≡ seat.old.table_id) × (seat.new.id ≡ seat.old.id) }
    ensures view { seat.new.me ≡ (let_go_view seat.old.me.0, []) }
{
    let empty = shared.exchange(seat, 0, Some(state));
    let None = empty else { unreachable!() };
    shared.store::<Releasing>(seat, 0, 0);
    shared.wake_one(0);
}

impl<S: Chronicle> Turns<S> {
    ghost use Rattle.turn_lock.specs.Knowledge.{first_pass, HasAny, Turned, Closes, numbers};

    /// The lock over a state without entries, and the first pass, which has all numbers from 0 to `callers` - 1, at least
    /// one. `AllocError` is want of memory; the state is dropped then.
    pub fn open(alloc: Global, state: S, callers: u32) -> Result<(Turns<S>, Pass<S>), AllocError>
        requires callers { 0 < callers }
        requires empty { S.entries state ≡ [] }
        ensures { IfOk result (λ t. (t.0.callers ≡ callers) × (t.1 ≡ first_pass t.0.turns callers (S.stands_on state))) }
    {
        let key = TurnKey {
            callers,
            first: Snapshot::of(&state),
        };
        let mut slots = Vec::new(alloc);
        if slots.push(Some(state)).is_err() {
            return Err(AllocError);
        }
        match Table::new(alloc, &[0, 0], slots, &key) {
            Ok((table, seat)) => Ok((
                Turns { table },
                Pass {
                    low: 0,
                    span: callers,
                    seat,
                },
            )),
            Err(_) => Err(AllocError),
        }
    }

    /// Runs the job once on the state, under the lowest number of the pass, while no other job runs, and gives its answer.
    /// It may wait for other turns to end. What the pass has then seen is the journal behind the job (`Turned`).
    pub fn turn<W: Wait, J: Job<S>>(&self, rt: &W, pass: &mut Pass<S>, job: J) -> J::Answer
        requires turns { pass.old.turns ≡ self.now.turns }
        requires job { J.may_run job }
        ensures { Turned S.caller (λ base before after. J.does job pass.old.own.low base before after result) pass.old pass.new }
    {
        let shared = &self.table.shared;
        take_lock(shared, rt, &mut pass.seat);
        let mut state = shared.exchange(&mut pass.seat, 0, None).unwrap();
        let answer = job.run(pass.low, &mut state);
        store_count::<S, Brand>(shared, &mut pass.seat, &state);
        put_back(shared, &mut pass.seat, state);
        answer
    }

    /// The state, once the pass has all numbers again, as its own or by `join`. The journal begins with all that the
    /// pass had seen, and has of each caller exactly what it made (`Closes`). Receipts that are still about do not matter.
    pub fn close(self, pass: Pass<S>) -> S
        requires turns { pass.turns ≡ self.turns }
        requires whole { (k : ℕ) → k < self.callers → HasAny (numbers pass) k }
        ensures closes { Closes S.caller pass (S.entries result) }
        ensures stands { pass.on ≡ Some (S.stands_on result) }
    {
        let Turns { table } = self;
        let Pass {
            low: _,
            span: _,
            seat,
        } = pass;
        let mut closed = table.close_with(seat);
        let slot = closed.take(0);
        closed.free();
        slot.unwrap()
    }
}
