//! The rule of the lock, and one type for each step that a proof has to name. Nothing here runs.
ghost use Rattle.turn_lock.specs.Rule.{Kept, first_view, blank, kept_part, new_part, same_view, receipt_view, learnt, joined_with, Acquires, Counts, Releases, Compares};
ghost use Rattle.std.specs.Prelude.{ℕ, Option, None};

use crate::chronicle::Chronicle;
use crate::known::Known;
use atomic_table::{Join, Play, Split, TableRule};
use std::marker::{Brand, PhantomData};
use std::snapshot::Snapshot;

/// What the rule reads of the opening: how many numbers there are, and the state that was taken.
#[derive(Drop)]
pub struct TurnKey<S> {
    pub callers: u32,
    pub first: Snapshot<S>,
}

/// The rule itself.
pub struct Turning;

impl<S: Chronicle> TableRule<Option<S>, Known<S::Entry, S::Ground>, TurnKey<S>> for Turning {
    ghost holds = { λ key. Kept S.entries S.stands_on S.caller key.callers (S.stands_on key.first.value) };

    ghost first = { λ key. first_view key.callers (S.stands_on key.first.value) };
}

/// A try to take the lock.
pub struct Acquiring;

impl<S: Chronicle> Play<Option<S>, Known<S::Entry, S::Ground>> for Acquiring {
    ghost then = { Acquires S.entries S.stands_on S.caller };
}

/// The state whose count is stored, named for the proof: a call at `Brand` picks it.
pub trait Said<S> {
    ghost state: { Option S };
}

impl<S> Said<S> for Brand {
    ghost state = { None };
}

/// The store of the count.
pub struct Counting<W>(PhantomData<W>);

impl<S: Chronicle, W: Said<S>> Play<Option<S>, Known<S::Entry, S::Ground>> for Counting<W> {
    ghost then = { Counts S.entries S.stands_on S.caller W.state };
}

/// The release of the lock.
pub struct Releasing;

impl<S: Chronicle> Play<Option<S>, Known<S::Entry, S::Ground>> for Releasing {
    ghost then = { Releases S.entries S.stands_on S.caller };
}

/// The load behind a join.
pub struct Comparing;

impl<S: Chronicle> Play<Option<S>, Known<S::Entry, S::Ground>> for Comparing {
    ghost then = { Compares S.entries S.stands_on S.caller };
}

/// How many numbers a split gives, named for the proof: a call at `Brand` picks it.
pub trait Span {
    ghost span: { ℕ };
}

impl Span for Brand {
    ghost span = { 0 };
}

/// The split of a pass.
pub struct Cutting<N>(PhantomData<N>);

impl<E, G, N: Span> Split<Known<E, G>> for Cutting<N> {
    ghost left = { kept_part N.span };

    ghost right = { new_part N.span };
}

/// The split that makes a receipt.
pub struct Copying;

impl<E, G> Split<Known<E, G>> for Copying {
    ghost left = { same_view };

    ghost right = { receipt_view };
}

/// The join of a pass into a pass.
pub struct Joining;

impl<E, G> Join<Known<E, G>> for Joining {
    ghost both = { joined_with };

    ghost spent = { blank };
}

/// The join of a receipt into a pass.
pub struct Learning;

impl<E, G> Join<Known<E, G>> for Learning {
    ghost both = { learnt };

    ghost spent = { blank };
}
