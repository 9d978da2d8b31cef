//! What the rule knows of passes and receipts. These types are of proofs alone: no value of them is made.

use std::collections::LinkedList;

/// A run of numbers from `low` on, and the entries that were made under the lowest of them.
pub struct Caller<E> {
    pub low: u32,
    pub span: u32,
    pub made: LinkedList<E>,
}

/// The view of a pass, of a receipt, or of one that went into a pass and is spent: whether it holds the lock and has counted
/// in this turn, what it has seen, the lists that came together in the last join, its numbers with what it made, the
/// callers that it took in, and what the state stands on (a list of one; spent, of none).
pub struct Known<E, G> {
    pub holder: bool,
    pub counted: bool,
    pub seen: LinkedList<E>,
    pub joined: LinkedList<LinkedList<E>>,
    pub own: Caller<E>,
    pub finished: LinkedList<Caller<E>>,
    pub on: LinkedList<G>,
}
