//! What a state tells of its journal, and what a job does to it.
ghost use Rattle.std.specs.Prelude.{◌≡◌, ℕ, List, length};
ghost use Rattle.turn_lock.specs.Journal.{Grows};

/// A state that keeps a journal: a list of entries, each made by one caller.
///
/// Contracts see of a state its entries (`entries`), of an entry the number of the caller that made it (`caller`), and
/// what the state stands on (`stands_on`): plain data that no job changes.
pub trait Chronicle: Drop {
    /// An entry of the journal.
    type Entry;

    /// What the state stands on.
    type Ground;

    ghost entries: { Self → List Self.Entry };

    ghost stands_on: { Self → Self.Ground };

    ghost caller: { Self.Entry → ℕ };

    /// How many entries the journal has.
    fn count(&self) -> u64
        ensures { result ≡ length (entries self.now) };
}

/// What a caller does in one turn. It leaves the journal as it was, or appends one entry of its caller, and it leaves
/// what the state stands on.
///
/// `may_run` is what `run` needs of the job. `does` is what it promises, over the job, the caller's number, what the state
/// stands on, the entries before and after, and the answer. `Turns::turn` asks for the one and gives the other.
pub trait Job<S: Chronicle> {
    /// What the caller learns of the turn.
    type Answer;

    ghost may_run: { Self → Type 0 };

    ghost does: { Self → ℕ → S.Ground → List S.Entry → List S.Entry → Self.Answer → Type 0 };

    /// Does the job for the caller `who`.
    fn run(self, who: u32, state: &mut S) -> Self::Answer
        requires { may_run self }
        ensures appends { Grows S.caller who (S.entries state.old) (S.entries state.new) }
        ensures stands { S.stands_on state.new ≡ S.stands_on state.old }
        ensures does { does self who (S.stands_on state.old) (S.entries state.old) (S.entries state.new) result };
}
