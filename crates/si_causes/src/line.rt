// A line that is being collected, and then shown.
ghost use Rattle.std.specs.Prelude.{◌≡◌, ◌≤◌, ◌++◌, [], take, IfOk, IsTrue, ◌↔◌};
ghost use Rattle.si_causes.specs.Lines.{shown};

use std::alloc::{AllocError, Global};
use std::marker::Model;

// one byte more than a line shows, for a CR at its end
const LINE: usize = 16386;
// one byte more than a line may have
const SHOWN: usize = 16385;

// The bytes of a line so far, as many as may matter.
#[derive(Drop)]
pub(crate) struct Line {
    bytes: Vec<u8>,
}

impl Model for Line {
    ghost use Rattle.std.specs.Prelude.{◌≤◌, List, ℕ, vec_len, vec_capacity};

    ghost Value = { List ℕ };

    ghost view = { λ l. l.bytes.items };

    ghost invariant = { λ l. (16386 ≤ vec_capacity l.bytes) × (vec_len l.bytes ≤ 16386) };
}

impl Line {
    pub(crate) fn new(alloc: Global) -> Result<Line, AllocError>
        ensures { IfOk result (λ l. l ≡ []) }
    {
        let bytes = Vec::with_capacity(alloc, LINE)?;
        Ok(Line { bytes })
    }

    pub(crate) fn bytes(&self) -> &[u8]
        ensures { result.now ≡ self.now }
    {
        &self.bytes
    }

    pub(crate) fn is_empty(&self) -> bool
        ensures { IsTrue result ↔ (self.now ≡ []) }
    {
        self.bytes.is_empty()
    }

    pub(crate) fn clear(&mut self)
        ensures { self.new ≡ [] }
    {
        self.bytes.clear();
    }

    // Adds bytes; those past the room are dropped.
    pub(crate) fn add(&mut self, piece: &[u8])
        ensures { self.new ≡ take 16386 (self.old ++ piece.now) }
    {
        let count = (LINE - self.bytes.len()).min(piece.len());
        let (front, _) = piece.split_at(count);
        self.bytes.extend_from_slice(front).unwrap();
    }

    // Leaves what is shown of the line.
    pub(crate) fn finish(&mut self)
        ensures { self.new ≡ shown self.old }
    {
        let count = self.bytes.len();
        if count > 0 && self.bytes[count - 1] == b'\r' {
            self.bytes.truncate(count - 1);
        }
        self.bytes.truncate(SHOWN);
    }
}
