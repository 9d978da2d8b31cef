// Sources and sinks in memory, for tests.
ghost use Rattle.std.specs.Prelude.{◌≡◌, ◌≤◌, ◌-◌, ◌<◌, ◌↔◌, [], length, take, drop, min, Some, IfOk, IsErr, IsTrue, Ok, true, if◌then◌else◌};
ghost use Rattle.std.specs.Io.{ReadsAtMost};
ghost use Rattle.std.specs.Io.KnownBytes.{ReadConsumes};
ghost use Rattle.si_causes.specs.Causes.{HasCause, Rose, TakesSome};
ghost use Rattle.si_causes.specs.Memory.{no_calls, fails_next, and_call, and_failed, raised};
ghost use Rattle.si_causes.specs.Memory.{read_answer, read_after, write_after};

use crate::causes::{Failed, Sink, Source};
use std::alloc::Global;
use std::marker::Model;

// The calls of a source or sink, of which some are to fail.
#[derive(Drop)]
pub(crate) struct Counts {
    fail_at: Vec<u64>,
    calls: u64,
    faults: u64,
}

impl Model for Counts {
    ghost use Rattle.si_causes.specs.Memory.{Calls};

    ghost Value = { Calls };

    ghost view = { λ c. record { fail_at = c.fail_at.items; calls = c.calls; faults = c.faults } };
}

impl Counts {
    pub(crate) fn new(fail_at: Vec<u64>) -> Counts
        ensures { result ≡ no_calls fail_at.items }
    {
        Counts {
            fail_at,
            calls: 0,
            faults: 0,
        }
    }

    // How many calls were counted.
    pub(crate) fn number(&self) -> u64
        ensures { result ≡ self.now.calls }
    {
        self.calls
    }

    // Counts a call, and a fault where it is one of those that fail.
    pub(crate) fn call(&mut self) -> Result<(), Failed>
        ensures cause { HasCause self.old.faults self.new.faults result }
        ensures fails { IsErr result ↔ (fails_next self.old ≡ true) }
        ensures after { self.new ≡ (if fails_next self.old then and_failed self.old else and_call self.old) }
    {
        let fails = self.fail_at.contains(&self.calls);
        self.calls = self.calls.saturating_add(1);
        if fails {
            return Err(self.fault());
        }
        Ok(())
    }

    // Counts a fault.
    pub(crate) fn fault(&mut self) -> Failed
        ensures later { self.old.faults ≤ self.new.faults }
        ensures rose { Rose self.old.faults self.new.faults }
        ensures after { self.new ≡ record self.old { faults = raised self.old.faults } }
    {
        self.faults = self.faults.saturating_add(1);
        Failed
    }
}

/// A source over bytes in memory. One call gives at most `piece` bytes. The calls named by `fail_at`, counted
/// from 0, fail.
#[derive(Drop)]
pub struct MemSource {
    bytes: Vec<u8>,
    at: usize,
    piece: usize,
    calls: Counts,
}

impl Model for MemSource {
    ghost use Rattle.std.specs.Prelude.{◌≤◌, length, drop};
    ghost use Rattle.si_causes.specs.Memory.{Supply};

    ghost Value = { Supply };

    ghost view = { λ s. record { left = drop s.at s.bytes.items; piece = s.piece; calls = s.calls } };

    ghost invariant = { λ s. (s.at ≤ length s.bytes.items) × (1 ≤ s.piece) };
}

impl MemSource {
    /// A source over these bytes, of which no call was made. It takes no memory.
    pub fn open(bytes: Vec<u8>, piece: usize, fail_at: Vec<u64>) -> MemSource
        requires { 1 ≤ piece }
        ensures { result ≡ record { left = bytes.items; piece = piece; calls = no_calls fail_at.items } }
    {
        MemSource {
            bytes,
            at: 0,
            piece,
            calls: Counts::new(fail_at),
        }
    }

    // Whether a read has failed.
    pub(crate) fn has_failed(&self) -> bool
        ensures { IsTrue result ↔ (0 < self.now.calls.faults) }
    {
        self.calls.faults > 0
    }
}

impl Source for MemSource {
    ghost left = { λ s. Some s.left };

    ghost faults = { λ s. s.calls.faults };

    ghost same = { λ _ _. Unit {0} };

    ghost same_at_once = { λ a. tt };

    ghost same_later = { λ a b c p q. tt };

    fn read(&mut self, into: &mut [u8]) -> Result<usize, Failed>
        ensures bound { ReadsAtMost result into.new }
        ensures bytes { ReadConsumes (Some self.old.left) (Some self.new.left) result into.new }
        ensures cause { HasCause self.old.calls.faults self.new.calls.faults result }
        ensures answer { result ≡ read_answer self.old (length into.old) }
        ensures after { self.new ≡ read_after self.old (length into.old) }
    {
        self.calls.call()?;
        let count = give(&self.bytes, self.at, self.piece, into);
        self.at += count;
        Ok(count)
    }
}

/// A source over bytes in memory that never fails.
#[derive(Drop)]
pub struct NeverFails {
    bytes: Vec<u8>,
    at: usize,
}

impl Model for NeverFails {
    ghost use Rattle.std.specs.Prelude.{◌≤◌, List, ℕ, length, drop};

    ghost Value = { List ℕ };

    ghost view = { λ s. drop s.at s.bytes.items };

    ghost invariant = { λ s. s.at ≤ length s.bytes.items };
}

impl NeverFails {
    /// A source over these bytes. It takes no memory.
    pub fn open(bytes: Vec<u8>) -> NeverFails
        ensures { result ≡ bytes.items }
    {
        NeverFails { bytes, at: 0 }
    }
}

impl Source for NeverFails {
    ghost left = { λ s. Some s };

    ghost faults = { λ _. 0 };

    ghost same = { λ _ _. Unit {0} };

    ghost same_at_once = { λ a. tt };

    ghost same_later = { λ a b c p q. tt };

    fn read(&mut self, into: &mut [u8]) -> Result<usize, Failed>
        ensures bound { ReadsAtMost result into.new }
        ensures bytes { ReadConsumes (Some self.old) (Some self.new) result into.new }
        ensures answer { result ≡ Ok (min (length into.old) (length self.old)) }
    {
        let count = give(&self.bytes, self.at, usize::MAX, into);
        self.at += count;
        Ok(count)
    }
}

// Moves bytes from `at` on to the front of `into`, at most `most` of them, and says how many.
fn give(bytes: &[u8], at: usize, most: usize, into: &mut [u8]) -> usize
    requires at { at ≤ length bytes.now }
    requires most { 1 ≤ most }
    ensures count { result ≡ min (min most (length into.old)) (length bytes.now - at) }
    ensures front { take result into.new ≡ take result (drop at bytes.now) }
{
    let count = most.min(into.len()).min(bytes.len() - at);
    into[..count].copy_from_slice(&bytes[at..at + count]);
    count
}

/// A sink in memory. One call takes at most `piece` bytes. The calls named by `fail_at`, counted from 0, fail, and
/// so does one that finds no memory for its bytes.
#[derive(Drop)]
pub struct MemSink {
    bytes: Vec<u8>,
    piece: usize,
    calls: Counts,
}

impl Model for MemSink {
    ghost use Rattle.std.specs.Prelude.{◌≤◌};
    ghost use Rattle.si_causes.specs.Memory.{Store};

    ghost Value = { Store };

    ghost view = { λ s. record { taken = s.bytes.items; piece = s.piece; calls = s.calls } };

    ghost invariant = { λ s. 1 ≤ s.piece };
}

impl MemSink {
    /// A sink that has taken nothing, of which no call was made. It takes no memory.
    pub fn open(alloc: Global, piece: usize, fail_at: Vec<u64>) -> MemSink
        requires { 1 ≤ piece }
        ensures { result ≡ record { taken = []; piece = piece; calls = no_calls fail_at.items } }
    {
        MemSink {
            bytes: Vec::new(alloc),
            piece,
            calls: Counts::new(fail_at),
        }
    }

    /// The bytes taken.
    pub fn taken(&self) -> &[u8]
        ensures { result.now ≡ self.now.taken }
    {
        &self.bytes
    }
}

impl Sink for MemSink {
    ghost written = { λ s. Some s.taken };

    ghost faults = { λ s. s.calls.faults };

    ghost same = { λ _ _. Unit {0} };

    ghost same_at_once = { λ a. tt };

    ghost same_later = { λ a b c p q. tt };

    fn write(&mut self, from: &[u8]) -> Result<usize, Failed>
        ensures bound { TakesSome result from.now }
        ensures cause { HasCause self.old.calls.faults self.new.calls.faults result }
        ensures count { IfOk result (λ n. n ≡ min self.old.piece (length from.now)) }
        ensures fails { fails_next self.old.calls ≡ true → IsErr result }
        ensures after { self.new ≡ write_after self.old from.now result }
    {
        self.calls.call()?;
        let count = self.piece.min(from.len());
        match self.bytes.extend_from_slice(&from[..count]) {
            Ok(()) => Ok(count),
            Err(_) => Err(self.calls.fault()),
        }
    }
}
