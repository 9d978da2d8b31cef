// Sources and sinks.
ghost use Rattle.std.specs.Prelude.{◌≡◌, ◌+◌, ◌≤◌, ◌<◌, [], ◌∷◌, ◌++◌, List, ℕ, length, take, IfOk, OnOk, OnErr, Option, None, refl};
ghost use Rattle.std.proofs.Common.{◌∙◌};
ghost use Rattle.std.specs.Io.{ReadsAtMost};
ghost use Rattle.std.specs.Io.KnownBytes.{ReadConsumes, WriteAppends, Appends};
ghost use Rattle.si_causes.specs.Causes.{HasCause, IsQuiet, TakesSome, AppendsFront};

/// A fault of the outside.
#[derive(Clone, Copy, PartialEq, Eq)]
pub struct Failed;

/// Where bytes come from.
///
/// Contracts may speak of the bytes that are still to come (`left`) where the source tells them, and of the
/// count of its faults (`faults`), which never falls.
pub trait Source: Drop {
    /// The bytes still to come, where the source tells them.
    ghost left: { Self → Option (List ℕ) };

    /// How often a read has failed.
    ghost faults: { Self → ℕ };

    /// Whether two values are one object at two moments. A caller that lends a source knows by it that it gets
    /// that one back.
    ghost same: { Self → Self → Type 0 };

    /// Reads some of the next bytes into the front of `into`, and says how many. 0 for an `into` that is not
    /// empty is the end. `Failed` comes only where the count of faults rose in the call (or stands at its last
    /// value, 2^64 - 1), and then no byte was taken. A read that succeeds leaves the count as it was.
    fn read(&mut self, into: &mut [u8]) -> Result<usize, Failed>
        ensures bound { ReadsAtMost result into.new }
        ensures bytes { ReadConsumes (left self.old) (left self.new) result into.new }
        ensures cause { HasCause (faults self.old) (faults self.new) result }
        ensures quiet { IsQuiet (faults self.old) (faults self.new) result }
        ensures same { same self.old self.new };

    ghost same_at_once: { (a : Self) → same a a };

    ghost same_later: { (a b c : Self) → same a b → same b c → same a c };
}

/// Where bytes go.
///
/// Contracts may speak of the bytes taken so far (`written`) where the sink tells them, and of the count of its
/// faults (`faults`), which never falls.
pub trait Sink {
    /// The bytes taken, where the sink tells them.
    ghost written: { Self → Option (List ℕ) };

    /// How often a write has failed.
    ghost faults: { Self → ℕ };

    /// Whether two values are one object at two moments. A caller that lends a sink knows by it that it gets
    /// that one back.
    ghost same: { Self → Self → Type 0 };

    /// Takes the first bytes of `from`, at least one where there is one, and says how many. Taking nothing of a
    /// piece that is not empty is a fault. `Failed` comes only where the count of faults rose in the call (or
    /// stands at its last value, 2^64 - 1), and then no byte was taken.
    fn write(&mut self, from: &[u8]) -> Result<usize, Failed>
        ensures bound { TakesSome result from.now }
        ensures bytes { WriteAppends (written self.old) (written self.new) result from.now }
        ensures cause { HasCause (faults self.old) (faults self.new) result }
        ensures same { same self.old self.new };

    ghost same_at_once: { (a : Self) → same a a };

    ghost same_later: { (a b c : Self) → same a b → same b c → same a c };
}

impl<S: Source> Source for &mut S {
    ghost left = { λ s. S.left s.now };

    ghost faults = { λ s. S.faults s.now };

    ghost same = { λ a b. b.ghost_name ≡ a.ghost_name };

    ghost same_at_once = { λ a. refl };

    ghost same_later = { λ a b c p q. q ∙ p };

    fn read(&mut self, into: &mut [u8]) -> Result<usize, Failed> {
        (**self).read(into)
    }
}

impl<A: Sink> Sink for &mut A {
    ghost written = { λ s. A.written s.now };

    ghost faults = { λ s. A.faults s.now };

    ghost same = { λ a b. (b.ghost_name ≡ a.ghost_name) × A.same a.now b.now };

    ghost same_at_once = { λ a. (refl, A.same_at_once a.now) };

    ghost same_later = { λ a b c p q. (q.0 ∙ p.0, A.same_later a.now b.now c.now p.1 q.1) };

    fn write(&mut self, from: &[u8]) -> Result<usize, Failed> {
        (**self).write(from)
    }
}

/// Writes all the bytes. After `Failed` a front of them was written, and not all, and the sink's count of faults
/// rose. It takes no memory.
pub fn write_all<A: Sink>(sink: &mut A, bytes: &[u8]) -> Result<(), Failed>
    ensures done { OnOk result (Appends (A.written sink.old) (A.written sink.new) bytes.now) }
    ensures failed { OnErr result (AppendsFront (A.written sink.old) (A.written sink.new) bytes.now) }
    ensures cause { HasCause (A.faults sink.old) (A.faults sink.new) result }
    ensures same { A.same sink.old sink.new }
{
    let mut at = 0;
    while at < bytes.len() {
        let (_, rest) = bytes.split_at(at);
        match sink.write(rest) {
            Ok(count) => at += count,
            Err(failed) => return Err(failed),
        }
    }
    Ok(())
}
