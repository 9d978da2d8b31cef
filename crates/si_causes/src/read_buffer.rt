// Bytes that were read and not yet used.
ghost use Rattle.std.specs.Prelude.{◌≡◌, ◌≤◌, ◌<◌, [], ◌+◌, ◌-◌, length, slice_range, drop, take, IfOk, OnErr};
ghost use Rattle.std.specs.Io.KnownBytes.{Consumes, IsAtEnd, Keeps};
ghost use Rattle.si_causes.specs.Causes.{HasCause, IsQuiet};
ghost use Rattle.si_causes.specs.Refilling.{ReadOn};

use crate::causes::{Failed, Source};
use std::alloc::{AllocError, Global};
use std::marker::Model;

/// The bytes that were read from a source and not yet used, in a buffer of `SIZE` bytes. Contracts see it as the list
/// of these bytes.
#[derive(Drop)]
pub struct ReadBuffer<const SIZE: usize> {
    buffer: Vec<u8>,
    start: usize,
    end: usize,
}

impl<const SIZE: usize> Model for ReadBuffer<SIZE> {
    ghost use Rattle.std.specs.Prelude.{◌≡◌, ◌≤◌, List, ℕ, slice_range, length};

    ghost Value = { List ℕ };

    ghost view = { λ b. slice_range b.buffer.items b.start b.end };

    ghost invariant = { λ b. (b.start ≤ b.end) × (b.end ≤ length b.buffer.items)
        × (length b.buffer.items ≡ SIZE) };
}

impl<const SIZE: usize> ReadBuffer<SIZE> {
    /// A buffer that holds nothing. It takes `SIZE` bytes of memory.
    pub fn new(alloc: Global) -> Result<ReadBuffer<SIZE>, AllocError>
        ensures { IfOk result (λ b. b ≡ []) }
    {
        let buffer = vec![in alloc; 0; SIZE]?;
        Ok(ReadBuffer {
            buffer,
            start: 0,
            end: 0,
        })
    }

    /// The bytes that it holds.
    pub fn bytes(&self) -> &[u8]
        ensures { result.now ≡ self.now }
    {
        &self.buffer[self.start..self.end]
    }

    /// Lets the first `count` bytes go. It needs as many.
    pub fn consume(&mut self, count: usize)
        requires { count ≤ length self.old }
        ensures { self.new ≡ drop count self.old }
    {
        self.start += count;
    }

    /// Moves the bytes that it holds to the front, reads at most `most` bytes behind them by one read of the source,
    /// and says how many; 0 is the end of the source. It needs fewer than `SIZE` bytes, and a `most` of at least 1.
    /// `Failed` comes only where the read failed, and leaves the bytes as they were; otherwise the source's count of
    /// faults is as it was. It takes no memory.
    pub fn refill<S: Source>(&mut self, source: &mut S, most: u64) -> Result<usize, Failed>
        requires room { length self.old < SIZE }
        requires some { 1 ≤ most }
        ensures ok { IfOk result (λ n. ReadOn (S.left source.old) (S.left source.new) self.old self.new n) }
        ensures count { IfOk result (λ n. n ≤ most) }
        ensures end { IfOk result (λ n. n ≡ 0 → IsAtEnd (S.left source.new)) }
        ensures err { OnErr result ((self.new ≡ self.old) × Keeps (S.left source.old) (S.left source.new)) }
        ensures cause { HasCause (S.faults source.old) (S.faults source.new) result }
        ensures quiet { IsQuiet (S.faults source.old) (S.faults source.new) result }
        ensures same { S.same source.old source.new }
    {
        let held = self.end - self.start;
        let most = most.min((SIZE - held) as u64) as usize;
        let result = read_on(source, &mut self.buffer, self.start, self.end, most);
        self.start = 0;
        self.end = held;
        let count = result?;
        self.end += count;
        Ok(count)
    }
}

// Moves these bytes to the front, and reads at most `most` bytes behind them.
fn read_on<S: Source>(
    source: &mut S,
    buffer: &mut [u8],
    start: usize,
    end: usize,
    most: usize,
) -> Result<usize, Failed>
    requires order { start ≤ end }
    requires within { end ≤ length buffer.old }
    requires some { 1 ≤ most }
    requires room { end - start + most ≤ length buffer.old }
    ensures count { IfOk result (λ n. n ≤ most) }
    ensures length { length buffer.new ≡ length buffer.old }
    ensures bytes { IfOk result (λ n. ReadOn (S.left source.old) (S.left source.new)
        (slice_range buffer.old start end) (take (end - start + n) buffer.new) n) }
    ensures end { IfOk result (λ n. n ≡ 0 → IsAtEnd (S.left source.new)) }
    ensures kept { OnErr result (take (end - start) buffer.new ≡ slice_range buffer.old start end) }
    ensures err { OnErr result (Keeps (S.left source.old) (S.left source.new)) }
    ensures cause { HasCause (S.faults source.old) (S.faults source.new) result }
    ensures quiet { IsQuiet (S.faults source.old) (S.faults source.new) result }
    ensures same { S.same source.old source.new }
{
    to_front(buffer, start, end);
    read_behind(source, buffer, end - start, most)
}

// Moves these bytes to the front.
fn to_front(buffer: &mut [u8], start: usize, end: usize)
    requires order { start ≤ end }
    requires within { end ≤ length buffer.old }
    ensures length { length buffer.new ≡ length buffer.old }
    ensures bytes { take (end - start) buffer.new ≡ slice_range buffer.old start end }
{
    buffer.copy_within(start..end, 0);
}

// Reads at most `most` bytes behind the first `front` bytes.
fn read_behind<S: Source>(
    source: &mut S,
    buffer: &mut [u8],
    front: usize,
    most: usize,
) -> Result<usize, Failed>
    requires some { 1 ≤ most }
    requires room { front + most ≤ length buffer.old }
    ensures count { IfOk result (λ n. n ≤ most) }
    ensures front { take front buffer.new ≡ take front buffer.old }
    ensures length { length buffer.new ≡ length buffer.old }
    ensures bytes { IfOk result (λ n. Consumes (S.left source.old) (S.left source.new) (take n (drop front buffer.new))) }
    ensures end { IfOk result (λ n. n ≡ 0 → IsAtEnd (S.left source.new)) }
    ensures err { OnErr result (Keeps (S.left source.old) (S.left source.new)) }
    ensures cause { HasCause (S.faults source.old) (S.faults source.new) result }
    ensures quiet { IsQuiet (S.faults source.old) (S.faults source.new) result }
    ensures same { S.same source.old source.new }
{
    let (_, rest) = buffer.split_at_mut(front);
    read_front(source, rest, most)
}

// Reads at most `most` bytes to the front.
fn read_front<S: Source>(source: &mut S, buffer: &mut [u8], most: usize) -> Result<usize, Failed>
    requires some { 1 ≤ most }
    requires within { most ≤ length buffer.old }
    ensures count { IfOk result (λ n. n ≤ most) }
    ensures length { length buffer.new ≡ length buffer.old }
    ensures bytes { IfOk result (λ n. Consumes (S.left source.old) (S.left source.new) (take n buffer.new)) }
    ensures end { IfOk result (λ n. n ≡ 0 → IsAtEnd (S.left source.new)) }
    ensures err { OnErr result (Keeps (S.left source.old) (S.left source.new)) }
    ensures cause { HasCause (S.faults source.old) (S.faults source.new) result }
    ensures quiet { IsQuiet (S.faults source.old) (S.faults source.new) result }
    ensures same { S.same source.old source.new }
{
    let (front, _) = buffer.split_at_mut(most);
    source.read(front)
}
