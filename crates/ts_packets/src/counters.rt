// Continuity counters.
ghost use Rattle.std.specs.Prelude.{◌≡◌, ◌%◌, ◌<◌, ◌≤◌, ◌++◌, [], ◌∷◌, List, ℕ, None, All, IfOk, length, slice_index_or};
ghost use Rattle.ts_packets.specs.Bytes.{pid_in, with_counter};
ghost use Rattle.ts_packets.specs.Counting.{StandFor, count_on};
ghost use Rattle.ts_packets.specs.PidCounters.{IsPidCounter, AreCountersOf, ArePidCountersOf, counter_in, counters_of};

use crate::pid_counter::{PidCounter, PidCounters};
use crate::written::TsPacket;
use si_base::Items;
use std::alloc::{AllocError, Global};
use std::marker::Model;

/// The next continuity_counter of each PID (ISO/IEC 13818-1, 2.4.3.3), where the PID had a packet. Contracts see the list of these, one
/// for each of the 8,192 PIDs.
#[derive(Drop)]
pub struct Counters {
    next: [Option<u8>; 8192],
}

impl Model for Counters {
    ghost use Rattle.std.specs.Prelude.{List, Option, ℕ};
    ghost use Rattle.ts_packets.specs.Counting.{AreNext};

    ghost Value = { List (Option ℕ) };

    ghost view = { λ c. c.next };

    ghost invariant = { λ c. AreNext c.next };
}

impl Counters {
    /// The counters of a stream of which no packet was stamped. It takes no memory.
    pub fn open() -> Counters
        ensures { StandFor [] result }
    {
        Counters { next: [None; 8192] }
    }

    /// Counters that go on from these, each below 16 and of a PID below 8,192: each PID that is
    /// named goes on with its counter, with the first one where it is named again, and every other
    /// PID with 0. They stand for all packets of which these are the counters. It takes no memory.
    pub fn of(kept: &[PidCounter]) -> Counters
        requires { All IsPidCounter kept.now }
        ensures each { (pid : ℕ) → pid < 8192
            → slice_index_or result pid None ≡ counter_in pid kept.now }
        ensures stands { (past : List (List ℕ)) → AreCountersOf past kept.now
            → StandFor past result }
    {
        let mut next = [None; 8192];
        for counter in kept {
            let pid = usize::from(counter.pid);
            next[pid] = next[pid].or(Some(counter.next));
        }
        Counters { next }
    }

    /// The counter of each PID that had a packet, or that was named to `of`, in ascending order of
    /// PIDs: from these `of` goes on. AllocError comes where memory is wanting.
    pub fn kept(&self, alloc: Global) -> Result<PidCounters, AllocError>
        ensures kept { IfOk result (λ kept. ArePidCountersOf self.now kept) }
        ensures counters { IfOk result (λ kept.
            (past : List (List ℕ)) → StandFor past self.now → AreCountersOf past kept) }
        ensures all { IfOk result (λ kept.
            (past : List (List ℕ)) → StandFor past self.now → kept ≡ counters_of past) }
    {
        let mut kept = Items::new(alloc);
        for pid in 0..8192u16 {
            if let Some(next) = self.next[usize::from(pid)] {
                kept.push(PidCounter { pid, next })?;
            }
        }
        Ok(kept)
    }

    /// Sets the continuity_counter of a packet and changes nothing else of it: the first packet of a PID has 0, each
    /// next one 1 more, modulo 16. It takes no memory.
    pub fn stamp(&mut self, packet: &mut TsPacket)
        ensures stamped { (past : List (List ℕ)) → StandFor past self.old → packet.new.0 ≡ with_counter (count_on (pid_in packet.old.0) past % 16) packet.old.0 }
        ensures counted { (past : List (List ℕ)) → StandFor past self.old → StandFor (past ++ packet.new.0 ∷ []) self.new }
    {
        self.stamp_bytes(&mut packet.0);
    }

    /// As `stamp`, of the bytes of a packet where they stand.
    pub fn stamp_bytes(&mut self, packet: &mut [u8])
        requires { length packet.old ≡ 188 }
        ensures stamped { (past : List (List ℕ)) → StandFor past self.old → packet.new ≡ with_counter (count_on (pid_in packet.old) past % 16) packet.old }
        ensures counted { (past : List (List ℕ)) → StandFor past self.old → StandFor (past ++ packet.new ∷ []) self.new }
    {
        let pid = usize::from(packet[1] % 32) * 256 + usize::from(packet[2]);
        let counter = self.next[pid].unwrap_or(0) % 16;
        packet[3] = packet[3] / 16 * 16 + counter;
        self.next[pid] = Some((counter + 1) % 16);
    }

    /// The continuity_counter that the next packet of a PID has. It takes no memory.
    pub fn next(&self, pid: u16) -> u8
        requires { pid < 8192 }
        ensures { (past : List (List ℕ)) → StandFor past self.now → result ≡ count_on pid past % 16 }
    {
        self.next[usize::from(pid)].unwrap_or(0) % 16
    }

    /// Counts a packet that has its continuity_counter already, by its bytes: its PID had one packet more. It takes no memory.
    pub fn count(&mut self, packet: &[u8])
        requires { length packet.now ≡ 188 }
        ensures { (past : List (List ℕ)) → StandFor past self.old → StandFor (past ++ packet.now ∷ []) self.new }
    {
        let pid = usize::from(packet[1] % 32) * 256 + usize::from(packet[2]);
        let counter = self.next[pid].unwrap_or(0) % 16;
        self.next[pid] = Some((counter + 1) % 16);
    }
}
