// Counters that are kept.
ghost use Rattle.std.specs.Prelude.{◌≤◌, ◌+◌, ◌<◌, All, IfOk};
ghost use Rattle.ts_packets.specs.PidCounters.{IsPidCounter};

use row_lines::{Row, say};
use si_base::Items;
use std::alloc::{AllocError, Global};
use std::fmt::Write;
use ts_packets::{Counters, PidCounter, PidCounters};

/// `counters COUNT PID NEXT`: the counters that go on from so many PIDs, this one and those after it, the first with this
/// counter and each other with one more, modulo 16. What they keep: how many, the first and the last.
pub fn keep(row: &mut Row) {
    let count = row.number();
    let first = row.hex();
    let next = row.number();
    if count > 8192 || first >= 8192 || next >= 16 {
        return row.refuse();
    }
    let kept = kept(row.alloc(), count as u16, first, next as u8);
    if let Some(kept) = row.made(kept) {
        put_ends(row, kept.as_slice());
    }
}

fn kept(alloc: Global, count: u16, first: u16, next: u8) -> Result<PidCounters, AllocError>
    requires count { count ≤ 8192 }
    requires first { first < 8192 }
    requires next { next < 16 }
{
    let named = named(alloc, count, first, next)?;
    Counters::of(named.as_slice()).kept(alloc)
}

// So many PIDs from the first one on, as far as there are any.
fn named(alloc: Global, count: u16, first: u16, next: u8) -> Result<PidCounters, AllocError>
    requires count { count ≤ 8192 }
    requires first { first < 8192 }
    requires next { next < 16 }
    ensures { IfOk result (λ named. All IsPidCounter named) }
{
    let mut named = Items::new(alloc);
    let mut next = next;
    for pid in first..(first + count).min(8192) {
        named.push(PidCounter { pid, next })?;
        next = (next + 1) % 16;
    }
    Ok(named)
}

fn put_ends(row: &mut Row, kept: &[PidCounter]) {
    say!(row; " {}", kept.len());
    if let (Some(first), Some(last)) = (kept.first(), kept.last()) {
        put_counter(row, first);
        put_counter(row, last);
    }
}

/// Puts each PID with its counter, as a part of its own.
pub fn put_counters(row: &mut Row, kept: &[PidCounter]) {
    for counter in kept {
        put_counter(row, counter);
    }
}

fn put_counter(row: &mut Row, counter: &PidCounter) {
    row.begin_part();
    say!(row; " {:04X} {}", counter.pid, counter.next);
}
