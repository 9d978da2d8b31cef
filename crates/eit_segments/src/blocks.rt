// Cursors: where the events of a block begin and end.
ghost use Rattle.std.specs.Prelude.{◌≡◌, ◌+◌, ◌≤◌, ◌<◌, ◌^◌, length};
ghost use Rattle.eit_segments.specs.Placement.{AreInOrder, block_place};
ghost use Rattle.eit_segments.specs.Schedule.{last_used};

use crate::event::{EventAt, start_block};

/// The place of the first event of this block or a later one, or the length.
pub(crate) fn block_begin(events: &[EventAt], block: u64) -> usize
    requires { AreInOrder events.now }
    ensures place { result ≡ block_place block events.now }
    ensures bound { result ≤ length events.now }
{
    events.partition_point(|event| start_block(event) < block)
}

/// The place behind the last event of this block, from the place of its first one.
pub(crate) fn block_end(events: &[EventAt], from: usize, block: u64) -> usize
    requires order { AreInOrder events.now }
    requires from { from ≡ block_place block events.now }
    ensures place { result ≡ block_place (1 + block) events.now }
    ensures bound { (from ≤ result) × (result ≤ length events.now) }
{
    for i in from..events.len() {
        if block < start_block(&events[i]) {
            return i;
        }
    }
    events.len()
}

/// Of so many blocks the last with an event, counted from the first of them, or 0.
pub(crate) fn last_used(events: &[EventAt], first: u64, many: u64) -> u64
    requires order { AreInOrder events.now }
    requires blocks { first + many < 2 ^ 64 }
    ensures used { result ≡ last_used first many events.now }
    ensures bound { 0 < many → result < many }
{
    let end = block_begin(events, first + many);
    if end == 0 {
        return 0;
    }
    let block = start_block(&events[end - 1]);
    if block < first { 0 } else { block - first }
}
