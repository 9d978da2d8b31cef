// Packets to a sink, many at a time.
ghost use Rattle.std.specs.Prelude.{◌≡◌, ◌*◌, ◌<◌, ◌≤◌, ◌==◌, [], List, length, take, IsOk, OnOk, OnErr};
ghost use Rattle.si_causes.specs.Causes.{HasCause};
ghost use Rattle.ts_packets.specs.Bytes.{Packet};
ghost use Rattle.carousel_player.specs.Sending.{PutsFirst, Sends, SentAll, SentFront};

use si_causes::{Failed, Sink, write_all};
use ts_packets::Counters;

/// The bytes of the packets that go to a sink at once.
pub const BATCH: usize = 64 * 188;

/// Packets that are still to be handed out, one after the other, with continuity_counter 0.
///
/// Contracts speak of these packets (`packets`).
pub trait PacketQueue {
    /// The packets still to come, not yet counted.
    ghost packets: { Self → List Packet };

    /// Whether no packet is to come.
    fn is_ended(&self) -> bool
        ensures { result ≡ (length (packets self.now) == 0) };

    /// Writes the next packet over 188 bytes, not yet counted.
    fn put_next(&mut self, into: &mut [u8])
        requires room { length into.old ≡ 188 }
        requires some { 0 < length (packets self.old) }
        ensures { PutsFirst (packets self.old) (packets self.new) into.new };
}

/// Writes all packets to come into a sink, each with its counter, many at a time. Failed comes only
/// where the sink's count of faults rose: then some packets were handed out, and the sink has a
/// front of their bytes. The buffer has `BATCH` bytes, of whatever value. It takes no memory.
pub fn send_all<P: PacketQueue, A: Sink>(
    queue: &mut P,
    counters: &mut Counters,
    buffer: &mut [u8],
    sink: &mut A,
) -> Result<(), Failed>
    requires { length buffer.old ≡ 64 * 188 }
    ensures done { OnOk result (SentAll (P.packets queue.old) (P.packets queue.new)
        counters.old counters.new (A.written sink.old) (A.written sink.new)) }
    ensures failed { OnErr result (SentFront (P.packets queue.old) (P.packets queue.new)
        counters.old counters.new (A.written sink.old) (A.written sink.new)) }
    ensures idle { P.packets queue.old ≡ [] → IsOk result × (queue.new ≡ queue.old)
        × (counters.new ≡ counters.old) × (sink.new ≡ sink.old) }
    ensures cause { HasCause (A.faults sink.old) (A.faults sink.new) result }
    ensures same { A.same sink.old sink.new }
{
    while !queue.is_ended() {
        let count = fill(queue, counters, buffer);
        let (due, _) = buffer.split_at(count);
        write_all(sink, due)?;
    }
    Ok(())
}

// Fills the buffer with the next packets, each with its counter, and says how many bytes these are.
fn fill<P: PacketQueue>(queue: &mut P, counters: &mut Counters, buffer: &mut [u8]) -> usize
    requires { length buffer.old ≡ 64 * 188 }
    ensures within { result ≤ length buffer.new }
    ensures size { length buffer.new ≡ 64 * 188 }
    ensures sends { Sends (P.packets queue.old) (P.packets queue.new) counters.old counters.new
        (take result buffer.new) }
    ensures progress { 0 < length (P.packets queue.old)
        → length (P.packets queue.new) < length (P.packets queue.old) }
{
    let mut end = 0;
    while end < buffer.len() && !queue.is_ended() {
        let (_, rest) = buffer.split_at_mut(end);
        let (packet, _) = rest.split_at_mut(188);
        queue.put_next(packet);
        counters.stamp_bytes(packet);
        end += 188;
    }
    end
}
