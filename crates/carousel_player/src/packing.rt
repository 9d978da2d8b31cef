// Packets that the sections of a queue share.
ghost use Rattle.std.specs.Prelude.{◌≡◌, ◌<◌, ◌==◌, length};
ghost use Rattle.carousel_player.specs.Queue.{IsBegun};
ghost use Rattle.carousel_player.specs.Packing.{packets_behind, CanTake, Takes, IsFilled};
ghost use Rattle.carousel_player.specs.Sending.{PutsFirst};

use crate::packing_queue::SectionQueue;
use ts_packets::Packer;

/// The sections of a queue, and how many bytes of the first of them were sent. Their packets are
/// `packets_behind` of the queue's sections and this number.
#[derive(Drop)]
pub struct PackedSections<Q> {
    /// The sections, from the one on that is being sent.
    pub queue: Q,
    /// How many bytes of the first were sent: fewer than it has, and 0 where there is none.
    pub from: usize,
}

impl<Q: SectionQueue> PackedSections<Q> {
    /// Whether no packet is to come.
    pub fn is_ended(&self) -> bool
        requires { IsBegun self.now.from (Q.sections self.now.queue) }
        ensures { result
            ≡ (length (packets_behind (Q.sections self.now.queue) self.now.from) == 0) }
    {
        self.queue.pid().is_none()
    }

    /// Writes the next packet over 188 bytes, with continuity_counter 0: as many of the sections of
    /// its PID as it has room for, and 0xFF after them.
    pub fn put_next(&mut self, into: &mut [u8])
        requires begun { IsBegun self.old.from (Q.sections self.old.queue) }
        requires room { length into.old ≡ 188 }
        requires some { 0 < length (packets_behind (Q.sections self.old.queue) self.old.from) }
        ensures first { PutsFirst (packets_behind (Q.sections self.old.queue) self.old.from)
            (packets_behind (Q.sections self.new.queue) self.new.from) into.new }
        ensures begun { IsBegun self.new.from (Q.sections self.new.queue) }
        ensures keeps { Q.keeps self.old.queue self.new.queue }
    {
        let Some(pid) = self.queue.pid() else {
            return;
        };
        let mut packer = Packer::open(pid);
        fill_packet(&mut packer, self);
        packer.finish_into(into);
    }
}

// Puts what is next into a packet, as long as that is of its PID and the packet has room.
fn fill_packet<Q: SectionQueue>(packer: &mut Packer, packed: &mut PackedSections<Q>)
    requires { CanTake packer.old (Q.sections packed.old.queue) packed.old.from }
    ensures filled { IsFilled packer.old packer.new (Q.sections packed.old.queue)
        (Q.sections packed.new.queue) packed.old.from packed.new.from }
    ensures keeps { Q.keeps packed.old.queue packed.new.queue }
{
    while take_next(packer, packed) {}
}

// Puts the longest possible piece of the next section into a packet, if it is of its PID, and says
// whether the section has ended and another may follow it there.
fn take_next<Q: SectionQueue>(packer: &mut Packer, packed: &mut PackedSections<Q>) -> bool
    requires { CanTake packer.old (Q.sections packed.old.queue) packed.old.from }
    ensures takes { Takes result packer.old packer.new (Q.sections packed.old.queue)
        (Q.sections packed.new.queue) packed.old.from packed.new.from }
    ensures keeps { Q.keeps packed.old.queue packed.new.queue }
{
    let Some(pid) = packed.queue.pid() else {
        return false;
    };
    if pid != packer.pid() {
        return false;
    }
    let section = packed.queue.bytes();
    let size = section.len();
    let sent = packed.from + packer.add(section, packed.from);
    if sent < size {
        packed.from = sent;
        return false;
    }
    packed.from = 0;
    packed.queue.pass();
    true
}
