// A reader of packets.
ghost use Rattle.std.specs.Prelude.{◌≡◌, ◌≤◌, ◌<◌, ◌↔◌, true, [], ℕ, List, Option, None, Some, Ok, Err, IfOk, OnOk, OnErr, IfSome, IsNone, length, take};
ghost use Rattle.std.specs.Io.KnownBytes.{IsAtEnd};
ghost use Rattle.si_causes.specs.Causes.{HasCause as Faulted, IsQuiet};
ghost use Rattle.packet_reader.specs.Recordings.{is_packet, packets_in};
ghost use Rattle.packet_reader.specs.Reading.{GivesPacket, TakesPacket, KeepsPiece, Counts, HasCause, IsQuietUnlessFailed, Gathers, fresh, packets_to_come, bytes_left};

use crate::stop::PacketStop;
use si_causes::{Failed, ReadBuffer, Source};
use std::alloc::{AllocError, Global};
use std::marker::Model;

// how many packets a recording may have
const PACKETS: u64 = 4_294_967_295;
// how many bytes a packet has
const PACKET: usize = 188;
// how many bytes one read asks for at most: 348 packets
const BUFFER: usize = 65_424;

/// A reader of the packets of a recording (ISO/IEC 13818-1, 2.4.3): of pieces of 188 bytes from the source's first byte on, of which
/// each begins with the sync byte 0x47. A recording may have 4,294,967,295 packets.
///
/// Contracts see a reader as the record `PacketReading`: the source, the bytes that it gave and that stand in no packet yet, how many
/// packets were handed out, the last of them, whether the source told its end, and why there are no more packets.
#[derive(Drop)]
pub struct PacketReader<S: Source> {
    source: S,
    held: ReadBuffer<BUFFER>,
    // how many of the bytes that are held are the packet that was handed out last: 188, or none
    handed: usize,
    number: u64,
    ended: bool,
    stop: Option<PacketStop>,
}

impl<S: Source> Model for PacketReader<S> {
    ghost use Rattle.std.specs.Prelude.{◌≡◌, ◌≤◌, true, [], length, take, drop};
    ghost use Rattle.std.specs.Io.KnownBytes.{IsAtEnd};
    ghost use Rattle.packet_reader.specs.Reading.{PacketReading};

    ghost Value = { PacketReading S };

    ghost view = { λ r. record {
      source = r.source;
      held = drop r.handed r.held;
      number = r.number;
      packet = take r.handed r.held;
      ended = r.ended;
      stop = r.stop;
    } };

    ghost invariant = { λ r. (r.number ≤ 4294967295) × (r.handed ≤ length r.held)
        × (r.ended ≡ true → (drop r.handed r.held ≡ []) × IsAtEnd (S.left r.source)) };
}

// Reads until a packet is held, or the source ends.
fn gather<S: Source>(source: &mut S, held: &mut ReadBuffer<BUFFER>) -> Result<(), Failed>
    ensures gathers { Gathers (S.left source.old) (S.left source.new) held.old held.new }
    ensures end { OnOk result (length held.new < 188 → IsAtEnd (S.left source.new)) }
    ensures short { OnErr result (length held.new < 188) }
    ensures lazy { 188 ≤ length held.old → source.new ≡ source.old }
    ensures cause { Faulted (S.faults source.old) (S.faults source.new) result }
    ensures quiet { IsQuiet (S.faults source.old) (S.faults source.new) result }
    ensures same { S.same source.old source.new }
{
    while held.bytes().len() < PACKET {
        if held.refill(source, BUFFER as u64)? == 0 {
            return Ok(());
        }
    }
    Ok(())
}

// Whether the first 188 bytes are a packet.
fn begins_with_packet(bytes: &[u8]) -> bool
    ensures { result ≡ is_packet (take 188 bytes.now) }
{
    bytes.len() >= 188 && bytes[0] == 0x47
}

impl<S: Source> PacketReader<S> {
    /// A reader at the front of its source, with room for 348 packets. Want of memory gives the source up.
    pub fn open(alloc: Global, source: S) -> Result<PacketReader<S>, AllocError>
        ensures { IfOk result (λ reader. reader ≡ fresh source) }
    {
        let held = ReadBuffer::new(alloc)?;
        Ok(PacketReader {
            source,
            held,
            handed: 0,
            number: 0,
            ended: false,
            stop: None,
        })
    }

    /// Goes on to the next packet and gives its number, from 0 on, or `None` exactly at the end.
    ///
    /// `Broken` comes exactly where the next piece does not begin with 0x47, or is shorter than 188 bytes: nothing is taken then, and [`PacketReader::broken_piece`] gives it; `TooLong` exactly where the
    /// source gave a byte behind its 4,294,967,295th packet. `Failed` comes only where a read of the source failed in this call; any
    /// other answer leaves the source's count of faults as it was. After any of these stops, and after the end, each later call answers
    /// the same. Where the reader holds 188 bytes or more, the source is not read. It takes no memory.
    pub fn next(&mut self) -> Result<Option<u64>, PacketStop>
        ensures packets { self.old.stop ≡ None → (bytes : List ℕ) → bytes_left S.left self.old ≡ Some bytes
            → GivesPacket S.left self.old self.new (packets_in (packets_to_come self.old) bytes) result }
        ensures takes { self.old.stop ≡ None → TakesPacket S.left self.old self.new result }
        ensures broken { self.old.stop ≡ None → KeepsPiece S.left self.old self.new result }
        ensures counts { self.old.stop ≡ None → Counts self.old self.new result }
        ensures end { result ≡ Ok None → IsAtEnd (S.left self.new.source) }
        ensures cause { self.old.stop ≡ None → HasCause (S.faults self.old.source) (S.faults self.new.source) result }
        ensures over { self.old.stop ≡ None → self.old.ended ≡ true
            → (result ≡ Ok None) × (self.new ≡ self.old) }
        ensures sticky { IfSome self.old.stop (λ stop. (result ≡ Err stop) × (self.new ≡ self.old)) }
        ensures lazy { 188 ≤ length self.old.held → self.new.source ≡ self.old.source }
        ensures later { S.faults self.old.source ≤ S.faults self.new.source }
        ensures quiet { IsQuietUnlessFailed (S.faults self.old.source) (S.faults self.new.source) result }
        ensures same { S.same self.old.source self.new.source }
    {
        if let Some(stop) = self.stop {
            return Err(stop);
        }
        if self.ended {
            return Ok(None);
        }
        self.held.consume(self.handed);
        self.handed = 0;
        let Ok(()) = gather(&mut self.source, &mut self.held) else {
            return Err(self.stopped(PacketStop::Failed));
        };
        let bytes = self.held.bytes();
        if bytes.is_empty() {
            self.ended = true;
            return Ok(None);
        }
        if self.number == PACKETS {
            return Err(self.stopped(PacketStop::TooLong));
        }
        if !begins_with_packet(bytes) {
            return Err(self.stopped(PacketStop::Broken(self.number)));
        }
        let number = self.number;
        self.handed = PACKET;
        self.number += 1;
        Ok(Some(number))
    }

    // Keeps the stop.
    fn stopped(&mut self, stop: PacketStop) -> PacketStop
        ensures stop { self.new ≡ record self.old { stop = Some stop } }
        ensures result { result ≡ stop }
    {
        self.stop = Some(stop);
        stop
    }

    /// The packet that `next` gave last.
    pub fn packet(&self) -> &[u8; 188]
        requires { length self.now.packet ≡ 188 }
        ensures { result.now ≡ self.now.packet }
    {
        let (packet, _) = self.held.bytes().split_at(self.handed);
        match packet.first_chunk() {
            Some(packet) => packet,
            None => unreachable!(),
        }
    }

    /// The piece at which `next` answered `Broken`, where it has the 188 bytes of a packet, and None where the recording ends in it. It
    /// takes no memory.
    pub fn broken_piece(&self) -> Option<&[u8; 188]>
        ensures whole { IfSome result (λ piece. piece.now ≡ take 188 self.now.held) }
        ensures short { IsNone result ↔ (length self.now.held < 188) }
    {
        let (_, held) = self.held.bytes().split_at(self.handed);
        held.first_chunk()
    }

    /// How many packets `next` gave. It takes no memory.
    pub fn number(&self) -> u64
        ensures { result ≡ self.now.number }
    {
        self.number
    }

    /// Gives the source back. It takes no memory.
    pub fn close(self) -> S
        ensures { result ≡ self.source }
    {
        self.source
    }
}
