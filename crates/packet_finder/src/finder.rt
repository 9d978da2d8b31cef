// A finder of packets.
ghost use Rattle.std.specs.Prelude.{◌≡◌, ◌≢◌, ◌≤◌, ◌<◌, ◌+◌, true, false, [], ℕ, List, Option, None, Some, Ok, Err, IfOk, OnOk, OnErr, IfSome, length, take};
ghost use Rattle.std.specs.Io.KnownBytes.{IsAtEnd};
ghost use Rattle.si_causes.specs.Causes.{HasCause as Faulted, IsQuiet};
ghost use Rattle.packet_reader.specs.Recordings.{is_packet};
ghost use Rattle.packet_reader.specs.Reading.{Gathers};
ghost use Rattle.packet_finder.specs.Pieces.{needed};
ghost use Rattle.packet_finder.specs.Finding.{GivesPiece, TakesPiece, Counted, stop_of, HoldsPiece, StaysEnded, HasCause, IsQuietUnlessFailed, fresh, bytes_left, to_find};
ghost use Rattle.packet_finder.specs.Steps.{PassesOver, HoldsRow, FindsOn, LostSync, handed_out};
ghost use Rattle.packet_finder.specs.declared.found.Found.TheVariants as was;

use crate::found::Found;
use crate::rows::{PACKET, ROW, is_packet_at, places_before_row, tail_with};
use crate::stop::FindStop;
use si_causes::{Failed, ReadBuffer, Source};
use std::alloc::{AllocError, Global};
use std::marker::Model;

// how many packets a recording may have
const PACKETS: u64 = 4_294_967_295;
// how many bytes one read asks for at most: 348 packets
const BUFFER: usize = 65_424;

/// A finder of the packets of a recording that may be damaged (ISO/IEC 13818-1, 2.4.3): of pieces of 188 bytes, of which each begins with
/// the sync byte 0x47, and which are 188, 192 or 204 bytes apart. A recording may have 4,294,967,295 packets.
///
/// Contracts see a finder as the record `Finding`: the source, the bytes that it gave and that stand in no piece yet, how many packets
/// were handed out, the last piece, whether sync holds, whether the source told its end, and why there are no more pieces.
#[derive(Drop)]
pub struct Finder<S: Source> {
    source: S,
    held: ReadBuffer<BUFFER>,
    // how many of the bytes that are held are the packet that was handed out last: 188, or none
    handed: usize,
    number: u64,
    tail: Option<usize>,
    passed: bool,
    ended: bool,
    stop: Option<FindStop>,
}

impl<S: Source> Model for Finder<S> {
    ghost use Rattle.std.specs.Prelude.{◌≡◌, ◌≤◌, true, None, [], length, take, drop, IfSome};
    ghost use Rattle.std.specs.Io.KnownBytes.{IsAtEnd};
    ghost use Rattle.packet_finder.specs.Finding.{Finding};
    ghost use Rattle.packet_finder.specs.Pieces.{BeginsOrEnds};

    ghost Value = { Finding S };

    ghost view = { λ r. record {
      source = r.source;
      held = drop r.handed r.held;
      number = r.number;
      packet = take r.handed r.held;
      tail = r.tail;
      passed = r.passed;
      ended = r.ended;
      stop = r.stop;
    } };

    ghost invariant = { λ r. (r.number ≤ 4294967295) × (r.handed ≤ length r.held) × IfSome r.tail (λ tail. tail ≤ 16)
        × (r.ended ≡ true → IsAtEnd (S.left r.source))
        × (r.passed ≡ true → (r.tail ≡ None) × BeginsOrEnds r.ended (drop r.handed r.held)) };
}

// Reads until so many bytes are held, or the source ends.
fn gather<S: Source>(
    source: &mut S,
    held: &mut ReadBuffer<BUFFER>,
    ended: &mut bool,
    enough: usize,
) -> Result<(), Failed>
    requires few { enough ≤ 409 }
    requires end { ended.old ≡ true → IsAtEnd (S.left source.old) }
    ensures gathers { Gathers (S.left source.old) (S.left source.new) held.old held.new }
    ensures enough { OnOk result (ended.new ≡ false → enough ≤ length held.new) }
    ensures end { ended.new ≡ true → IsAtEnd (S.left source.new) }
    ensures short { OnErr result ((ended.new ≡ false) × (length held.new < enough)) }
    ensures over { ended.old ≡ true → (ended.new ≡ true) × (source.new ≡ source.old) × (held.new ≡ held.old) }
    ensures lazy { enough ≤ length held.old → (ended.new ≡ ended.old) × (source.new ≡ source.old) × (held.new ≡ held.old) }
    ensures cause { Faulted (S.faults source.old) (S.faults source.new) result }
    ensures quiet { IsQuiet (S.faults source.old) (S.faults source.new) result }
    ensures same { S.same source.old source.new }
{
    while !*ended && held.bytes().len() < enough {
        if held.refill(source, BUFFER as u64)? == 0 {
            *ended = true;
        }
    }
    Ok(())
}

// Passes over the bytes before the first row, and says how many.
fn pass_over<S: Source>(
    source: &mut S,
    held: &mut ReadBuffer<BUFFER>,
    ended: &mut bool,
) -> Result<u64, FindStop>
    requires end { ended.old ≡ true → IsAtEnd (S.left source.old) }
    ensures passes { PassesOver (S.left source.old) (S.left source.new) ended.old ended.new held.old held.new result }
    ensures end { ended.new ≡ true → IsAtEnd (S.left source.new) }
    ensures lazy { HoldsRow ended.old held.old → (ended.new ≡ ended.old) × (source.new ≡ source.old) }
    ensures cause { HasCause (S.faults source.old) (S.faults source.new) result }
    ensures later { S.faults source.old ≤ S.faults source.new }
    ensures quiet { IsQuietUnlessFailed (S.faults source.old) (S.faults source.new) result }
    ensures same { S.same source.old source.new }
{
    let mut passed = 0u64;
    loop {
        let Ok(()) = gather(source, held, ended, ROW) else {
            return Err(FindStop::Failed);
        };
        let places = places_before_row(held.bytes(), *ended);
        held.consume(places);
        let Some(sum) = passed.checked_add(places as u64) else {
            return Err(FindStop::TooLong);
        };
        passed = sum;
        if *ended || held.bytes().len() >= ROW {
            return Ok(passed);
        }
    }
}

impl<S: Source> Finder<S> {
    /// A finder at the front of its source, with room for 348 packets. Want of memory gives the source up.
    pub fn open(alloc: Global, source: S) -> Result<Finder<S>, AllocError>
        ensures { IfOk result (λ finder. finder ≡ fresh source) }
    {
        let held = ReadBuffer::new(alloc)?;
        Ok(Finder {
            source,
            held,
            handed: 0,
            number: 0,
            tail: None,
            passed: false,
            ended: false,
            stop: None,
        })
    }

    /// Goes on to the next piece and gives it: a packet with its number, from 0 on, or how many bytes were passed over before the next
    /// packet or the end, never 0 and once for each stretch. It gives `None` exactly at the end.
    ///
    /// In sync a packet is given as soon as its 188 bytes have come. Where a row of packets is sought, a place is judged when 409 bytes
    /// from it on have come, or the source ended. `TooLong` comes exactly where the source gave a byte behind its 4,294,967,295th packet
    /// and the tail of that, or a stretch of more than 18,446,744,073,709,551,615 bytes that is no packet. `Failed` comes only where a
    /// read of the source failed in this call; any other answer leaves the source's count of faults as it was. After any of these stops,
    /// and after the end, each later call answers the same. Where a piece is found in the bytes that it holds, the source is not read. It
    /// takes no memory.
    pub fn next(&mut self) -> Result<Option<Found>, FindStop>
        ensures pieces { self.old.stop ≡ None → (bytes : List ℕ) → bytes_left S.left self.old ≡ Some bytes
            → GivesPiece S.left self.new (to_find true self.old bytes) result }
        ensures takes { self.old.stop ≡ None → TakesPiece S.left self.old self.new result }
        ensures counts { self.old.stop ≡ None → Counted self.old self.new result }
        ensures stops { self.old.stop ≡ None → self.new.stop ≡ stop_of result }
        ensures end { result ≡ Ok None → IsAtEnd (S.left self.new.source) }
        ensures at_end { self.new.ended ≡ true → IsAtEnd (S.left self.new.source) }
        ensures cause { self.old.stop ≡ None → HasCause (S.faults self.old.source) (S.faults self.new.source) result }
        ensures over { self.old.stop ≡ None → self.old.ended ≡ true → self.old.held ≡ []
            → (result ≡ Ok None) × (self.new ≡ record self.old { packet = [] }) }
        ensures sticky { IfSome self.old.stop (λ stop. (result ≡ Err stop) × (self.new ≡ self.old)) }
        ensures lazy { HoldsPiece self.old → self.new.source ≡ self.old.source }
        ensures stays { StaysEnded self.old self.new }
        ensures later { S.faults self.old.source ≤ S.faults self.new.source }
        ensures quiet { IsQuietUnlessFailed (S.faults self.old.source) (S.faults self.new.source) result }
        ensures same { S.same self.old.source self.new.source }
    {
        if let Some(stop) = self.stop {
            return Err(stop);
        }
        self.held.consume(self.handed);
        self.handed = 0;
        match self.find() {
            Ok(found) => Ok(found),
            Err(stop) => {
                self.stop = Some(stop);
                Err(stop)
            }
        }
    }

    // Finds the next piece, where none is handed out.
    fn find(&mut self) -> Result<Option<Found>, FindStop>
        requires going { self.old.stop ≡ None }
        requires none { self.old.packet ≡ [] }
        ensures finds { FindsOn S.left self.old self.new result }
        ensures counts { Counted self.old self.new result }
        ensures going { self.new.stop ≡ None }
        ensures end { result ≡ Ok None → IsAtEnd (S.left self.new.source) }
        ensures over { self.old.ended ≡ true → self.old.held ≡ [] → (result ≡ Ok None) × (self.new ≡ self.old) }
        ensures lazy { HoldsPiece self.old → self.new.source ≡ self.old.source }
        ensures stays { StaysEnded self.old self.new }
        ensures cause { HasCause (S.faults self.old.source) (S.faults self.new.source) result }
        ensures later { S.faults self.old.source ≤ S.faults self.new.source }
        ensures quiet { IsQuietUnlessFailed (S.faults self.old.source) (S.faults self.new.source) result }
        ensures same { S.same self.old.source self.new.source }
    {
        let enough = self.needed();
        let Ok(()) = gather(&mut self.source, &mut self.held, &mut self.ended, enough) else {
            return Err(FindStop::Failed);
        };
        let skip = self.tail.unwrap_or(0);
        let size = self.held.bytes().len();
        if size <= skip {
            self.held.consume(size);
            return Ok(None);
        }
        if self.number == PACKETS {
            return Err(FindStop::TooLong);
        }
        if is_packet_at(self.held.bytes(), skip) {
            self.held.consume(skip);
            return Ok(Some(self.hand_out()));
        }
        self.seek()
    }

    // How many bytes it takes to judge the next place.
    fn needed(&self) -> usize
        ensures value { result ≡ needed self.now.tail }
        ensures most { result ≤ 409 }
    {
        match self.tail {
            Some(tail) => tail + PACKET,
            None => ROW,
        }
    }

    // Hands out the packet that is the first of what is held.
    fn hand_out(&mut self) -> Found
        requires none { self.old.packet ≡ [] }
        requires packet { is_packet (take 188 self.old.held) ≡ true }
        requires room { self.old.number < 4294967295 }
        ensures new { self.new ≡ handed_out self.old }
        ensures result { result ≡ was.Packet self.old.number }
    {
        let number = self.number;
        self.tail = Some(tail_with(self.tail, self.held.bytes()));
        self.handed = PACKET;
        self.number += 1;
        self.passed = false;
        Found::Packet(number)
    }

    // Goes on to the next row, where the next place is judged and has no packet.
    fn seek(&mut self) -> Result<Option<Found>, FindStop>
        requires going { self.old.stop ≡ None }
        requires none { self.old.packet ≡ [] }
        requires lost { LostSync self.old }
        ensures finds { FindsOn S.left self.old self.new result }
        ensures counts { Counted self.old self.new result }
        ensures going { self.new.stop ≡ None }
        ensures some { result ≢ Ok None }
        ensures lazy { HoldsPiece self.old → self.new.source ≡ self.old.source }
        ensures stays { StaysEnded self.old self.new }
        ensures cause { HasCause (S.faults self.old.source) (S.faults self.new.source) result }
        ensures later { S.faults self.old.source ≤ S.faults self.new.source }
        ensures quiet { IsQuietUnlessFailed (S.faults self.old.source) (S.faults self.new.source) result }
        ensures same { S.same self.old.source self.new.source }
    {
        let count = match pass_over(&mut self.source, &mut self.held, &mut self.ended) {
            Ok(count) => count,
            Err(stop) => return Err(stop),
        };
        self.tail = None;
        if count == 0 {
            return Ok(Some(self.hand_out()));
        }
        self.passed = true;
        Ok(Some(Found::Junk(count)))
    }

    /// The packet that `next` gave last.
    pub fn packet(&self) -> &[u8; 188]
        requires { length self.now.packet ≡ 188 }
        ensures { result.now ≡ self.now.packet }
    {
        let (packet, _) = self.held.bytes().split_at(self.handed);
        match packet.first_chunk() {
            Some(packet) => packet,
            None => unreachable!(),
        }
    }

    /// How many packets `next` gave. It takes no memory.
    pub fn number(&self) -> u64
        ensures { result ≡ self.now.number }
    {
        self.number
    }

    /// Gives the source back. It takes no memory.
    pub fn close(self) -> S
        ensures { result ≡ self.source }
    {
        self.source
    }
}
