// What gives the pieces of a recording.
ghost use Rattle.std.specs.Prelude.{◌≡◌, ◌≤◌, ◌<◌, List, ℕ, Bool, false, Option, None, Ok, IfOk, IfSome, OnOk, length};
ghost use Rattle.std.specs.Io.KnownBytes.{IsAtEnd};
ghost use Rattle.packet_reader.specs.Reading.{HasCause, packets_to_come};
ghost use Rattle.packet_finder.specs.Pieces.{Piece};
ghost use Rattle.packet_finder.specs.Laws.{packets_of};
ghost use Rattle.epg_listen.specs.Giving.{Gives, IsGivenPacket, HasRead};

use packet_finder::Found;
use packet_reader::{PacketReader, PacketStop};
use si_causes::Source;

/// What gives the pieces of a recording, one after another.
///
/// Contracts may speak of whether it seeks the sync byte again where it is lost (`resync`), of what its source has left and of the count
/// of that one's faults (`left`, `faults`), of whether it goes on (`going`), of the packet that it gave last (`last`), of the pieces that
/// it gave of a recording (`gave`), of how many may still come (`to_come`), and of what stays the same (`same`).
pub(crate) trait PieceReader {
    /// Whether it seeks the sync byte again where it is lost.
    ghost resync: { Bool };

    /// The bytes that its source has left, where they are known.
    ghost left: { Self → Option (List ℕ) };

    /// The count of the faults of its source.
    ghost faults: { Self → ℕ };

    /// It has not stopped.
    ghost going: { Self → Type 0 };

    /// The packet that it gave last.
    ghost last: { Self → List ℕ };

    /// Of a recording of these bytes it gave these pieces.
    ghost gave: { Self → List ℕ → List Piece → Type 0 };

    /// How many pieces it may still give at most.
    ghost to_come: { Self → ℕ };

    /// What a source keeps.
    ghost same: { Self → Self → Type 0 };

    /// Gives the next piece, or `None` exactly at the end. Its stops are those of `PacketReader::next`; where sync is sought, `Broken(0)`
    /// comes exactly where the recording has a byte and no packet.
    fn next_piece(&mut self) -> Result<Option<Found>, PacketStop>
        requires going { going self.old }
        ensures gives { (bytes : List ℕ) (heard : List Piece) → gave self.old bytes heard
            → Gives resync bytes (left self.new) (gave self.new bytes) (last self.new) heard result }
        ensures going { OnOk result (going self.new) }
        ensures packet { IfOk result (λ piece. IfSome piece (λ found. IsGivenPacket (last self.new) found)) }
        ensures fewer { IfOk result (λ piece. IfSome piece (λ found. to_come self.new < to_come self.old)) }
        ensures end { result ≡ Ok None → IsAtEnd (left self.new) }
        ensures cause { HasCause (faults self.old) (faults self.new) result }
        ensures later { faults self.old ≤ faults self.new }
        ensures same { same self.old self.new };

    /// The packet that was given last.
    fn last_packet(&self) -> &[u8; 188]
        requires { length (last self.now) ≡ 188 }
        ensures { result.now ≡ last self.now };

    /// How many packets were given.
    fn packet_count(&self) -> u64
        ensures { (bytes : List ℕ) (heard : List Piece) → gave self.now bytes heard → result ≡ length (packets_of heard) };

    /// A source keeps all where nothing is done.
    ghost same_at_once: { (reader : Self) → same reader reader };

    /// And so one call after another.
    ghost same_later: { (a b c : Self) → same a b → same b c → same a c };
}

impl<S: Source> PieceReader for PacketReader<S> {
    ghost resync = { false };

    ghost left = { λ reader. S.left reader.source };

    ghost faults = { λ reader. S.faults reader.source };

    ghost going = { λ reader. reader.stop ≡ None };

    ghost last = { λ reader. reader.packet };

    ghost gave = { λ reader bytes heard. HasRead S.left reader bytes heard };

    ghost to_come = { λ reader. packets_to_come reader };

    ghost same = { λ old new. S.same old.source new.source };

    fn next_piece(&mut self) -> Result<Option<Found>, PacketStop> {
        match self.next() {
            Ok(Some(number)) => Ok(Some(Found::Packet(number))),
            Ok(None) => Ok(None),
            Err(stop) => Err(stop),
        }
    }

    fn last_packet(&self) -> &[u8; 188] {
        self.packet()
    }

    fn packet_count(&self) -> u64 {
        self.number()
    }

    ghost same_at_once = { λ reader. S.same_at_once reader.source };

    ghost same_later = { λ a b c first then. S.same_later a.source b.source c.source first then };
}
