// Laws of what is found.
ghost use Rattle.packet_finder.specs.Laws.{FindingGoesOn, BytesAreFound, AirIsFound};

/// Where the front is of packets 188 bytes apart, the packets of a recording up to its first piece that is none are the first that are
/// found; where each piece is a packet, all.
pub fn finding_goes_on()
    ensures { FindingGoesOn }
{}

/// The pieces and the tails of packets are the bytes of the recording, in order. Each stretch passed over has a byte, and no two are
/// neighbours.
pub fn bytes_are_found()
    ensures { BytesAreFound }
{}

/// Three packets in a row behind bytes in which no row begins are found, from the first on.
pub fn air_is_found()
    ensures { AirIsFound }
{}
