// Laws of packets and the sections that they carry.
ghost use Rattle.ts_packets.specs.Laws.{AloneIsCarried, StretchIsCarried, PayloadIs, UsefulIsJoined};

/// The packets of a section, as `packet` gives them, carry just this section, and those of a stretch of sections that share packets carry
/// these sections (ISO/IEC 13818-1, 2.4.4). Of packets that carry
/// sections, however densely these share packets, the payloads without pointers and fill, joined, are the sections joined.
pub fn packets_carry_sections()
    ensures alone { AloneIsCarried }
    ensures stretch { StretchIsCarried }
    ensures payload { PayloadIs }
    ensures joined { UsefulIsJoined }
{}
