// Laws of what is held of an air, whole or not.
ghost use Rattle.loss_laws.specs.PartLaws.{PartIsOfOneAiring, FrontPartIsOfOneAiring, ThinnedPartIsOfOneAiring, PartOfRecordingsIsOfOneAiring};

/// Of an air of airings that can be heard, from any packet on and before any other: the sections that a receiver holds of a key
/// are some of the content of that key in one airing whose cycle has a packet among these, each once, by ascending number. It may have
/// completed them, or hold them of a version that is not whole. How often versions went round is left open. The same holds of
/// what was sent of an air that was cut at any byte.
pub fn parts_are_of_one_airing()
    ensures whole { PartIsOfOneAiring }
    ensures front { FrontPartIsOfOneAiring }
{}

/// Packets of an air are lost, but between two of a PID that came at most 14 of that PID. Then the sections that a strict receiver
/// holds of a key are some of the content of that key in one airing, and a packet of that airing's cycle came. So it is, too, where it
/// heard several such recordings of one air, with a fresh start between them: any number of packets may be lost there.
pub fn thinned_parts_are_of_one_airing()
    ensures one { ThinnedPartIsOfOneAiring }
    ensures many { PartOfRecordingsIsOfOneAiring }
{}
