// Laws of what is heard of an air from which packets were lost.
ghost use Rattle.loss_laws.specs.ThinnedAirLaws.{ThinnedAirIsCoherent, ThinnedDonesAreAired, ThinnedContentsAreHeard, ThinnedOnAirIsHeard, PartOfAirIsHeardAlike};

/// Packets of an air are lost, but between two of a PID that came at most 14 of that PID. Then each content
/// that a strict receiver completes is the content of that key in one airing, under the version that it has
/// there, and a packet of that airing's cycle came. This holds however often the versions went round.
pub fn thinned_airs_are_coherent()
    ensures completed { ThinnedAirIsCoherent }
    ensures shown { ThinnedDonesAreAired }
{}

/// All packets of one cycle came, and later only packets of cycles with the same sub-tables. Then a strict
/// receiver has what is on air, whatever was lost before. Where all airings tell the same offsets of local
/// time, it has these too.
pub fn whole_cycles_are_heard()
    ensures contents { ThinnedContentsAreHeard }
    ensures view { ThinnedOnAirIsHeard }
{}

/// Of a part of an air no packet is lost. Then a strict receiver reports no loss, completes what any receiver
/// completes, and has the same guide.
pub fn whole_parts_are_heard_alike()
    ensures { PartOfAirIsHeardAlike }
{}
