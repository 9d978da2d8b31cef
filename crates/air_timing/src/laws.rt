// Laws of an air at a bit rate.
ghost use Rattle.air_timing.specs.Pacing.{GapsAreKept, CyclesAreApart, WaitsAreShort};
ghost use Rattle.air_timing.specs.Spreading.{SpreadKeepsOrder};
ghost use Rattle.air_timing.specs.Rate.{RatesLast, SpansAreRight, SpansAreLargest};
ghost use Rattle.air_timing.specs.Plan.{PlansAreLong};
ghost use Rattle.air_timing.specs.Turns.{EachHasTurn};
ghost use Rattle.air_timing.specs.Frames.{FramesAreWhole, FramesAreShort, FramesAreNear, LeadsRepeat};

/// Between any two sections of one sub-table lie at least the packets of the gap, whatever the
/// order and whatever stands between them. They also lie between any section of a cycle and any of
/// a next one, which begins with as many null packets.
pub fn gaps_are_kept()
    ensures within { GapsAreKept }
    ensures cycles { CyclesAreApart }
{}

/// No section waits for more null packets than the gap has. In all there are no more packets than
/// those of each section alone and the null packets.
pub fn waits_are_short()
    ensures { WaitsAreShort }
{}

/// Sections that are spread are a permutation: of each sub-table they are its sections, in its
/// order.
pub fn spread_keeps_order()
    ensures { SpreadKeepsOrder }
{}

/// The frames of a body have its sections in their order, and are numbered one after the other. They
/// have no more sections than the body and a lead for each frame, and there are no more frames than
/// sections in the body, one, and those that end the round; a plan of them has a step for each.
pub fn frames_are_whole()
    ensures whole { FramesAreWhole }
    ensures short { FramesAreShort }
    ensures long { PlansAreLong }
{}

/// Where a frame has room for its lead and a section more, it ends within its span, and the next
/// one begins at most a gap later. A section of a lead begins soon after its frame does, and so it
/// begins again after as many spans and gaps as frames begin, or little more.
pub fn frames_are_near()
    ensures near { FramesAreNear }
    ensures repeat { LeadsRepeat }
{}

/// The gap of a bit rate lasts 25 ms or more. Where a span is right at the rate, what stands in the
/// first part of leads, as PAT and PMT, is sent again within half a second, and each section of a
/// lead within two seconds. The span of a rate is the largest one that is right, if one is.
pub fn spans_are_right()
    ensures lasts { RatesLast }
    ensures right { SpansAreRight }
    ensures largest { SpansAreLargest }
{}

/// Each section of a Fast sub-table stands in a lead of a round.
pub fn each_has_turn()
    ensures { EachHasTurn }
{}
