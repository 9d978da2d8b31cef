// Laws of cycles.
ghost use Rattle.air_model.specs.Cutting.{CutsAreUnique};
ghost use Rattle.air_model.specs.Order.{CyclesAreWhole};
ghost use Rattle.air_model.specs.Packing.{PackingIsDense};
ghost use Rattle.air_model.specs.Spacing.{CyclesAreSpaced, NearIsSpaced};

/// A cut of sections keeps its rule, and no other does.
pub fn cuts_are_unique()
    ensures { CutsAreUnique }
{}

/// A cycle has each section that is planned and no other, its Far sections once, and without its Fast sections it is the body.
pub fn cycles_are_whole()
    ensures { CyclesAreWhole }
{}

/// Where sections of one PID that follow each other share packets, all together take no more packets than each alone; counted from the
/// packet in which the first begins, in which others may have ended, one more at most; and from there to the packet in which the
/// next one begins, if that has the same PID, no more than the first has alone.
pub fn packing_is_dense()
    ensures { PackingIsDense }
{}

/// Where the sections of each cycle share packets so, each has 1 to 23 packets alone, and the quota is a packet or more: two starts of
/// a Fast section with none between are at most f + q + 22 packets apart, if no Near or Far section has the PID of the first
/// section; two of a Near section, on any PIDs, at most s + (s div q + 2) f. Here f and n are the packets of Fast and of Near,
/// each section counted alone, q is the quota and s is 2 n + 23. This holds within a cycle, and from its end into a next one of
/// the same sections.
pub fn cycles_are_spaced()
    ensures cycles { CyclesAreSpaced }
    ensures near { NearIsSpaced }
{}
