// Laws of hearing.
ghost use Rattle.ts_demux.specs.BreakLaws.{BreaksSplit, PartsAreHeard, FlagTells};
ghost use Rattle.ts_demux.specs.Laws.{OrderKept, PartGoesOn, PartIsHeard, CarriedIsHeard};

/// One PID's sections among those of all PIDs, in the order in which they end, are those heard on the PID.
pub fn order_is_kept()
    ensures { OrderKept }
{}

/// Of packets that carry sections on a PID, however densely these share packets, any part hears just the sections with
/// their first and their last byte in the part; all of them hear just what they carry (ISO/IEC 13818-1, 2.4.4).
pub fn carried_is_heard()
    ensures goes_on { PartGoesOn }
    ensures part { PartIsHeard }
    ensures all { CarriedIsHeard }
{}

/// No section is heard over a break, so a PID is heard as its parts between the breaks are heard. The last
/// load of the PID and one flag say whether what comes next is a break (ISO/IEC 13818-1, 2.4.3.3).
pub fn breaks_split()
    ensures split { BreaksSplit }
    ensures parts { PartsAreHeard }
    ensures flag { FlagTells }
{}
