// Laws of an air at a bit rate.
ghost use Rattle.cycle_timing.specs.Airs.{TimedCyclesAreCycles, TimedAirsAreAirs};
ghost use Rattle.cycle_timing.specs.OnAir.{TimedSectionsAreOnAir};
ghost use Rattle.cycle_timing.specs.Apart.{TimedAirsAreApart};
ghost use Rattle.cycle_timing.specs.Again.{TimedCyclesRepeat, TimedNeighboursRepeat, FirstTablesLead};
ghost use Rattle.cycle_timing.specs.Times.{TimedAirsTellTheTime};

/// A cycle at a bit rate has each section of its airing and no other, and TDT and TOT of the moment
/// of the airing or a later one. Such cycles are an air of their airings.
pub fn timed_airs_are_airs()
    ensures cycle { TimedCyclesAreCycles }
    ensures air { TimedAirsAreAirs }
{}

/// In an air at a bit rate each section begins and ends in the packets that the plan of its cycle
/// says, and on each PID there are no others.
pub fn timed_sections_stand()
    ensures { TimedSectionsAreOnAir }
{}

/// Between any two sections of one PID, table_id and table_id_extension lie packets that last 25 ms
/// or more at the rate, in one cycle and from any cycle to any later one (EN 300 468, 5.1.4).
pub fn timed_airs_are_apart()
    ensures { TimedAirsAreApart }
{}

/// Where the frames of a cycle have the right span, each sub-table before present and following is
/// sent again within half a second, and each section of a Fast sub-table within two seconds, or the
/// cycle ends by then. So it is from a cycle into the next one, where that has the same sub-tables.
/// PAT, PMT, NIT, SDT, TDT and TOT are before present and following.
pub fn timed_airs_repeat()
    ensures cycle { TimedCyclesRepeat }
    ensures neighbours { TimedNeighboursRepeat }
    ensures first { FirstTablesLead }
{}

/// TDT and TOT tell what the clock reads in their packet. It never goes back, and goes on by the
/// seconds that the packets last; in one cycle by no more than these and the second begun.
pub fn timed_airs_tell_the_time()
    ensures { TimedAirsTellTheTime }
{}
