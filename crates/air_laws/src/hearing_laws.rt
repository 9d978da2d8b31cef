// Laws of hearing what is sent.
ghost use Rattle.air_model.specs.Repeating.{AirsRepeat};
ghost use Rattle.air_laws.specs.HearingLaws.{AirIsHeard, KeyIsHeard, TableCounts, ChangesAreHeard};

/// On each PID below 8,191, that of the null packets, just the sections are heard that the cycles of the airings have on that
/// PID, in their order. And of each key just those of its sections count that are sent and count, in their order.
pub fn air_is_heard()
    ensures pid { AirIsHeard }
    ensures key { KeyIsHeard }
{}

/// Each section of a sub-table that can be sent and read counts, where the receiver counts its table, with the key, the version and
/// the body that it was sent with.
pub fn tables_count()
    ensures { TableCounts }
{}

/// Whatever sub-tables the airings carry, however densely sections share packets, and however often and in whatever order a cycle
/// repeats sections: of each key just the version changes of the airing list are shown, in order. An air whose cycles are sent in
/// the order of their plan is such an air.
pub fn changes_are_heard()
    ensures changes { ChangesAreHeard }
    ensures airs { AirsRepeat }
{}
