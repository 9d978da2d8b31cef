// Laws of joining an air, and of versions along it.
ghost use Rattle.air_laws.specs.JoiningLaws.{AnotherVersionBetween, ChangesBetween, AirCarries, JoinedIsHeard, RepeatingAirCarries};
ghost use Rattle.air_laws.specs.JoiningLaws.{RepeatingJoinedIsHeard, HeardIsSent, CycleIsHeard, CycleTellsTime, CycleTellsLocalTime};

/// On each PID the packets of an air carry the sections of its cycles, cycle by cycle. A receiver that joins at any packet and loses
/// none before another hears on each PID below 8,191, that of the null packets, just those of these sections whose first byte stands
/// in the packet joined or later and whose last byte stands before the other, in their order (ISO/IEC 13818-1, 2.4.4). Nothing is
/// said of how densely sections share packets, or of the order between PIDs.
pub fn joined_air_is_heard()
    ensures carries { AirCarries }
    ensures part { JoinedIsHeard }
{}

/// The same of an air whose cycles repeat sections as they like.
pub fn joined_repeating_air_is_heard()
    ensures carries { RepeatingAirCarries }
    ensures part { RepeatingJoinedIsHeard }
{}

/// Each section that such a receiver hears is one of an airing whose cycle has a packet among those
/// heard: a section of one of its sub-tables, with the version that this has there, or a TDT or TOT.
/// And where all packets of an airing's cycle are heard, each section of its sub-tables is, a TDT of
/// its moment or of a later one, and such a TOT where it has offsets.
pub fn cycles_are_heard()
    ensures sound { HeardIsSent }
    ensures whole { CycleIsHeard }
    ensures time { CycleTellsTime }
    ensures local_time { CycleTellsLocalTime }
{}

/// Where two airings carry a key with different contents under one version_number, an airing between them carries the key with another
/// version_number, and the content has changed at least 32 times from the one to the other (ISO/IEC 13818-1, 2.4.4.5).
pub fn versions_wrap()
    ensures another { AnotherVersionBetween }
    ensures changes { ChangesBetween }
{}
