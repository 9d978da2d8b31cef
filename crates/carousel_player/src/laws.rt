// Laws of the air that a player makes.
ghost use Rattle.carousel_player.specs.Spacing.{MadeAirsAreSpaced, MadeCyclesAreSpaced, MadeNeighboursAreSpaced};

/// Of an air in which neighbours of one PID share packets (`AreMade`): the sections of each cycle begin in the packets that the packing
/// of the plan says, and those of tier Fast and Near repeat within the bounds of `air_model`, if no section of tier Near or Far has the
/// PID of the first (`RunsBeginAlone`). They do so too from the end of a cycle into the one behind it, where that has equal sub-tables
/// and one quota.
pub fn made_airs_are_spaced()
    ensures cycles { MadeCyclesAreSpaced }
    ensures neighbours { MadeNeighboursAreSpaced }
    ensures airs { MadeAirsAreSpaced }
{}
