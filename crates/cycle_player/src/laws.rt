// Laws of tallies and of the air that airings make.
ghost use Rattle.cycle_player.specs.Making.{AirIsMadeAgain};
ghost use Rattle.cycle_player.specs.Tallies.{LeastRatesDo, TalliesTellWhetherKept};

/// A tally says whether all is repeated in time: no cycle is short exactly where the span of each is
/// right, so that PAT, PMT, NIT, SDT, TDT and TOT are sent again within half a second, and present
/// and following within two seconds (TR 101 290, 5.2.1 and 5.2.3). And the least rate that it tells
/// would have done for each cycle.
pub fn tallies_tell()
    ensures kept { TalliesTellWhetherKept }
    ensures least { LeastRatesDo }
{}

/// Cycles that a player has made are those of their airings. So whoever has the airings, as a journal
/// has them, makes the same air again.
pub fn airs_are_made_again()
    ensures { AirIsMadeAgain }
{}
