// Laws of the air that a player at a bit rate sends.
ghost use Rattle.cycle_player.specs.Playing.{TimedPlayersSendAirs, CyclesBegunAreAirs};

/// What a player at its end has handed out is an air of its airings, and so is what it has handed
/// out with all that is left of the cycle at hand. Each section begins and ends in the packets that
/// the plan of its cycle says. Between any two sections of one sub-table lie packets that last 25
/// ms or more at the rate (EN 300 468, 5.1.4). TDT and TOT tell what the clock reads in their
/// packet. Where the span of a cycle's frames is right, its sections are repeated in time.
pub fn timed_players_send_airs()
    ensures ended { TimedPlayersSendAirs }
    ensures begun { CyclesBegunAreAirs }
{}
