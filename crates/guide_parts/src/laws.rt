// Laws of parts.
ghost use Rattle.guide_parts.specs.Laws.{PartialIsListen};

/// Where a whole screen is heard, the screen of parts is the same, if of the kinds of events that the SDT says are
/// not sent of a service nothing is held but whole tables, and none without the first table of the schedule.
pub fn partial_is_listen()
    ensures { PartialIsListen }
{}
