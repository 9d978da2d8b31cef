// What the definitions say, in other words.
ghost use Rattle.eit_segments.specs.Laws.{TablesAreWhole, SegmentsHaveRuns, SchedulesHaveEvents, EventsCanBePlaced};

/// The numbers of a table's sections are just those that a receiver needs: in each segment up to the last one those from
/// its first number to its last, whichever section of it tells that.
pub fn tables_are_whole()
    ensures { TablesAreWhole }
{}

/// The sections of a schedule have the events that start in its 64 days, each once and in order. Those of a segment have the
/// events that start in its block of three hours.
pub fn schedules_have_their_events()
    ensures segments { SegmentsHaveRuns }
    ensures schedules { SchedulesHaveEvents }
{}

/// The events of a service within its limits are such as `segments` and `present_following` take.
pub fn events_can_be_placed()
    ensures { EventsCanBePlaced }
{}
