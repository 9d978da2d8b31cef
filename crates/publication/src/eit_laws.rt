// What the definitions say, in other words.
ghost use Rattle.publication.specs.EitLaws.{EventsAreRead, EventsNameTheStream, PresentIsFit, ReadEditsLeaveTypedEvents, ScheduleIsFit, TypedEntriesAreSmall};

/// In a guide within its limits each event has an entry of at most 1,578 bytes.
pub fn entries_are_small()
    ensures { TypedEntriesAreSmall }
{}

/// The events of a guide that edits leave, as they are read from lines, have what each value of the type `Event` has: ids of 16 bits,
/// codes of three letters, and texts that may be kept.
pub fn read_edits_leave_typed_events()
    ensures { ReadEditsLeaveTypedEvents }
{}

/// The sections of event information of a service can be sent, and describe themselves: their numbers are below 256, their
/// bodies have 6 to 4,084 bytes, and the numbers that they ask a receiver for, segment by segment, are exactly their own.
/// Each names its stream: it begins with transport_stream_id and original_network_id. And each is read as event information.
pub fn events_are_fit()
    ensures present { PresentIsFit }
    ensures schedule { ScheduleIsFit }
    ensures names { EventsNameTheStream }
    ensures read { EventsAreRead }
{}
