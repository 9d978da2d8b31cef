// Laws of a strict receiver.
ghost use Rattle.strict_receiver.specs.Laws.{UnbrokenIsHeardAlike, RecordingsAreHeardApart};

/// Where no packet is a break on its PID, a strict receiver reports no loss, completes what any receiver
/// completes, and has the same guide.
pub fn unbroken_packets_are_heard_alike()
    ensures { UnbrokenIsHeardAlike }
{}

/// No completion is of sections from before and after a fresh start: those of each key are what each recording
/// completes by itself.
pub fn recordings_are_heard_apart()
    ensures { RecordingsAreHeardApart }
{}
