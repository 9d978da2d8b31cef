// Laws of what is reported.
ghost use Rattle.epg_listen.specs.Laws.{PacketsAreReported, WholeIsReportedAlike};

/// Without options the report of packets is the completions that they show, each with its packet, and then the guide that was heard of them.
pub fn packets_are_reported()
    ensures { PacketsAreReported }
{}

/// Where a whole guide is heard, the report is the same with `partial` and without, if of the kinds of events that the SDT says are not
/// sent nothing is held but whole tables.
pub fn whole_guides_are_reported_alike()
    ensures { WholeIsReportedAlike }
{}
