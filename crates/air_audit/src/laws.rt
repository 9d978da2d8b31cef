// The laws of an auditor.
ghost use Rattle.air_audit.specs.Laws.{ConsistentIsPrefix, LongerAirs, LongerBegins, LongerListsAgree, OneToCome, WholeAirsEnd};
ghost use Rattle.air_audit.specs.Passing.{AirsArePassedOver, FrontsArePassedOver};

/// Packets behind a whole air without null packets go on consistently, which is what `check` looks
/// at, exactly where they are a prefix of such an air of the longer airing list: what is consistent
/// so far can always be completed.
pub fn consistent_is_prefix()
    ensures { ConsistentIsPrefix }
{}

/// An auditor need not know the airings to come: a prefix of an air is one for each longer airing list, and while the cycle has not
/// ended, a packet is right by the list exactly where it is by a longer one.
pub fn longer_lists_agree()
    ensures begins { LongerBegins }
    ensures agree { LongerListsAgree }
{}

/// What is still to come on a PID is determined by the packets accepted and the airing list, and so is the rule that a packet
/// breaks.
pub fn one_is_to_come()
    ensures { OneToCome }
{}

/// Behind a whole air no packet makes a prefix of an air of its list; and so a prefix that is no air of its list is none of a longer
/// one either.
pub fn whole_airs_end()
    ensures end { WholeAirsEnd }
    ensures longer { LongerAirs }
{}

/// Null packets may stand anywhere in an air. It is an air without null packets once these are
/// passed over, and so begins each front of it.
pub fn null_packets_are_passed_over()
    ensures whole { AirsArePassedOver }
    ensures front { FrontsArePassedOver }
{}
