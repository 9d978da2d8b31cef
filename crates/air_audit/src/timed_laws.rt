// The laws of an auditor of an air at a bit rate.
ghost use Rattle.air_audit.specs.TimedLaws.{LongerBegins, LongerListsAgree, LongerAirs, WholeAirsEnd};

/// The first packets of an air are those of the air of each longer airing list. While the cycle has
/// not ended, a packet is the next one by the list exactly where it is by a longer one. After a
/// whole air no packet is the next one; and so the first packets of an air that are no whole one
/// are no whole one of a longer list either.
pub fn timed_lists_agree()
    ensures begins { LongerBegins }
    ensures agree { LongerListsAgree }
    ensures end { WholeAirsEnd }
    ensures longer { LongerAirs }
{}
