// Laws of parts that were heard.
ghost use Rattle.guide_parts.specs.HeardLaws.{NamedAreCompleted, GuideIsSame, StrictGuideIsSame, NothingIsBeside};

/// Whatever a receiver heard, before and since a fresh start, with marks or without: the keys of the PAT,
/// the NIT and the SDT that it names were completed, and the SDT is that of the PAT's stream.
pub fn named_tables_are_whole()
    ensures { NamedAreCompleted }
{}

/// Where a receiver has a whole guide, the guide of parts is the same, with nothing wanting and with the
/// same text, if of the kinds of events that the SDT says are not sent nothing is held but whole tables.
/// Nothing is asked where it says that all are sent. A strict receiver may have started afresh.
pub fn whole_guides_are_the_same()
    ensures any { GuideIsSame }
    ensures strict { StrictGuideIsSame }
    ensures sent { NothingIsBeside }
{}
