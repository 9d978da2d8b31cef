// Laws of what a receiver shows of the air of a journal.
ghost use Rattle.journal_air.specs.JournalScreenLaws.{JournalsAreShown, JournalsEndShown, SentIsShown};

/// Of the air of a legal journal, whatever was heard before, where all packets of a cycle are heard, and behind it packets alone of cycles of
/// the same publication, nothing is wanting: the guide is the whole screen of that publication, with the moment of the TDT heard last.
pub fn journals_are_shown()
    ensures whole { JournalsAreShown }
    ensures sent { SentIsShown }
{}

/// Where the journal ends with a publish and two swaps, whoever joined before its last cycle has at the end the whole screen of a publication
/// that has each accepted edit of the journal.
pub fn journals_end_shown()
    ensures { JournalsEndShown }
{}
