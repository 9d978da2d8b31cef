// Laws of the load that is made of a number.
ghost use Rattle.epg_soak.specs.Callers.{SoakRunsAreCounted};
ghost use Rattle.epg_soak.specs.Journals.{MadeEditsAreDone, MadeJournalsAreCounted};
ghost use Rattle.epg_soak.specs.Laws.{MadeControlIsRead, MadeDescriptionIsRead, MadeFeedsAreRead};

/// The made description is that of the multiplex of the load, whether or not the made lines of the control stand behind it; and those are
/// three pairs of a tick and a publish, up to the end.
pub fn made_description_is_read()
    ensures mux { MadeDescriptionIsRead }
    ensures control { MadeControlIsRead }
{}

/// The made text of each feed is its edits, 60 of them, up to the end: for each of its four services its names and its 14 days.
pub fn made_feeds_are_read()
    ensures { MadeFeedsAreRead }
{}

/// In a legal journal over the multiplex of the load, in which each feed has made its first edits in their order, each edit is done, however
/// the feeds' edits, ticks, publishes and swaps follow each other. Once both feeds made all of theirs there are 120, and the guide has just as
/// many events as the texts of the feeds have lines of items.
pub fn made_edits_are_done()
    ensures done { MadeEditsAreDone }
    ensures counted { MadeJournalsAreCounted }
{}

/// The journal of a run in which the control and the player made all of their turns, and each feed all of its edits, has 132 entries; each
/// of its 120 edits is done, and all are counted.
pub fn made_runs_are_counted()
    ensures { SoakRunsAreCounted }
{}
