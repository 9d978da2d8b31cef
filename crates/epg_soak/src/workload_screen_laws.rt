// Laws of what is shown of the load that is made of a number.
ghost use Rattle.epg_soak.specs.Events.{SoakRunsAreShown};

/// The screen of all edits of a run in which the control and the player made all of their turns, and each feed all of its edits, has just as
/// many events as the texts of the feeds have lines of items, whatever moment it tells.
pub fn made_runs_are_shown()
    ensures { SoakRunsAreShown }
{}
