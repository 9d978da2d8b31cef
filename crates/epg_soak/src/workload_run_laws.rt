// Laws of runs of `live` over the made texts of a load.
ghost use Rattle.epg_soak.specs.Runs.{DoneRunsAreCounted, DoneRunsAreWhole, MadeTextsAreDone, MadeTextsAreWhole};

/// The made description with the made lines of the control behind it, and the made texts of the two feeds, are whole, whatever the number;
/// so where nothing fails they decide that the status is Done.
pub fn made_texts_are_whole()
    ensures whole { MadeTextsAreWhole }
    ensures status { MadeTextsAreDone }
{}

/// A run of `live` of three cycles over these texts that met Done has the journal of a whole run of the load: each caller's commands, each
/// once, in order. So it has 132 entries; each of its 120 edits is done, and all are counted.
pub fn done_runs_are_counted()
    ensures run { DoneRunsAreWhole }
    ensures counted { DoneRunsAreCounted }
{}
