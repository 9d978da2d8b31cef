// Laws of what is heard of an air of a journal from which packets were lost.
ghost use Rattle.loss_laws.specs.Heard.{ThinnedJournalIsHeard};

/// A recording is what came of an air of a legal journal, where between two packets of a PID that came at
/// most 14 of that PID are missing. Then each sub-table that a strict receiver completes is that of one airing
/// of the journal, and a packet of that airing's cycle came. Where all packets of one cycle came, and later
/// only packets of cycles of the same publication, its guide is the whole screen of that publication, with
/// the moment of the last TDT that it heard.
pub fn thinned_journals_are_heard()
    ensures { ThinnedJournalIsHeard }
{}
