// What the two words of the program have to do with each other, what a report has to do with an
// input, and the checkpoint of a journal and of its air.
ghost use Rattle.epg_play.specs.Again.{JournalsPlayAgain};
ghost use Rattle.epg_play.specs.Hearing.{PlayIsHeard};
ghost use Rattle.epg_play.specs.NeverRefused.{KeysAreWritten, CountersAreWritten, CheckpointsAreRead};
ghost use Rattle.epg_play.specs.Outcomes.{OutcomesAreCompared};
ghost use Rattle.epg_play.specs.Reports.{PlainReportsAreJournals, ReportsTellJournals};

/// What `play` sends, `listen` hears: where an air of a journal of a script's first commands, or of all, as `play` leaves one, is the
/// recording, each piece of it is a packet, and of each key exactly its version changes along the airing list are reported, in order.
pub fn play_is_heard()
    ensures { PlayIsHeard }
{}

/// A printed journal is a script: after the description of its multiplex, the text of a legal journal whose entries can be read is
/// played to its end, and its journal is this journal again. An entry can be read where its lines have at most 16,384 bytes, and its
/// numbers nine digits (`IsReadable` of `journal_text`).
pub fn journals_play_again()
    ensures { JournalsPlayAgain }
{}

/// A report tells its journal: reports that are one have one journal, one line on the bit rate and
/// one fault line, if any, whatever their multiplexes, where the edits of both journals were read
/// from lines. So neither line goes on with a journal.
pub fn reports_tell_journals()
    ensures { ReportsTellJournals }
{}

/// A report without a bit rate is the text of its journal.
pub fn plain_reports_are_journals()
    ensures { PlainReportsAreJournals }
{}

/// Outcomes are compared as values: a kept outcome agrees exactly where it is the desk's.
pub fn outcomes_are_compared()
    ensures { OutcomesAreCompared }
{}

/// What is kept of the keys that the airings of a legal journal carried, and of the PIDs of an air,
/// which without a bit rate has no null packets, is such as the text of a checkpoint can say. So
/// the checkpoint of the journal with what a player keeps that has handed out an air of its airings
/// is read back, at a bit rate where the clock's moment has at most 18 digits.
pub fn checkpoints_are_never_refused()
    ensures keys { KeysAreWritten }
    ensures counters { CountersAreWritten }
    ensures read { CheckpointsAreRead }
{}
