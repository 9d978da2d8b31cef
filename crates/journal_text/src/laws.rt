// What is written reads back.
ghost use Rattle.journal_text.specs.Back.{EntriesReadBack, JournalsDiffer, JournalsEnd, OutcomesAreFields, OutcomesReadBack};

/// The law that the text of an outcome is its fields with commas between, and that these are read as the outcome, where its
/// numbers have at most nine digits and its moment can be written.
pub fn outcomes_read_back()
    ensures fields { OutcomesAreFields }
    ensures read { OutcomesReadBack }
{}

/// The law that the text of a readable entry reads back, whatever text stands behind it: first its step with its caller, and
/// then its outcome, with what stands behind it still ahead.
pub fn entries_read_back()
    ensures entries { EntriesReadBack }
{}

/// The law that journals whose edits were read from lines have different texts where they differ, whatever length their lines
/// have; also where a text stands behind each that no entry begins, as that of a fault, and then these texts are one too.
pub fn journals_differ_in_their_texts()
    ensures journals { JournalsDiffer }
    ensures end { JournalsEnd }
{}
