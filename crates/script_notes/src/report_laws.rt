// Laws of whole entries.
ghost use Rattle.script_notes.specs.ReportLaws.{WholeEntriesAreKept, WholeEntriesAreLongest};

/// The whole entries of a text are its longest front that ends with LF and whose last line begins
/// with `=`, or nothing where no front does.
pub fn whole_entries_are_longest()
    ensures { WholeEntriesAreLongest }
{}

/// A report may be cut at any byte, also in what a run prints at its end. Its whole entries are the
/// text of the pieces that are whole, up to the last entry. The edits of its entries were read from
/// lines.
pub fn whole_entries_are_kept()
    ensures { WholeEntriesAreKept }
{}
