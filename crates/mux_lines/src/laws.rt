// A law of lines.
ghost use Rattle.mux_lines.specs.Laws.{FoundRecordsAreFine};

/// The record of a line has each field in its range, and texts that may be kept. The definitions alone tell it, of any
/// line, whether or not a reader ever gives it.
pub fn found_records_are_fine()
    ensures { FoundRecordsAreFine }
{}
