// What a report has to do with a journal.
ghost use Rattle.epg_live.specs.Reports.{LiveReportsTellJournals};

/// A report of `live` tells its journal: reports that are one have one journal, and after it one
/// text of completions, views, guide, bit rate and fault, where the edits of both journals were
/// read from lines, as those of each run are (`LeftLive`, `of_lines`).
pub fn live_reports_tell_journals()
    ensures { LiveReportsTellJournals }
{}
