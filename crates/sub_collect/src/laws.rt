// Laws of completions.
ghost use Rattle.sub_collect.specs.Laws.{KeysApart, LatestApart, LatestIsShown, LatestOneMore, DonesGoOn, DonesOneMore, FromZeroIsNumbered, BySegmentsIsNumbered, WholeCompletes, RunCompletes, RunCompletesNoOther, VersionBeginsRun, VersionKeepsRun, NewIsShown, SameIsQuiet};
ghost use Rattle.sub_collect.specs.MarkLaws.{MarkFree, ShownMarkFree, MarkForgets, MarkOfAllStartsAfresh, LatestOverIsShown, CompletedSinceMark};

/// The completions of a key depend on the sections of that key alone: those that are shown, and the latest
/// one, which is the last one that was shown.
pub fn completions_by_key()
    ensures shown { KeysApart }
    ensures latest { LatestApart }
    ensures last_shown { LatestIsShown }
{}

/// What sections show does not depend on what comes later, and what one section more changes.
pub fn completions_go_on()
    ensures list { DonesGoOn }
    ensures one { DonesOneMore }
    ensures latest { LatestOneMore }
{}

/// Whatever was heard before, the sections of a content that describes itself, in order under one version, complete it. A content with
/// the numbers 0, 1, .. describes itself where its table has no event information, and one that goes by segments where it has
/// (EN 300 468, 5.2.4).
pub fn whole_versions_complete()
    ensures whole { WholeCompletes }
    ensures from_zero { FromZeroIsNumbered }
    ensures by_segments { BySegmentsIsNumbered }
{}

/// A section of another version begins a run, which holds nothing of before, and one of the same version
/// joins the run.
pub fn versions_part_runs()
    ensures begins { VersionBeginsRun }
    ensures joins { VersionKeepsRun }
{}

/// A run in which all sections are of one content that describes itself completes nothing but it, and it where the run holds all its
/// numbers.
pub fn runs_complete_their_content()
    ensures other { RunCompletesNoOther }
    ensures whole { RunCompletes }
{}

/// However often and in whatever order sections of a content are heard: under a version that the key did not have last, they show the
/// content once, as soon as they are heard all, and then nothing more.
pub fn contents_are_shown_once()
    ensures new { NewIsShown }
    ensures same { SameIsQuiet }
{}

/// Laws of marks. Without marks nothing changes. A mark forgets the sections of its PID's keys, and nothing
/// else. A mark of every PID forgets the sections of all keys, and no completion. Each completion is made of
/// sections since one mark, and the latest completion of a key is the last one that was shown.
pub fn marks_forget()
    ensures free { MarkFree }
    ensures shown_free { ShownMarkFree }
    ensures forgets { MarkForgets }
    ensures afresh { MarkOfAllStartsAfresh }
    ensures since { CompletedSinceMark }
    ensures shown { LatestOverIsShown }
{}
