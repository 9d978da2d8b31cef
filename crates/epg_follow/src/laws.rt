// Laws of following a script.
ghost use Rattle.epg_follow.specs.Completing.{FollowResumeRunsComplete, FollowRunsComplete};
ghost use Rattle.epg_follow.specs.Keeping.{KeepingGoesOn};
ghost use Rattle.epg_follow.specs.SameAsPlay.{EntriesAreTheJournal, FollowIsPlay};

/// A script that `play` plays to its end is followed to its end: the entries of its journal are
/// reported and nothing else, so the text is that of the journal. With or without `--keep-going`.
pub fn following_is_playing()
    ensures entries { FollowIsPlay }
    ensures text { EntriesAreTheJournal }
{}

/// With `--keep-going` a script ends only where it is at its end, where its limit is passed, or
/// where a read failed: no line at fault ends it.
pub fn keeping_goes_on()
    ensures { KeepingGoesOn }
{}

/// A followed run whose input and sinks do not fail ends with Done, unless a line is at fault, the
/// limit of a script is passed, or memory is wanting (`new`). So does one from a checkpoint, where
/// opening and reading the file do not fail either (`resumed`).
pub fn followed_runs_complete()
    ensures new { FollowRunsComplete }
    ensures resumed { FollowResumeRunsComplete }
{}
