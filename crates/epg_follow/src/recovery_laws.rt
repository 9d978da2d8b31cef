// Laws of going on after a kill.
ghost use Rattle.epg_follow.specs.Again.{DescriptionsGoOn, ReportsAreScripts, ReportsPlayAgain};
ghost use Rattle.epg_follow.specs.Bridges.{KillsAreBridged};
ghost use Rattle.epg_follow.specs.Endings.{EndingsHaveNoOutcome};
ghost use Rattle.epg_follow.specs.Folds.{CheckpointsAreOne, FoldsAgain};
ghost use Rattle.epg_follow.specs.Leaving.{FollowRunsLeaveWhatStands, FollowingLeavesWhatStands, WhatIsLeftStands};
ghost use Rattle.epg_follow.specs.Made.{MadeIsOne};
ghost use Rattle.epg_follow.specs.Missing.{BridgedAirIsThinned, BridgedRunsAreHeard};
ghost use Rattle.epg_follow.specs.Near.{VersionsDiffer};
ghost use Rattle.epg_follow.specs.Recovery.{FoldRunsMakeWhatWasAired, FoldsMakeWhatWasAired, RecoveredRunsAreBridged, ResumedFoldsMakeWhatWasAired, ResumedRunsGoOn, RunsAreBridged, StandingRunsGoOn, WholeEntriesFold};
ghost use Rattle.epg_follow.specs.ManyRuns.{RunsInARowAreOneAir};

/// Cycles that are made after the same earlier ones are determined by their airings. So a run that
/// plays a journal again makes the packets that were on air.
pub fn made_cycles_are_one()
    ensures { MadeIsOne }
{}

/// Two airings fewer than 32 apart that carry a key with different contents give it different
/// versions (EN 300 468, 5.1.1).
pub fn near_versions_differ()
    ensures { VersionsDiffer }
{}

/// A report of entries, with comments among them, is a script. After a description it is the script
/// of its entries, ended, within any limit of a text. After a journal it plays again too.
pub fn reports_are_scripts()
    ensures scripts { ReportsAreScripts }
    ensures again { ReportsPlayAgain }
    ensures descriptions { DescriptionsGoOn }
{}

/// What a run prints at its end has no line that begins with `=`, wherever it is cut. So it leaves
/// the whole entries of a report as they are.
pub fn endings_have_no_outcome()
    ensures { EndingsHaveNoOutcome }
{}

/// A run leaves what stands, whether it ended or a sink failed: its report has whole pieces and a
/// front of what comes next, and its air the cycles of those pieces, or of the last a front. So does
/// each run of `play --follow` that began (`followed`), as one from nothing whose input did not fail
/// (`runs`). Where memory was wanting for the cycle of a last swap, that front is empty.
pub fn what_is_left_stands()
    ensures left { WhatIsLeftStands }
    ensures followed { FollowingLeavesWhatStands }
    ensures runs { FollowRunsLeaveWhatStands }
{}

/// A run was killed, and the whole entries of its report are folded. The fold makes the very cycles
/// that were on air, so its report is the checkpoint of what stood. This holds of `play --fold`, of
/// `play --resume --fold`, within the limit of any script, and of the lines after any description.
/// Where nothing fails the fold is Done, but for want of memory (`done`).
pub fn folds_make_what_was_aired()
    ensures runs { FoldRunsMakeWhatWasAired }
    ensures resumed { ResumedFoldsMakeWhatWasAired }
    ensures behind { FoldsMakeWhatWasAired }
    ensures done { WholeEntriesFold }
{}

/// A journal and an air of it have one checkpoint. So a journal may be folded by parts, each on the
/// checkpoint of the one before: the last has the checkpoint of a fold of the whole.
pub fn parts_fold_as_the_whole()
    ensures one { CheckpointsAreOne }
    ensures parts { FoldsAgain }
{}

/// A run that began from a checkpoint goes on after its journal and its air, whether it ended or
/// was killed.
pub fn runs_go_on()
    ensures resumed { ResumedRunsGoOn }
    ensures standing { StandingRunsGoOn }
{}

/// A run was killed, and another went on after what stood (`bridged`), as a run does that began
/// from the checkpoint of what stood (`recovered`): so `play --fold` of the whole entries and then
/// `play --resume` (`runs`). All entries are one legal journal, and all cycles are an air of it. Of
/// the packets before the kill only the last ones of a cut cycle are lost; counters count on over
/// them. Within 31 airings no version has two contents. Where at most 14 packets of each PID are
/// lost, what came is a thinned air (`thinned`), which a strict receiver hears as one (`heard`).
/// Any number of runs in a row, each killed or ended, make one air so (`many`).
pub fn kills_are_bridged()
    ensures bridged { KillsAreBridged }
    ensures recovered { RecoveredRunsAreBridged }
    ensures runs { RunsAreBridged }
    ensures thinned { BridgedAirIsThinned }
    ensures heard { BridgedRunsAreHeard }
    ensures many { RunsInARowAreOneAir }
{}
