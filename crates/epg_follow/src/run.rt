// A script that is followed to its end.
ghost use Rattle.std.specs.Prelude.{◌≡◌, ◌<◌, ◌^◌, [], List, ℕ, None, Some, IfErr, Ok};
ghost use Rattle.si_causes.specs.Causes.{Rose};
ghost use Rattle.si_causes.specs.Reading.{fresh_to};
ghost use Rattle.si_causes.specs.Opening.{Files};
ghost use Rattle.epg_report.specs.Asked.{HasAskedFor};
ghost use Rattle.epg_play.specs.Beginning.{IsOfResume};
ghost use Rattle.epg_play.specs.CheckpointRuns.{Nothing, NothingAsked};
ghost use Rattle.epg_play.specs.Courses.{HasMet};
ghost use Rattle.epg_play.specs.Leaves.{IsOfPlay};
ghost use Rattle.epg_play.specs.Script.{long_limit};
ghost use Rattle.epg_follow.specs.Behind.{FollowsBehind};
ghost use Rattle.epg_follow.specs.Runs.{FollowRan, FollowResumeRan, FollowResumes, HasFollowedOn, IsBehindMux, LeavesLong};
ghost use Rattle.std.specs.Io.KnownBytes.{IsAtEnd};
ghost use Rattle.journal_model.specs.declared.step.Entry.{Entry as AnEntry};
ghost use Rattle.desk_core.specs.Lean.{StandsFor};
ghost use Rattle.epg_report.specs.Told.{asked, told};
ghost use Rattle.epg_follow.specs.Going.{Stops};
ghost use Rattle.epg_follow.specs.Items.{CanFollowOn, HaveCauses, IsFresh, IsSaid, StaysReady};

use crate::finish::{end_idle, finish};
use crate::follower::Follower;
use crate::item::follow_item;
use crate::stop::FollowStop;
use desk_checkpoint::Start;
use epg_play::{LONG_LIMIT, mux_stop_of, new_start, start_at, status_of};
use epg_report::{Origin, Outlet, Status, out_of_memory};
use mux_config::read_mux;
use si_causes::{LineReader, Opener, Sink, Source};
use std::alloc::Global;

/// Follows the script that is left: each line is done, and its entry or its comment reported, before the next is taken up.
pub fn follow_rest<S: Source, A: Sink, R: Sink>(
    alloc: Global,
    lines: &mut LineReader<S>,
    follower: &mut Follower,
    keep: bool,
    air: &mut A,
    report: &mut R,
) -> Result<(), FollowStop>
    requires can { CanFollowOn S.left lines.old follower.old }
    requires fresh { IsFresh follower.old }
    ensures did { (journal : List AnEntry) → StandsFor journal follower.old.desk
        → Stops keep S.left lines.old lines.new journal follower.old follower.new
        (told A.written A.faults air.old air.new)
        (told R.written R.faults report.old report.new) result }
    ensures said { IfErr result IsSaid }
    ensures stays { StaysReady follower.old follower.new result }
    ensures end { result ≡ Ok tt → IsAtEnd (S.left lines.new.source) }
    ensures causes { HaveCauses (S.faults lines.old.source) (S.faults lines.new.source)
        (told A.written A.faults air.old air.new)
        (told R.written R.faults report.old report.new) result }
    ensures same { S.same lines.old.source lines.new.source }
{
    'items: loop {
        match follow_item(alloc, lines, follower, keep, air, report) {
            Ok(true) => {}
            Ok(false) => return Ok(()),
            Err(stop) => return Err(stop),
        }
    }
}

// Follows the script that is left from a start on, and ends its report.
fn follow_on<S: Source, A: Sink, R: Sink>(
    alloc: Global,
    lines: &mut LineReader<S>,
    start: Start,
    keep: bool,
    air: &mut A,
    report: &mut R,
) -> Status
    requires going { lines.old.stop ≡ None }
    requires ended { start.player.left ≡ [] }
    requires shift { start.shift < 10 ^ 18 }
    ensures followed { HasFollowedOn keep S.left lines.old lines.new start
        (told A.written A.faults air.old air.new)
        (told R.written R.faults report.old report.new) result }
    ensures known { IsBehindMux result }
    ensures met { HasMet S.left S.faults S.same lines.old.source lines.new.source
        A.faults air.old air.new result }
    ensures report_cause { result ≡ Status.WriteFault Outlet.Report
        → Rose (R.faults report.old) (R.faults report.new) }
{
    let mut follower = Follower::from(start);
    let followed = follow_rest(alloc, lines, &mut follower, keep, air, report);
    finish(alloc, &follower, followed, report)
}

// Follows the script of an input, from a head-end that did nothing yet.
fn follow_new<S: Source, A: Sink, R: Sink>(
    alloc: Global,
    lines: &mut LineReader<S>,
    keep: bool,
    air: &mut A,
    report: &mut R,
) -> Status
    requires unread { lines.old ≡ fresh_to long_limit lines.old.source }
    ensures leaves { (text : List ℕ) → S.left lines.old.source ≡ Some text
        → LeavesLong (Nothing (told A.written A.faults air.old air.new)
        (told R.written R.faults report.old report.new))
        (λ mux. FollowsBehind keep mux [] [] (told A.written A.faults air.old air.new)
        (told R.written R.faults report.old report.new))
        text (S.left lines.new.source) result }
    ensures known { IsOfPlay result }
    ensures met { HasMet S.left S.faults S.same lines.old.source lines.new.source
        A.faults air.old air.new result }
    ensures report_cause { result ≡ Status.WriteFault Outlet.Report
        → Rose (R.faults report.old) (R.faults report.new) }
{
    let mux = match read_mux(alloc, lines) {
        Ok(mux) => mux,
        Err(stop) => return end_idle(alloc, status_of(mux_stop_of(stop)), report),
    };
    match new_start(alloc, mux) {
        Ok(start) => follow_on(alloc, lines, start, keep, air, report),
        Err(_) => out_of_memory(report),
    }
}

/// `play --follow`: plays the script of the input as [`epg_play::run_play`] does, and reports the journal as it happens: the entry of a
/// command when it was done, before the first packet of its cycle. With `keep` a line at fault is passed over with a comment, else it ends
/// the run with the comment before the line of the fault. The input may have 2^64 - 2 bytes. The desk keeps no journal.
///
/// A failed write of the report ends the run there; a failed write of the air ends it with the line of the fault.
pub fn run_followed<S: Source, A: Sink, R: Sink>(
    alloc: Global,
    keep: bool,
    input: &mut S,
    air: &mut A,
    report: &mut R,
) -> Status
    ensures run { FollowRan keep S.left S.faults input.old input.new
        A.written A.faults air.old air.new R.written R.faults report.old report.new result }
{
    let Ok(mut lines) = LineReader::open_to(alloc, &mut *input, LONG_LIMIT) else {
        return out_of_memory(report);
    };
    let status = follow_new(alloc, &mut lines, keep, air, report);
    let _source = lines.close();
    status
}

// Follows the script of an input, from the checkpoint in the file of this path.
fn follow_from<O: Opener, S: Source, A: Sink, R: Sink>(
    alloc: Global,
    lines: &mut LineReader<S>,
    path: &str,
    keep: bool,
    opener: &mut O,
    air: &mut A,
    report: &mut R,
) -> Status
    requires unread { lines.old ≡ fresh_to long_limit lines.old.source }
    ensures leaves { (text : List ℕ) → S.left lines.old.source ≡ Some text → (files : Files)
        → O.files opener.old ≡ Some files
        → LeavesLong (NothingAsked
        (asked O.files O.tried O.faults O.read_faults opener.old opener.new)
        (told A.written A.faults air.old air.new) (told R.written R.faults report.old report.new))
        (FollowResumes path.now files keep
        (asked O.files O.tried O.faults O.read_faults opener.old opener.new)
        (told A.written A.faults air.old air.new) (told R.written R.faults report.old report.new))
        text (S.left lines.new.source) result }
    ensures known { IsOfResume result }
    ensures asked { HasAskedFor path.now (O.tried opener.old) (O.tried opener.new) result }
    ensures met { HasMet S.left S.faults S.same lines.old.source lines.new.source
        A.faults air.old air.new result }
    ensures open_cause { (n : ℕ) → result ≡ Status.OpenFault n
        → Rose (O.faults opener.old) (O.faults opener.new) }
    ensures read_cause { result ≡ Status.ReadFault Origin.Recording
        → Rose (O.read_faults opener.old) (O.read_faults opener.new) }
    ensures report_cause { result ≡ Status.WriteFault Outlet.Report
        → Rose (R.faults report.old) (R.faults report.new) }
{
    let mux = match read_mux(alloc, lines) {
        Ok(mux) => mux,
        Err(stop) => return end_idle(alloc, status_of(mux_stop_of(stop)), report),
    };
    match start_at(alloc, mux, path, opener) {
        Ok(start) => follow_on(alloc, lines, start, keep, air, report),
        Err(met) => end_idle(alloc, met, report),
    }
}

/// `play --follow --resume PATH`: as [`run_followed`], but reads the checkpoint in the file of this path after the description of the
/// multiplex, and goes on from it as [`epg_play::run_resumed`] does.
pub fn run_follow_resumed<O: Opener, S: Source, A: Sink, R: Sink>(
    alloc: Global,
    path: &str,
    keep: bool,
    opener: &mut O,
    input: &mut S,
    air: &mut A,
    report: &mut R,
) -> Status
    ensures run { FollowResumeRan path.now keep
        O.files O.tried O.faults O.read_faults opener.old opener.new
        S.left S.faults input.old input.new
        A.written A.faults air.old air.new R.written R.faults report.old report.new result }
{
    let Ok(mut lines) = LineReader::open_to(alloc, &mut *input, LONG_LIMIT) else {
        return out_of_memory(report);
    };
    let status = follow_from(alloc, &mut lines, path, keep, opener, air, report);
    let _source = lines.close();
    status
}
