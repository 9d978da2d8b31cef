// Runs of `play`, from a head-end that did nothing yet or from a checkpoint.
ghost use Rattle.std.specs.Prelude.{◌≡◌, ◌<◌, ◌^◌, [], List, ℕ, None, Some, IfSome, false, true};
ghost use Rattle.si_causes.specs.Causes.{Rose};
ghost use Rattle.si_causes.specs.Opening.{Files};
ghost use Rattle.si_causes.specs.Reading.{fresh_to};
ghost use Rattle.epg_report.specs.Asked.{HasAskedFor};
ghost use Rattle.epg_report.specs.Texts.{CanBeSaid};
ghost use Rattle.epg_report.specs.Told.{asked};
ghost use Rattle.epg_play.specs.Courses.{HasMet, HasPlayedOn, IsCourse, IsMetBehind, IsMetByResume, IsMetByScript, PlayedNew, PlayedResumed};
ghost use Rattle.epg_play.specs.CheckpointRuns.{FoldRan, FoldRanWithin, ResumeRan, ResumeRanWithin};
ghost use Rattle.epg_play.specs.Leaves.{PlayRan, PlayRanWithin, met_by};
ghost use Rattle.epg_play.specs.Script.{limit_for};

use crate::begin::{new_start, start_at};
use crate::desk::ScriptDesk;
use crate::limit::{PlayAs, script_limit};
use crate::play::play_rest;
use crate::played::{Course, Played};
use crate::report::finish;
use crate::stop::{PlayStop, mux_stop_of, status_of};
use desk_checkpoint::Start;
use epg_report::{Origin, Status, out_of_memory};
use mux_config::read_mux;
use si_causes::{LineReader, Opener, Sink, Source};
use std::alloc::Global;

// Nothing was played, for this status.
fn not_played(met: Status) -> Played
    ensures course { result.course ≡ None }
    ensures met { result.met ≡ met }
{
    Played { course: None, met }
}

fn met_of(played: Result<(), PlayStop>) -> Status
    ensures { result ≡ met_by played }
{
    match played {
        Ok(()) => Status::Done,
        Err(stop) => status_of(stop),
    }
}

// Plays the commands that are left, from a start on, and keeps the entries that are made unless they are folded.
fn play_on<S: Source, A: Sink>(
    alloc: Global,
    lines: &mut LineReader<S>,
    start: Start,
    fold: bool,
    air: &mut A,
) -> Played
    requires going { lines.old.stop ≡ None }
    requires ended { start.player.left ≡ [] }
    requires shift { start.shift < 10 ^ 18 }
    ensures played { HasPlayedOn fold S.left lines.old lines.new start
        (A.written air.old) (A.written air.new) result }
    ensures course { IfSome result.course (IsCourse result.met) }
    ensures said { CanBeSaid result.met }
    ensures known { IsMetBehind result.met }
    ensures met { HasMet S.left S.faults S.same lines.old.source lines.new.source
        A.faults air.old air.new result.met }
{
    let Start {
        desk,
        shift,
        player,
    } = start;
    let desk = ScriptDesk::open(alloc, desk.without_journal(), shift, !fold);
    let mut course = Course { desk, player };
    let played = play_rest(alloc, lines, &mut course, air);
    Played {
        course: Some(course),
        met: met_of(played),
    }
}

// Plays the script of an input, from a head-end that did nothing yet.
fn play_new<S: Source, A: Sink>(
    alloc: Global,
    lines: &mut LineReader<S>,
    fold: bool,
    air: &mut A,
) -> Played
    requires unread { lines.old ≡ fresh_to lines.old.limit lines.old.source }
    ensures played { (text : List ℕ) → S.left lines.old.source ≡ Some text
        → PlayedNew fold lines.old.limit text (S.left lines.new.source)
        (A.written air.old) (A.written air.new) result }
    ensures course { IfSome result.course (IsCourse result.met) }
    ensures said { CanBeSaid result.met }
    ensures known { IsMetByScript result.met }
    ensures met { HasMet S.left S.faults S.same lines.old.source lines.new.source
        A.faults air.old air.new result.met }
{
    let mux = match read_mux(alloc, lines) {
        Ok(mux) => mux,
        Err(stop) => return not_played(status_of(mux_stop_of(stop))),
    };
    match new_start(alloc, mux) {
        Ok(start) => play_on(alloc, lines, start, fold, air),
        Err(_) => not_played(Status::Memory),
    }
}

// Plays the script of an input, from the checkpoint in the file of this path.
fn play_from<O: Opener, S: Source, A: Sink>(
    alloc: Global,
    lines: &mut LineReader<S>,
    path: &str,
    fold: bool,
    opener: &mut O,
    air: &mut A,
) -> Played
    requires unread { lines.old ≡ fresh_to lines.old.limit lines.old.source }
    ensures played { (text : List ℕ) → S.left lines.old.source ≡ Some text
        → (files : Files) → O.files opener.old ≡ Some files
        → PlayedResumed fold lines.old.limit path.now files text (S.left lines.new.source)
        (asked O.files O.tried O.faults O.read_faults opener.old opener.new)
        (A.written air.old) (A.written air.new) result }
    ensures course { IfSome result.course (IsCourse result.met) }
    ensures said { CanBeSaid result.met }
    ensures known { IsMetByResume result.met }
    ensures met { HasMet S.left S.faults S.same lines.old.source lines.new.source
        A.faults air.old air.new result.met }
    ensures asked { HasAskedFor path.now (O.tried opener.old) (O.tried opener.new) result.met }
    ensures open_cause { (n : ℕ) → result.met ≡ Status.OpenFault n
        → Rose (O.faults opener.old) (O.faults opener.new) }
    ensures read_cause { result.met ≡ Status.ReadFault Origin.Recording
        → Rose (O.read_faults opener.old) (O.read_faults opener.new) }
{
    let mux = match read_mux(alloc, lines) {
        Ok(mux) => mux,
        Err(stop) => return not_played(status_of(mux_stop_of(stop))),
    };
    match start_at(alloc, mux, path, opener) {
        Ok(start) => play_on(alloc, lines, start, fold, air),
        Err(met) => not_played(met),
    }
}

/// Plays the script of the input as [`run_play`] does, or with `fold` as [`run_folded`]; a long
/// script may have 18,446,744,073,709,551,614 bytes.
pub fn run_play_as<S: Source, A: Sink, R: Sink>(
    alloc: Global,
    how: PlayAs,
    input: &mut S,
    air: &mut A,
    report: &mut R,
) -> Status
    ensures play { how.fold ≡ false → PlayRanWithin (limit_for how.long)
        S.left S.faults input.old input.new
        A.written A.faults air.old air.new R.written R.faults report.old report.new result }
    ensures fold { how.fold ≡ true → FoldRanWithin (limit_for how.long)
        S.left S.faults input.old input.new
        A.written A.faults air.old air.new R.written R.faults report.old report.new result }
{
    let limit = script_limit(how.long);
    let Ok(mut lines) = LineReader::open_to(alloc, &mut *input, limit) else {
        return out_of_memory(report);
    };
    let played = play_new(alloc, &mut lines, how.fold, air);
    let _source = lines.close();
    finish(alloc, &played, how.fold, report)
}

/// Plays the script of the input: reads its lines and does them one after the other, sends one
/// cycle to the air after each swap, and reports the journal of all steps done. After it, where the
/// description has a bit rate, one line says whether the cycles repeat in time what is frequent:
/// `rate,BITS,kept`, or `rate,BITS,short,CYCLES,NEEDED` with how many do not and the least rate
/// that would have done, or `none`. A cycle that was cut off counts too. The last line names the
/// fault, where there is one.
pub fn run_play<S: Source, A: Sink, R: Sink>(
    alloc: Global,
    input: &mut S,
    air: &mut A,
    report: &mut R,
) -> Status
    ensures run { PlayRan S.left S.faults input.old input.new
        A.written A.faults air.old air.new R.written R.faults report.old report.new result }
{
    let how = PlayAs {
        fold: false,
        long: false,
    };
    run_play_as(alloc, how, input, air, report)
}

/// `play --fold`: plays the script of the input as [`run_play`] does, but reports the checkpoint of its journal and of
/// the air that it sent, from which [`run_resumed`] goes on. Where a fault ends the run, the report is only the line of the fault.
pub fn run_folded<S: Source, A: Sink, R: Sink>(
    alloc: Global,
    input: &mut S,
    air: &mut A,
    report: &mut R,
) -> Status
    ensures run { FoldRan S.left S.faults input.old input.new
        A.written A.faults air.old air.new R.written R.faults report.old report.new result }
{
    let folded = PlayAs {
        fold: true,
        long: false,
    };
    run_play_as(alloc, folded, input, air, report)
}

/// Plays the script of the input from the checkpoint in the file of this path as [`run_resumed`]
/// does; a long script may have 18,446,744,073,709,551,614 bytes.
pub fn run_resumed_as<O: Opener, S: Source, A: Sink, R: Sink>(
    alloc: Global,
    path: &str,
    how: PlayAs,
    opener: &mut O,
    input: &mut S,
    air: &mut A,
    report: &mut R,
) -> Status
    ensures run { ResumeRanWithin (limit_for how.long) path.now how.fold
        O.files O.tried O.faults O.read_faults opener.old opener.new
        S.left S.faults input.old input.new
        A.written A.faults air.old air.new R.written R.faults report.old report.new result }
{
    let limit = script_limit(how.long);
    let Ok(mut lines) = LineReader::open_to(alloc, &mut *input, limit) else {
        return out_of_memory(report);
    };
    let played = play_from(alloc, &mut lines, path, how.fold, opener, air);
    let _source = lines.close();
    finish(alloc, &played, how.fold, report)
}

/// `play --resume PATH`: reads the description of the multiplex from the input, then the checkpoint
/// from the file of this path, up to its line `end` and at most 1,073,741,824 bytes, and plays the
/// script after the description as if the head-end had not been stopped. The report is the text of
/// the new entries, whose publications go on with the numbers of the journal that was folded. After
/// it, where the description has a bit rate, one line says whether the new cycles repeat in time what
/// is frequent: `rate,BITS,kept`, or `rate,BITS,short,CYCLES,NEEDED` with how many do not and the
/// least rate that would have done, or `none`. A new cycle that was cut off counts too; the cycles
/// of the checkpoint's air do not. The last line names the fault, where there is one. With `fold` the
/// report is that of [`run_folded`], over both journals and both airs together: it has no line on the
/// rate.
///
/// `OpenFault(0)`, `ReadFault(Recording)`, `TooLong(Recording)` and `BadCheckpoint`, with the first line of the checkpoint that may
/// not stand there, come before any step is done.
pub fn run_resumed<O: Opener, S: Source, A: Sink, R: Sink>(
    alloc: Global,
    path: &str,
    fold: bool,
    opener: &mut O,
    input: &mut S,
    air: &mut A,
    report: &mut R,
) -> Status
    ensures run { ResumeRan path.now fold O.files O.tried O.faults O.read_faults opener.old opener.new
        S.left S.faults input.old input.new
        A.written A.faults air.old air.new R.written R.faults report.old report.new result }
{
    let how = PlayAs { fold, long: false };
    run_resumed_as(alloc, path, how, opener, input, air, report)
}
