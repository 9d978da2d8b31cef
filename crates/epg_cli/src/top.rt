// The top call.
ghost use Rattle.std.specs.Prelude.{◌≡◌, ◌↔◌, ◌⊎◌, Bool, false, true, List, ℕ, None, Some, codes};
ghost use Rattle.std.specs.Io.KnownBytes.{IsAtEnd};
ghost use Rattle.si_causes.specs.Causes.{Rose};
ghost use Rattle.epg_report.specs.Texts.{fault_line};
ghost use Rattle.epg_report.specs.Told.{Reported, asked, gave, told};
ghost use Rattle.command_words.specs.Commands.{said_play};
ghost use Rattle.command_words.specs.Grammar.{ListenOptions, PlayOptions, Play, followed, played, played_long};
ghost use Rattle.epg_play.specs.Leaves.{PlayRan, PlayRanWithin};
ghost use Rattle.epg_play.specs.Script.{long_limit};
ghost use Rattle.epg_play.specs.CheckpointRuns.{FoldRan, FoldRanWithin, ResumeRan, ResumeRanWithin};
ghost use Rattle.epg_follow.specs.Runs.{FollowRan, FollowResumeRan};
ghost use Rattle.epg_listen.specs.Leaves.{ListenRan};
ghost use Rattle.epg_live.specs.LiveRun.{LiveRan};
ghost use Rattle.epg_live.specs.Stops.{HasStatusCause};
ghost use Rattle.epg_soak.specs.SoakRun.{SoakRan};
ghost use Rattle.epg_audit.specs.Leaves.{AuditRan};
ghost use Rattle.headend_live.specs.declared.live.LivePlan.{LivePlan};
ghost use Rattle.epg_cli.specs.Plays.{PlayEnds};
ghost use Rattle.epg_cli.specs.Spelled.{IsUsage, IsPlay, IsFold, IsResume, IsLongPlay, IsLongFold, IsLongResume, IsFollow, IsFollowResume, SpellsFreshPlay, IsListen, SpellsListen, IsLive, IsSoak, IsAudit, SpellsAudit, SpellsSoak};

use command_words::{Command, PlayWords, WordsStop, parse_words};
use epg_audit::run_audit;
use epg_follow::{run_follow_resumed, run_followed};
use epg_listen::run_listen_as;
use epg_live::run_live_files;
use epg_play::{PlayAs, run_play_as, run_resumed_as};
use epg_report::{Outlet, Status, out_of_memory};
use epg_soak::run_soak;
use si_causes::{Gate, Opener, Sink, Source, write_all};
use std::alloc::Global;
use std::marker::{Send, Sync};
use std::sync::Wait;
use std::thread::Threads;

// `play` with its options.
fn run_play_words<O: Opener, S: Source, A: Sink, R: Sink>(
    alloc: Global,
    play: &PlayWords,
    opener: &mut O,
    input: &mut S,
    air: &mut A,
    report: &mut R,
) -> Status
    ensures plain { said_play play.now ≡ Play (played false) None
        → PlayRan S.left S.faults input.old input.new
        A.written A.faults air.old air.new R.written R.faults report.old report.new result }
    ensures fold { said_play play.now ≡ Play (played true) None
        → FoldRan S.left S.faults input.old input.new
        A.written A.faults air.old air.new R.written R.faults report.old report.new result }
    ensures resume { (path : List ℕ) (fold : Bool)
        → said_play play.now ≡ Play (played fold) (Some path)
        → ResumeRan path fold O.files O.tried O.faults O.read_faults opener.old opener.new
        S.left S.faults input.old input.new
        A.written A.faults air.old air.new R.written R.faults report.old report.new result }
    ensures plain_long { said_play play.now ≡ Play (played_long false) None
        → PlayRanWithin long_limit S.left S.faults input.old input.new
        A.written A.faults air.old air.new R.written R.faults report.old report.new result }
    ensures fold_long { said_play play.now ≡ Play (played_long true) None
        → FoldRanWithin long_limit S.left S.faults input.old input.new
        A.written A.faults air.old air.new R.written R.faults report.old report.new result }
    ensures resume_long { (path : List ℕ) (fold : Bool)
        → said_play play.now ≡ Play (played_long fold) (Some path)
        → ResumeRanWithin long_limit path fold
        O.files O.tried O.faults O.read_faults opener.old opener.new
        S.left S.faults input.old input.new
        A.written A.faults air.old air.new R.written R.faults report.old report.new result }
    ensures follow { (keep : Bool) → said_play play.now ≡ Play (followed keep) None
        → FollowRan keep S.left S.faults input.old input.new
        A.written A.faults air.old air.new R.written R.faults report.old report.new result }
    ensures follow_resume { (path : List ℕ) (keep : Bool)
        → said_play play.now ≡ Play (followed keep) (Some path)
        → FollowResumeRan path keep O.files O.tried O.faults O.read_faults opener.old opener.new
        S.left S.faults input.old input.new
        A.written A.faults air.old air.new R.written R.faults report.old report.new result }
    ensures opener_kept { (options : PlayOptions) → said_play play.now ≡ Play options None
        → opener.new ≡ opener.old }
    ensures ends { PlayEnds
        (asked O.files O.tried O.faults O.read_faults opener.old opener.new)
        (gave S.left S.faults input.old input.new) (told A.written A.faults air.old air.new)
        (told R.written R.faults report.old report.new) result }
{
    let keep = play.keep_going;
    let how = PlayAs {
        fold: play.fold,
        long: play.long,
    };
    match &play.resume {
        Some(path) if play.follow => {
            run_follow_resumed(alloc, path.as_str(), keep, opener, input, air, report)
        }
        Some(path) => run_resumed_as(alloc, path.as_str(), how, opener, input, air, report),
        None if play.follow => run_followed(alloc, keep, input, air, report),
        None => run_play_as(alloc, how, input, air, report),
    }
}

/// Does all that the program does: it takes the words of the command line without the program's name, what opens files, the input,
/// the air, the report, and the gate that the jobs of `live` and `soak` pass. Which command the words spell is told by `command_of` of
/// `command_words`.
pub fn run<W: Threads + Wait + Sync, O: Opener, S: Source + Send, A: Sink + Send, R: Sink, G: Gate>(
    rt: &W,
    alloc: Global,
    words: &[String],
    opener: &mut O,
    input: &mut S,
    air: &mut A,
    report: &mut R,
    gate: &G,
) -> Status
    // Usage comes exactly where the words spell no command; then nothing is read, opened or sent.
    ensures usage { result ≡ Status.Usage ↔ IsUsage words.now }
    ensures usage_leaves { result ≡ Status.Usage → (air.new ≡ air.old) × (input.new ≡ input.old)
        × (opener.new ≡ opener.old)
        × Reported (told R.written R.faults report.old report.new) (fault_line (codes "usage")) }
    // A run of each command.
    ensures play { IsPlay words.now → PlayRan S.left S.faults input.old input.new
        A.written A.faults air.old air.new R.written R.faults report.old report.new result }
    ensures fold { IsFold words.now → FoldRan S.left S.faults input.old input.new
        A.written A.faults air.old air.new R.written R.faults report.old report.new result }
    ensures resume { (path : List ℕ) (fold : Bool) → IsResume words.now path fold
        → ResumeRan path fold O.files O.tried O.faults O.read_faults opener.old opener.new
        S.left S.faults input.old input.new
        A.written A.faults air.old air.new R.written R.faults report.old report.new result }
    // The same with `--long`, within the limit of a long script.
    ensures play_long { IsLongPlay words.now → PlayRanWithin long_limit
        S.left S.faults input.old input.new
        A.written A.faults air.old air.new R.written R.faults report.old report.new result }
    ensures fold_long { IsLongFold words.now → FoldRanWithin long_limit
        S.left S.faults input.old input.new
        A.written A.faults air.old air.new R.written R.faults report.old report.new result }
    ensures resume_long { (path : List ℕ) (fold : Bool) → IsLongResume words.now path fold
        → ResumeRanWithin long_limit path fold
        O.files O.tried O.faults O.read_faults opener.old opener.new
        S.left S.faults input.old input.new
        A.written A.faults air.old air.new R.written R.faults report.old report.new result }
    ensures follow { (keep : Bool) → IsFollow words.now keep
        → FollowRan keep S.left S.faults input.old input.new
        A.written A.faults air.old air.new R.written R.faults report.old report.new result }
    ensures follow_resume { (path : List ℕ) (keep : Bool) → IsFollowResume words.now path keep
        → FollowResumeRan path keep O.files O.tried O.faults O.read_faults opener.old opener.new
        S.left S.faults input.old input.new
        A.written A.faults air.old air.new R.written R.faults report.old report.new result }
    ensures listen { (how : ListenOptions) → IsListen words.now how
        → ListenRan how S.left S.faults input.old input.new
        R.written R.faults report.old report.new result }
    ensures live { (paths : List (List ℕ)) (plan : LivePlan)
        → IsLive words.now paths plan → LiveRan paths plan
        O.files O.tried O.faults O.read_faults opener.old opener.new
        S.left S.faults input.old input.new
        A.written A.faults air.old air.new R.written R.faults report.old report.new result }
    ensures soak { (number : ℕ) → IsSoak words.now number → SoakRan number
        A.written A.faults air.old air.new R.written R.faults report.old report.new result }
    ensures audit { (path : List ℕ) (nulls : Bool) → IsAudit words.now path nulls
        → AuditRan path nulls O.files O.tried O.faults O.read_faults opener.old opener.new
        S.left S.faults input.old input.new R.written R.faults report.old report.new result }
    // With `listen` and `audit` nothing is sent, only `live`, `audit` and `play --resume` open files, and `soak` makes
    // its input itself.
    ensures air_kept { SpellsListen words.now ⊎ SpellsAudit words.now → air.new ≡ air.old }
    ensures opener_kept { SpellsFreshPlay words.now
        ⊎ (SpellsListen words.now ⊎ SpellsSoak words.now) → opener.new ≡ opener.old }
    ensures input_kept { SpellsSoak words.now → input.new ≡ input.old }
    // With Done the input was read to its end, but with `soak`; each fault has its cause.
    ensures end { result ≡ Status.Done → SpellsSoak words.now ⊎ IsAtEnd (S.left input.new) }
    ensures cause { HasStatusCause (S.faults input.old) (S.faults input.new)
        (O.read_faults opener.old) (O.read_faults opener.new)
        (A.faults air.old) (A.faults air.new) result }
    ensures open_cause { (feed : ℕ) → result ≡ Status.OpenFault feed
        → Rose (O.faults opener.old) (O.faults opener.new) }
    ensures report { result ≡ Status.WriteFault Outlet.Report
        → Rose (R.faults report.old) (R.faults report.new) }
{
    match parse_words(alloc, words) {
        Ok(Command::Play(play)) => run_play_words(alloc, &play, opener, input, air, report),
        Ok(Command::Listen(listen)) => run_listen_as(alloc, listen, input, report),
        Ok(Command::Live(live)) => { run_live_files(rt, &live, opener, input, air, report, gate) }
        Ok(Command::Soak(number)) => run_soak(rt, alloc, number, air, report, gate),
        Ok(Command::Audit(audit)) => {
            run_audit(
                alloc,
                audit.path.as_str(),
                audit.nulls,
                opener,
                input,
                report,
            )
        }
        Err(WordsStop::Memory) => out_of_memory(report),
        Err(WordsStop::Usage) => {
            let _ = write_all(report, b"fault: usage\n");
            Status::Usage
        }
    }
}
