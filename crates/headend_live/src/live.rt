// A run of feeds, control, player and viewers, whose air is heard.
ghost use Rattle.std.specs.Prelude.{◌≡◌, ◌≤◌, ◌+◌, ℕ, None, OnErr, IfOk, [], false, length};
ghost use Rattle.std.specs.List.{AllByRecursion};
ghost use Rattle.mux_model.specs.Sound.{IsSound};
ghost use Rattle.headend_jobs.specs.Jobs.{streams};
ghost use Rattle.headend_jobs.specs.Ran.{taken};
ghost use Rattle.headend_live.specs.SentLive.{SentLive};
ghost use Rattle.headend_live.specs.Viewing.{AreViewed, IsAsked, IsServiceOf, asked_for};
ghost use Rattle.headend_live.specs.Watched.{IsNotTold, IsOpened, IsTold, WatchedRan, wanting_stop, watched_stop};

use crate::views::{Numbers, ViewLines, Views, gather, open_views};
use air_monitor::{DoneLines, Monitor, MonitorLog};
use cycle_player::{CyclePlayer, Tally};
use desk_core::Desk;
use guide_board::{BoardWriter, Viewers};
use guide_receiver::Heard;
use headend_jobs::{Inputs, LiveStop, Sender, ViewJob, and_stop, open_player, run_hall};
use mux_model::Mux;
use si_causes::{Gate, LineReader, Sink, Source};
use std::alloc::{AllocError, Global};
use std::sync::Wait;
use std::thread::Threads;

/// How many cycles the player sends, from which packet on, counted from 0, the air is heard, and for which services viewers ask.
#[derive(Drop)]
pub struct LivePlan {
    pub cycles: u64,
    pub join: u64,
    pub views: Numbers,
}

/// The readers of the feeds, in the order of their numbers.
pub type Readers<F> = Vec<LineReader<F>>;

/// What a run leaves: the desk with its journal, the tally of its cycles, the completions that were
/// heard, the guide that was heard where nothing stopped it, the lines of the views and the viewer
/// of each, why it stopped, and the readers as its jobs left them.
#[derive(Drop)]
pub struct LiveEnd<F: Source, S: Source> {
    pub desk: Desk,
    pub tally: Tally,
    pub dones: DoneLines,
    pub heard: Option<Heard>,
    pub views: ViewLines,
    pub viewers: Viewers,
    pub stop: Option<LiveStop>,
    pub feeds: Readers<F>,
    pub control: LineReader<S>,
}

// The stop of a run, where want of memory for what was heard is one too.
fn watched_stop(wanting: bool, stop: Option<LiveStop>) -> Option<LiveStop>
    ensures { result ≡ watched_stop wanting stop }
{
    and_stop(wanting_stop(wanting), stop)
}

fn wanting_stop(wanting: bool) -> Option<LiveStop>
    ensures { result ≡ wanting_stop wanting }
{
    match wanting {
        true => Some(LiveStop::Memory),
        false => None,
    }
}

// What is told of a run that is over: the guide that was heard and what the views leave, where
// nothing stopped it, or else why it stopped.
#[derive(Drop)]
struct Observed {
    guide: Option<Heard>,
    views: Views,
    stop: Option<LiveStop>,
}

impl Observed {
    // Nothing, for this stop.
    fn stopped(alloc: Global, stop: LiveStop) -> Observed
        ensures { IsNotTold stop result }
    {
        Observed {
            guide: None,
            views: Views::none(alloc),
            stop: Some(stop),
        }
    }
}

// The guide that was heard, and what the views leave.
fn observe_all(
    log: &MonitorLog,
    board: &mut BoardWriter,
    jobs: Vec<ViewJob>,
    room: Views,
) -> Result<Observed, AllocError>
    requires asked { (cycles : ℕ) × AllByRecursion (IsAsked board.old cycles) jobs.items }
    requires none { (room.lines ≡ []) × (room.viewers ≡ []) }
    ensures told { log.now.wanting ≡ false → IfOk result (λ told. IsTold log.now None told) }
    ensures viewed { (cycles : ℕ) → AllByRecursion (IsAsked board.old cycles) jobs.items
        → IfOk result (λ told. AreViewed board.old.posts (cycles + 1) (asked_for jobs.items)
        told.views.viewers told.views.lines) }
{
    let views = gather(board, jobs, room)?;
    let guide = log.guide()?;
    Ok(Observed {
        guide: Some(guide),
        views,
        stop: None,
    })
}

// What is told of a run that met this stop, where want of memory for what was heard, for the views
// and for the guide is a stop too.
fn observe(
    alloc: Global,
    stop: Option<LiveStop>,
    log: &MonitorLog,
    board: &mut BoardWriter,
    jobs: Vec<ViewJob>,
    room: Views,
) -> Observed
    requires asked { (cycles : ℕ) × AllByRecursion (IsAsked board.old cycles) jobs.items }
    requires none { (room.lines ≡ []) × (room.viewers ≡ []) }
    ensures told { IsTold log.now stop result }
    ensures viewed { (cycles : ℕ) → AllByRecursion (IsAsked board.old cycles) jobs.items → result.stop ≡ None
        → AreViewed board.old.posts (cycles + 1) (asked_for jobs.items) result.views.viewers result.views.lines }
{
    match watched_stop(log.wanting, stop) {
        Some(stop) => return Observed::stopped(alloc, stop),
        None => {}
    }
    match observe_all(log, board, jobs, room) {
        Ok(told) => told,
        Err(_) => Observed::stopped(alloc, LiveStop::Memory),
    }
}

// What a run begins with, after all that can fail for want of memory: its multiplex and its plan,
// what sends but the air, the jobs of the views, and the room for their lines.
struct Opened {
    mux: Mux,
    plan: LivePlan,
    player: CyclePlayer,
    board: BoardWriter,
    jobs: Vec<ViewJob>,
    room: Views,
}

// Opens all but the air.
fn open_live<W: Wait>(rt: &W, alloc: Global, mux: Mux, plan: LivePlan) -> Result<Opened, AllocError>
    requires sound { IsSound mux }
    requires cycles { plan.cycles ≤ 1000 }
    requires views { (length plan.views ≤ 8) × AllByRecursion (IsServiceOf mux) plan.views }
    ensures { IfOk result (IsOpened mux plan) }
{
    let room = Views::room(alloc, plan.views.len(), plan.cycles)?;
    let player = open_player(alloc, &mux)?;
    let (board, jobs) = open_views(rt, alloc, &mux, plan.views.as_slice(), plan.cycles)?;
    Ok(Opened {
        mux,
        plan,
        player,
        board,
        jobs,
        room,
    })
}

// Runs through a monitor of the air: the end of the run, or that it did not begin, and the air.
fn run_opened<
    W: Threads + Wait + Sync,
    F: Source + Send,
    S: Source + Send,
    A: Sink + Send,
    G: Gate,
>(
    rt: &W,
    alloc: Global,
    opened: Opened,
    inputs: Inputs<F, S>,
    air: A,
    gate: &G,
) -> (Result<LiveEnd<F, S>, AllocError>, A)
    requires opened { IsOpened opened.mux opened.plan opened }
    requires few { length inputs.feeds.items ≤ 16 }
    ensures ran { IfOk result.0 (WatchedRan (streams F.left F.faults F.same S.left S.faults S.same)
        opened.mux opened.plan inputs.feeds.items inputs.control (taken A.written A.faults air result.1)) }
    ensures same { A.same air result.1 }
    ensures memory { OnErr result.0 (result.1 ≡ air) }
{
    let Opened {
        mux,
        plan,
        player,
        board,
        jobs,
        room,
    } = opened;
    let air = Monitor::open(alloc, air, plan.join);
    let mut sender = Sender {
        mux,
        player,
        board,
        air,
    };
    match run_hall(rt, alloc, &mut sender, plan.cycles, inputs, jobs, gate) {
        Ok(end) => {
            let log = sender.air.take_log();
            let told = observe(alloc, end.stop, &log, &mut sender.board, end.views, room);
            let monitor = sender.close(rt);
            let air = monitor.close();
            let end = LiveEnd {
                desk: end.desk,
                tally: end.tally,
                dones: log.dones,
                heard: told.guide,
                views: told.views.lines,
                viewers: told.views.viewers,
                stop: told.stop,
                feeds: end.inputs.feeds,
                control: end.inputs.control,
            };
            (Ok(end), air)
        }
        Err(error) => {
            let monitor = sender.close(rt);
            let air = monitor.close();
            (Err(error), air)
        }
    }
}

/// Runs feeds, control, player and viewers side by side over a fresh desk, in threads where they
/// can be had: the control is caller 0, the player caller 1, and feed f caller f + 1. The player
/// makes its swaps, each followed by its whole cycle. At a bit rate it makes before each swap the
/// tick that its clock tells; there is none while the clock stands at 0. The others do the lines
/// that their readers still have. A job that meets a fault ends, and the others go on. Where none
/// met one, caller 0 then makes such a tick, publishes, swaps, and swaps again, with a cycle after
/// each swap. The packets of the air are heard from packet `plan.join` on; where nothing stopped
/// the run, the guide of these packets is told.
///
/// Each publication is posted on a board before its cycle, the multiplex's own before any. For each of `plan.views` a viewer asks the
/// board for the present and the following event of its service, as often as there are cycles. Where nothing stopped the run, it then
/// learns what was posted and asks once more.
///
/// `AllocError` is want of memory before any job has started, and leaves the air as it was.
pub fn run_live<
    W: Threads + Wait + Sync,
    F: Source + Send,
    S: Source + Send,
    A: Sink + Send,
    G: Gate,
>(
    rt: &W,
    alloc: Global,
    mux: Mux,
    plan: LivePlan,
    feeds: Readers<F>,
    control: LineReader<S>,
    air: &mut A,
    gate: &G,
) -> Result<LiveEnd<F, S>, AllocError>
    requires sound { IsSound mux }
    requires few { length feeds.items ≤ 16 }
    requires cycles { plan.cycles ≤ 1000 }
    requires views { (length plan.views ≤ 8) × AllByRecursion (IsServiceOf mux) plan.views }
    ensures ran { IfOk result (WatchedRan (streams F.left F.faults F.same S.left S.faults S.same)
        mux plan feeds.items control (taken A.written A.faults air.old air.new)) }
    ensures sent { IfOk result (λ end.
        SentLive mux end.desk.entries end.stop (A.written air.old) (A.written air.new)) }
    ensures memory { OnErr result (air.new ≡ air.old) }
{
    let opened = open_live(rt, alloc, mux, plan)?;
    let inputs = Inputs { feeds, control };
    let (end, _air) = run_opened(rt, alloc, opened, inputs, &mut *air, gate);
    end
}
