// The jobs of a run, side by side.
ghost use Rattle.std.specs.Prelude.{◌≡◌, ◌<◌, ◌^◌};
ghost use Rattle.std.specs.Thread.{IsSync, IsSend};
ghost use Rattle.std.specs.List.{All};
ghost use Rattle.desk_hall.specs.Reads.{stream};
ghost use Rattle.headend_jobs.specs.Jobs.{AllOf, ControlDid, FeedDid, FeedsDid, OthersDid, OthersReady, PlayerDid, PlayerReady, streams};
ghost use Rattle.headend_jobs.specs.Views.{ViewReady, ViewsDid};

use crate::sender::{Sender, Swaps};
use crate::views::{ViewJob, run_views};
use desk_hall::{Hall, HallPass};
use journal_air::SendStop;
use script_lines::EditStop;
use si_causes::{Gate, LineReader, Sink, Source};
use std::alloc::Global;
use std::sync::Wait;
use std::thread::{Threads, for_each_mut, join_mut};

/// A feed: its pass, its number, its reader, and why it stopped.
#[derive(Drop)]
pub struct FeedJob<F: Source> {
    pub pass: HallPass,
    pub feed: u8,
    pub lines: LineReader<F>,
    pub stop: Option<EditStop>,
}

/// The control: its pass, its reader, and why it stopped.
#[derive(Drop)]
pub struct ControlJob<S: Source> {
    pub pass: HallPass,
    pub lines: LineReader<S>,
    pub stop: Option<EditStop>,
}

/// The player: its pass, how many swaps it makes, and how it ended.
#[derive(Drop)]
pub struct PlayerJob {
    pub pass: HallPass,
    pub cycles: u64,
    pub end: Result<(), SendStop>,
}

/// The jobs that send nothing: the control, the feeds and the viewers.
#[derive(Drop)]
pub struct Others<F: Source, S: Source> {
    pub control: ControlJob<S>,
    pub feeds: Vec<FeedJob<F>>,
    pub views: Vec<ViewJob>,
}

fn run_feed<W: Wait, F: Source, G: Gate>(
    rt: &W,
    alloc: Global,
    hall: &Hall,
    job: &mut FeedJob<F>,
    gate: &G,
)
    requires { job.old.pass.turns ≡ hall.now.turns }
    ensures { FeedDid (stream F.left F.faults F.same) job.old job.new }
{
    job.stop = hall.feed(rt, alloc, &mut job.pass, job.feed, &mut job.lines, gate);
}

// All feeds side by side.
fn run_feeds<W: Threads + Wait + Sync, F: Source + Send, G: Gate>(
    rt: &W,
    alloc: Global,
    hall: &Hall,
    jobs: &mut [FeedJob<F>],
    gate: &G,
)
    requires { AllOf hall.now.turns jobs.old }
    ensures { FeedsDid (stream F.left F.faults F.same) jobs.old jobs.new }
{
    let run = |_i: usize, job: &mut FeedJob<F>|
        requires { job.now.pass.turns ≡ hall.now.turns }
        ensures { FeedDid (stream F.left F.faults F.same) job.entry.now job.exit.now }
    { run_feed(rt, alloc, hall, job, gate) };
    let count = jobs.len();
    if count > 0 {
        for_each_mut(rt, jobs, count, &run);
    }
}

fn run_control<W: Wait, S: Source>(rt: &W, alloc: Global, hall: &Hall, job: &mut ControlJob<S>)
    requires { job.old.pass.turns ≡ hall.now.turns }
    ensures { ControlDid (stream S.left S.faults S.same) job.old job.new }
{
    job.stop = hall.control(rt, alloc, &mut job.pass, &mut job.lines);
}

fn run_player<W: Wait, A: Sink, G: Gate>(
    rt: &W,
    alloc: Global,
    hall: &Hall,
    job: &mut PlayerJob,
    sender: &mut Sender<A>,
    gate: &G,
)
    requires { PlayerReady hall.now.turns job.old sender.old }
    ensures { PlayerDid A.written A.faults A.same job.old job.new sender.old sender.new }
{
    let swaps = Swaps {
        count: job.cycles,
        ticking: true,
    };
    job.end = sender.play(rt, alloc, hall, &mut job.pass, swaps, gate);
}

// The control and the feeds side by side.
fn run_readers<W: Threads + Wait + Sync, F: Source + Send, S: Source + Send, G: Gate>(
    rt: &W,
    alloc: Global,
    hall: &Hall,
    control: &mut ControlJob<S>,
    feeds: &mut [FeedJob<F>],
    gate: &G,
)
    requires feeds { AllOf hall.now.turns feeds.old }
    requires control { control.old.pass.turns ≡ hall.now.turns }
    ensures feeds { FeedsDid (stream F.left F.faults F.same) feeds.old feeds.new }
    ensures control { ControlDid (stream S.left S.faults S.same) control.old control.new }
{
    join_mut(
        rt,
        &mut ||
            requires { control.now.pass.turns ≡ hall.now.turns }
            ensures { ControlDid (stream S.left S.faults S.same) control.entry.now control.exit.now }
        { run_control(rt, alloc, hall, control) },
        &mut ||
            requires { IsSend F.row × IsSync W.row × IsSync G.row × AllOf hall.now.turns feeds.now }
            ensures { FeedsDid (stream F.left F.faults F.same) feeds.entry.now feeds.exit.now }
        { run_feeds(rt, alloc, hall, feeds, gate) },
    );
}

// The control and the feeds, and the viewers.
fn run_each<W: Threads + Wait + Sync, F: Source + Send, S: Source + Send, G: Gate>(
    rt: &W,
    alloc: Global,
    hall: &Hall,
    control: &mut ControlJob<S>,
    feeds: &mut [FeedJob<F>],
    views: &mut [ViewJob],
    gate: &G,
)
    requires feeds { AllOf hall.now.turns feeds.old }
    requires control { control.old.pass.turns ≡ hall.now.turns }
    requires views { All ViewReady views.old }
    ensures feeds { FeedsDid (stream F.left F.faults F.same) feeds.old feeds.new }
    ensures control { ControlDid (stream S.left S.faults S.same) control.old control.new }
    ensures views { ViewsDid views.old views.new }
{
    join_mut(
        rt,
        &mut ||
            requires { IsSend F.row × IsSend S.row × IsSync W.row × IsSync G.row
                × AllOf hall.now.turns feeds.now × (control.now.pass.turns ≡ hall.now.turns) }
            ensures feeds { FeedsDid (stream F.left F.faults F.same) feeds.entry.now feeds.exit.now }
            ensures control { ControlDid (stream S.left S.faults S.same) control.entry.now control.exit.now }
        { run_readers(rt, alloc, hall, control, feeds, gate) },
        &mut ||
            requires { All ViewReady views.now }
            ensures { ViewsDid views.entry.now views.exit.now }
        { run_views(rt, views) },
    );
}

// The player, and each of the others, side by side.
fn run_both<W: Threads + Wait + Sync, F: Source + Send, S: Source + Send, A: Sink + Send, G: Gate>(
    rt: &W,
    alloc: Global,
    hall: &Hall,
    player: &mut PlayerJob,
    sender: &mut Sender<A>,
    control: &mut ControlJob<S>,
    feeds: &mut [FeedJob<F>],
    views: &mut [ViewJob],
    gate: &G,
)
    requires player { PlayerReady hall.now.turns player.old sender.old }
    requires feeds { AllOf hall.now.turns feeds.old }
    requires control { control.old.pass.turns ≡ hall.now.turns }
    requires views { All ViewReady views.old }
    ensures player { PlayerDid A.written A.faults A.same player.old player.new sender.old sender.new }
    ensures feeds { FeedsDid (stream F.left F.faults F.same) feeds.old feeds.new }
    ensures control { ControlDid (stream S.left S.faults S.same) control.old control.new }
    ensures views { ViewsDid views.old views.new }
{
    join_mut(
        rt,
        &mut ||
            requires { IsSend F.row × IsSend S.row × IsSync W.row × IsSync G.row
                × AllOf hall.now.turns feeds.now × (control.now.pass.turns ≡ hall.now.turns)
                × All ViewReady views.now }
            ensures feeds { FeedsDid (stream F.left F.faults F.same) feeds.entry.now feeds.exit.now }
            ensures control { ControlDid (stream S.left S.faults S.same) control.entry.now control.exit.now }
            ensures views { ViewsDid views.entry.now views.exit.now }
        { run_each(rt, alloc, hall, control, feeds, views, gate) },
        &mut ||
            requires { PlayerReady hall.now.turns player.now sender.now }
            ensures { PlayerDid A.written A.faults A.same player.entry.now player.exit.now sender.entry.now sender.exit.now }
        { run_player(rt, alloc, hall, player, sender, gate) },
    );
}

/// The player, and the others, side by side.
pub(crate) fn run_side_by_side<
    W: Threads + Wait + Sync,
    F: Source + Send,
    S: Source + Send,
    A: Sink + Send,
    G: Gate,
>(
    rt: &W,
    alloc: Global,
    hall: &Hall,
    player: &mut PlayerJob,
    sender: &mut Sender<A>,
    others: &mut Others<F, S>,
    gate: &G,
)
    requires player { PlayerReady hall.now.turns player.old sender.old }
    requires others { OthersReady hall.now.turns others.old }
    ensures player { PlayerDid A.written A.faults A.same player.old player.new sender.old sender.new }
    ensures others { OthersDid (streams F.left F.faults F.same S.left S.faults S.same) others.old others.new }
{
    run_both(
        rt,
        alloc,
        hall,
        player,
        sender,
        &mut others.control,
        others.feeds.as_mut_slice(),
        others.views.as_mut_slice(),
        gate,
    );
}
