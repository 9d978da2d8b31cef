// A run of feeds, control, player and viewers at one desk.
ghost use Rattle.std.specs.Prelude.{◌≡◌, ◌≤◌, IfOk, OnErr, OnOk, length};
ghost use Rattle.std.specs.List.{All};
ghost use Rattle.headend_jobs.specs.Jobs.{streams};
ghost use Rattle.headend_jobs.specs.Live.{and_stop};
ghost use Rattle.headend_jobs.specs.Ran.{BoardRan, HallRan, taken};
ghost use Rattle.headend_jobs.specs.Sends.{IsFresh};
ghost use Rattle.headend_jobs.specs.Views.{ViewReady};

use crate::crew::Crew;
use crate::jobs::run_side_by_side;
use crate::sender::Sender;
use crate::views::ViewJob;
use cycle_player::Tally;
use desk_core::Desk;
use journal_air::SendStop;
use script_lines::EditStop;
use si_causes::{Gate, LineReader, Sink, Source};
use std::alloc::{AllocError, Global};
use std::sync::Wait;
use std::thread::Threads;

/// Why a run stopped before its end.
#[derive(Debug, Clone, Copy, PartialEq, Eq)]
pub enum LiveStop {
    Air,
    Control(EditStop),
    Feed(u8, EditStop),
    Memory,
}

/// The readers of a run: those of the feeds, in the order of their numbers, and that of the control.
#[derive(Drop)]
pub struct Inputs<F: Source, S: Source> {
    pub feeds: Vec<LineReader<F>>,
    pub control: LineReader<S>,
}

/// The end of a run: its desk, whether all was sent, the tally of its cycles, why each job that
/// reads stopped, the stop of the run, the readers, and the jobs of the viewers.
#[derive(Drop)]
pub struct Ended<F: Source, S: Source> {
    pub desk: Desk,
    pub sent: Result<(), SendStop>,
    pub tally: Tally,
    pub control: Option<EditStop>,
    pub feed: Option<LiveStop>,
    pub stop: Option<LiveStop>,
    pub inputs: Inputs<F, S>,
    pub views: Vec<ViewJob>,
}

/// One of two stops: want of memory in either, or else the first.
pub fn and_stop(first: Option<LiveStop>, second: Option<LiveStop>) -> Option<LiveStop>
    ensures { result ≡ and_stop first second }
{
    match (first, second) {
        (None, second) => second,
        (Some(_), Some(LiveStop::Memory)) => Some(LiveStop::Memory),
        (first, _) => first,
    }
}

/// Runs feeds, control, player and viewers side by side over a fresh desk: the control is caller 0,
/// the player caller 1, and feed f caller f + 1. At a bit rate the player makes the tick that its
/// clock tells before each swap. Before each cycle the publication that it sends is posted on the
/// board; where all was sent, its posts are those of the journal.
///
/// It takes at most 16 feeds and 1,000 cycles. `AllocError` is want of memory before any job has
/// started, and leaves the sender as it was.
pub fn run_hall<
    W: Threads + Wait + Sync,
    F: Source + Send,
    S: Source + Send,
    A: Sink + Send,
    G: Gate,
>(
    rt: &W,
    alloc: Global,
    sender: &mut Sender<A>,
    cycles: u64,
    inputs: Inputs<F, S>,
    views: Vec<ViewJob>,
    gate: &G,
) -> Result<Ended<F, S>, AllocError>
    requires fresh { IsFresh sender.old }
    requires few { length inputs.feeds.items ≤ 16 }
    requires cycles { cycles ≤ 1000 }
    requires views { All ViewReady views.items }
    ensures ran { IfOk result (HallRan (streams F.left F.faults F.same S.left S.faults S.same) sender.old.mux cycles
        inputs.feeds.items inputs.control (taken A.written A.faults sender.old.air sender.new.air)) }
    ensures board { IfOk result (BoardRan sender.old.mux views.items sender.old.board sender.new.board) }
    ensures same { OnOk result (A.same sender.old.air sender.new.air) }
    ensures memory { OnErr result (sender.new ≡ sender.old) }
{
    let mux = sender.mux.copy()?;
    let mut crew = Crew::open(alloc, mux, cycles, inputs, views)?;
    run_side_by_side(
        rt,
        alloc,
        &crew.hall,
        &mut crew.player,
        sender,
        &mut crew.others,
        gate,
    );
    Ok(crew.end(rt, alloc, sender, gate))
}
