// The callers of a run: made by one call, and closed by one.
ghost use Rattle.std.specs.Prelude.{◌≡◌, ◌+◌, ◌≤◌, ◌<◌, ◌∷◌, ◌++◌, [], None, Option, IfOk, length, vec_len, vec_capacity};
ghost use Rattle.mux_model.specs.declared.mux.Mux.{Mux as AMux};
ghost use Rattle.turn_lock.specs.Knowledge.{first_pass};
ghost use Rattle.mux_model.specs.Sound.{IsSound};
ghost use Rattle.headend_jobs.specs.Crews.{AreBack, CanEnd, EndedBy, IsCrew, Joined};
ghost use Rattle.headend_jobs.specs.Jobs.{callers_of, lines_of, new_feeds, stops_of};
ghost use Rattle.headend_jobs.specs.Live.{and_sent};
ghost use Rattle.headend_jobs.specs.Stops.{control_stop, feed_stop, feeds_stop, halts, run_stop, sent_stop};

use crate::jobs::{ControlJob, FeedJob, Others, PlayerJob};
use crate::live::{Ended, Inputs, LiveStop, and_stop};
use crate::sender::Sender;
use crate::views::ViewJob;
use desk_hall::{Hall, HallPass, HallState};
use journal_air::SendStop;
use mux_model::Mux;
use script_lines::EditStop;
use si_causes::{Gate, LineReader, Sink, Source};
use std::alloc::{AllocError, Global};
use std::sync::Wait;
use turn_lock::Turns;

/// The callers of a run over the hall that they share, each with its pass, and room for the readers
/// of the feeds.
#[derive(Drop)]
pub(crate) struct Crew<F: Source, S: Source> {
    pub hall: Hall,
    pub player: PlayerJob,
    pub others: Others<F, S>,
    pub back: Vec<LineReader<F>>,
}

/// A job for each reader, in their order, each with a pass of one number.
fn cut_all<F: Source>(
    alloc: Global,
    turns: &Turns<HallState>,
    pass: &mut HallPass,
    mut feeds: Vec<LineReader<F>>,
) -> Result<Vec<FeedJob<F>>, AllocError>
    requires turns { pass.old.turns ≡ turns.now.turns }
    requires span { pass.old.own.span ≡ length feeds.items + 2 }
    requires few { length feeds.items ≤ 16 }
    ensures { (mux : AMux) → pass.old ≡ first_pass turns.now.turns (length feeds.items + 2) mux
        → IfOk result (λ jobs. (pass.new ≡ first_pass turns.now.turns 2 mux)
        × (jobs.items ≡ new_feeds turns.now.turns mux 1 feeds.items)) }
{
    let mut jobs = Vec::new(alloc);
    while let Some(lines) = feeds.pop() {
        let own = pass.split(turns, 1);
        let feed = feeds.len() as u8 + 1;
        let job = FeedJob {
            pass: own,
            feed,
            lines,
            stop: None,
        };
        jobs.insert(0, job)?;
    }
    Ok(jobs)
}

// Puts a reader into a list that has room for it.
fn put_back<F: Source>(back: &mut Vec<LineReader<F>>, lines: LineReader<F>)
    requires { vec_len back.old < vec_capacity back.old }
    ensures items { back.new.items ≡ back.old.items ++ lines ∷ [] }
    ensures len { vec_len back.new ≡ vec_len back.old + 1 }
    ensures capacity { vec_capacity back.old ≤ vec_capacity back.new }
{
    match back.push(lines) {
        Ok(()) => {}
        Err(_) => unreachable!(),
    }
}

fn feed_stop(feed: u8, stop: Option<EditStop>) -> Option<LiveStop>
    ensures { result ≡ feed_stop feed stop }
{
    match stop {
        None => None,
        Some(EditStop::Memory) => Some(LiveStop::Memory),
        Some(stop) => Some(LiveStop::Feed(feed, stop)),
    }
}

/// Takes the passes of the feeds back, in the order of their numbers, and hands their readers back
/// in that order. Gives the first stop.
fn join_all<F: Source>(
    turns: &Turns<HallState>,
    pass: &mut HallPass,
    jobs: Vec<FeedJob<F>>,
    back: &mut Vec<LineReader<F>>,
) -> Option<LiveStop>
    requires turns { pass.old.turns ≡ turns.now.turns }
    requires feeds { AreBack turns.now.turns 1 jobs.items }
    requires room { vec_len back.old + length jobs.items ≤ vec_capacity back.old }
    ensures joined { Joined pass.old pass.new (callers_of jobs.items) }
    ensures stop { result ≡ feeds_stop None 1 (stops_of jobs.items) }
    ensures back { back.new.items ≡ back.old.items ++ lines_of jobs.items }
{
    let mut first = None;
    for job in jobs {
        let FeedJob {
            pass: other,
            feed,
            lines,
            stop,
        } = job;
        pass.join(turns, other);
        put_back(back, lines);
        first = and_stop(first, feed_stop(feed, stop));
    }
    first
}

fn control_stop(stop: Option<EditStop>) -> Option<LiveStop>
    ensures { result ≡ control_stop stop }
{
    match stop {
        None => None,
        Some(EditStop::Memory) => Some(LiveStop::Memory),
        Some(stop) => Some(LiveStop::Control(stop)),
    }
}

fn sent_stop(sent: Result<(), SendStop>) -> Option<LiveStop>
    ensures { result ≡ sent_stop sent }
{
    match sent {
        Ok(()) => None,
        Err(SendStop::Air) => Some(LiveStop::Air),
        Err(SendStop::Memory) => Some(LiveStop::Memory),
    }
}

// The stop of a run: want of memory, whoever met it, or else the first in the order air, control, feeds by number.
fn run_stop(
    sent: Result<(), SendStop>,
    control: Option<EditStop>,
    feeds: Option<LiveStop>,
) -> Option<LiveStop>
    ensures { result ≡ run_stop sent control feeds }
{
    and_stop(sent_stop(sent), and_stop(control_stop(control), feeds))
}

// Whether no last turns are made.
fn halts(end: Result<(), SendStop>, control: Option<EditStop>, feeds: Option<LiveStop>) -> bool
    ensures { result ≡ halts end control feeds }
{
    match end {
        Err(_) => true,
        Ok(()) => control.is_some() || feeds.is_some(),
    }
}

// What was sent: where the player had failed, nothing more.
fn and_sent(end: Result<(), SendStop>, last: Result<(), SendStop>) -> Result<(), SendStop>
    ensures { result ≡ and_sent end last }
{
    match end {
        Ok(()) => last,
        Err(stop) => Err(stop),
    }
}

impl<F: Source, S: Source> Crew<F, S> {
    /// Opens a hall for so many callers, and gives each its pass: the control 0, the player 1, and
    /// feed f f + 1.
    pub fn open(
        alloc: Global,
        mux: Mux,
        cycles: u64,
        inputs: Inputs<F, S>,
        views: Vec<ViewJob>,
    ) -> Result<Crew<F, S>, AllocError>
        requires sound { IsSound mux }
        requires few { length inputs.feeds.items ≤ 16 }
        ensures { IfOk result (IsCrew mux cycles inputs.feeds.items inputs.control views.items) }
    {
        let Inputs { feeds, control } = inputs;
        let back = Vec::with_capacity(alloc, feeds.len())?;
        let callers = feeds.len() as u32 + 2;
        let (hall, mut pass) = Hall::open(alloc, mux, callers)?;
        let feeds = cut_all(alloc, hall.turns(), &mut pass, feeds)?;
        let own = pass.split(hall.turns(), 1);
        let control = ControlJob {
            pass,
            lines: control,
            stop: None,
        };
        let player = PlayerJob {
            pass: own,
            cycles,
            end: Ok(()),
        };
        let others = Others {
            control,
            feeds,
            views,
        };
        Ok(Crew {
            hall,
            player,
            others,
            back,
        })
    }

    /// Takes all passes together, makes the control's last turns where no job stopped, and closes
    /// the hall.
    pub fn end<W: Wait, A: Sink, G: Gate>(
        self,
        rt: &W,
        alloc: Global,
        sender: &mut Sender<A>,
        gate: &G,
    ) -> Ended<F, S>
        requires { CanEnd self sender.old }
        ensures { EndedBy A.written A.faults A.same self sender.old sender.new result }
    {
        let Crew {
            hall,
            player,
            others,
            mut back,
        } = self;
        let Others {
            control,
            feeds,
            views,
        } = others;
        let ControlJob {
            mut pass,
            lines,
            stop: control,
        } = control;
        let PlayerJob {
            pass: own,
            cycles: _,
            end,
        } = player;
        pass.join(hall.turns(), own);
        let feed = join_all(hall.turns(), &mut pass, feeds, &mut back);
        let halted = halts(end, control, feed);
        let last = sender.last_turns(rt, alloc, &hall, &mut pass, halted, gate);
        let sent = and_sent(end, last);
        let tally = sender.player.tally();
        let desk = hall.close(pass);
        Ended {
            desk,
            sent,
            tally,
            control,
            feed,
            stop: run_stop(sent, control, feed),
            inputs: Inputs {
                feeds: back,
                control: lines,
            },
            views,
        }
    }
}
