// What a run of two feeds, a control and a player leaves.
ghost use Rattle.std.specs.Prelude.{◌≤◌, length, IfOk};

use crate::halls::two_services;
use crate::words::{put_entries, put_steps_of, put_stop};
use headend_live::{DoneLine, LiveEnd, LivePlan, LiveStop, Numbers, Readers, run_live};
use journal_model::Entry;
use row_lines::{Buffer, Holding, WHOLE, World, reader, say};
use si_causes::{MemSink, MemSource};
use std::alloc::{AllocError, Global};
use std::fmt::Write;

/// A run: its plan, the texts of the control and of the two feeds, the number of the write to the air that fails, and what its gate
/// holds.
#[derive(Clone, Copy)]
pub struct Run<'a> {
    pub cycles: u32,
    pub join: u32,
    pub fails_at: u32,
    pub holds: &'a str,
    pub control: &'a str,
    pub first: &'a str,
    pub second: &'a str,
}

type Left = LiveEnd<MemSource, MemSource>;

// The readers of two feeds.
fn feeds_of(alloc: Global, run: &Run) -> Result<Readers<MemSource>, AllocError>
    ensures { IfOk result (λ feeds. length feeds.items ≤ 16) }
{
    let mut feeds = Vec::new(alloc);
    feeds.push(reader(alloc, run.first, WHOLE)?)?;
    feeds.push(reader(alloc, run.second, WHOLE)?)?;
    Ok(feeds)
}

// What a run leaves.
fn ended_of<W: World>(
    rt: &W,
    alloc: Global,
    run: &Run,
    air: &mut MemSink,
    gate: &Holding,
) -> Result<Left, AllocError> {
    let feeds = feeds_of(alloc, run)?;
    let control = reader(alloc, run.control, WHOLE)?;
    let mux = two_services(alloc)?;
    let plan = LivePlan {
        cycles: u64::from(run.cycles).min(1000),
        join: u64::from(run.join),
        views: Numbers::new(alloc),
    };
    run_live(rt, alloc, mux, plan, feeds, control, air, gate)
}

fn put_live_stop(out: &mut Buffer, stop: Option<LiveStop>) {
    match stop {
        None => out.say("end"),
        Some(LiveStop::Air) => out.say("air failed"),
        Some(LiveStop::Control(stop)) => {
            out.say("control: ");
            put_stop(out, Some(stop));
        }
        Some(LiveStop::Feed(feed, stop)) => {
            say!(out; "feed {feed}: ");
            put_stop(out, Some(stop));
        }
        Some(LiveStop::Memory) => out.note(Err(AllocError)),
    }
}

// Appends the completions: of each the packet and the version.
fn put_dones(out: &mut Buffer, dones: &[DoneLine]) {
    out.say("dones");
    for done in dones {
        say!(out; " {}:{}", done.packet, done.version);
    }
    out.say("; ");
}

fn put_end(out: &mut Buffer, end: &Left, taken: &[u8]) {
    for who in 0..4 {
        put_steps_of(out, who, end.desk.entries());
    }
    say!(out; "packets {}; ", taken.len() / 188);
    put_dones(out, end.dones.as_slice());
    put_live_stop(out, end.stop);
}

fn put_order(out: &mut Buffer, end: &Left, gate: &Holding) {
    put_entries(out, end.desk.entries(), |entry: &Entry| entry.who > 0);
    out.say(if gate.gave_up() { "gave up" } else { "end" });
}

// Appends the steps of each caller, the air and the completions, and why the run stopped; or the journal in its order.
fn tell_over<W: World>(
    rt: &W,
    alloc: Global,
    run: &Run,
    in_order: bool,
    air: &mut MemSink,
    gate: &Holding,
    out: &mut Buffer,
) -> Result<(), AllocError> {
    let end = ended_of(rt, alloc, run, air, gate)?;
    if in_order {
        put_order(out, &end, gate);
    } else {
        put_end(out, &end, air.taken());
    }
    Ok(())
}

/// Appends what a run leaves.
pub fn tell<W: World>(
    rt: &W,
    alloc: Global,
    run: &Run,
    in_order: bool,
    out: &mut Buffer,
) -> Result<(), AllocError> {
    let gate = Holding::of(alloc, run.holds)?;
    let fails = vec![in alloc; u64::from(run.fails_at); 1]?;
    let mut air = MemSink::open(alloc, 65_536, fails);
    tell_over(rt, alloc, run, in_order, &mut air, &gate, out)
}
