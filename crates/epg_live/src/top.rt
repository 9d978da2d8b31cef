// The run of `live`.
ghost use Rattle.std.specs.Prelude.{◌≤◌, length};
ghost use Rattle.command_words.specs.Commands.{texts};
ghost use Rattle.epg_live.specs.LiveRun.{LiveRan};
ghost use Rattle.epg_live.specs.Views.{plan_of};

use crate::reporting::finish;
use crate::run::run_files;
use command_words::LiveWords;
use epg_report::{Status, out_of_memory};
use si_causes::{Gate, Opener, Sink, Source};
use std::marker::{Send, Sync};
use std::sync::Wait;
use std::thread::Threads;

/// Runs `live` ([`run_files`]), and reports.
pub fn run_live_files<
    W: Threads + Wait + Sync,
    O: Opener,
    S: Source + Send,
    A: Sink + Send,
    R: Sink,
    G: Gate,
>(
    rt: &W,
    words: &LiveWords,
    opener: &mut O,
    input: &mut S,
    air: &mut A,
    report: &mut R,
    gate: &G,
) -> Status
    requires few { length words.now.feeds.items ≤ 16 }
    requires cycles { words.now.cycles ≤ 1000 }
    requires views { length words.now.views ≤ 8 }
    ensures run { LiveRan (texts words.now.feeds.items) (plan_of words.now)
        O.files O.tried O.faults O.read_faults opener.old opener.new
        S.left S.faults input.old input.new
        A.written A.faults air.old air.new R.written R.faults report.old report.new result }
{
    let alloc = *words.feeds.allocator();
    let Ok(ran) = run_files(rt, alloc, words, opener, input, air, gate) else {
        return out_of_memory(report);
    };
    finish(alloc, &ran, report)
}
