// The run of `soak`.
ghost use Rattle.std.specs.Prelude.{◌≡◌, ◌≤◌, ◌⊎◌, ◌++◌, IfOk, OnOk, true};
ghost use Rattle.epg_report.specs.Texts.{CanBeSaid, fault_lines};
ghost use Rattle.epg_report.specs.Told.{told};
ghost use Rattle.epg_report.specs.Ends.{ReportEnds};
ghost use Rattle.epg_live.specs.Ends.{entries_of};
ghost use Rattle.epg_soak.specs.Load.{IsMetByLoad, is_reported};
ghost use Rattle.epg_soak.specs.SoakRun.{SoakRan, run_summary};

use crate::load::run_load;
use crate::summary::put_summary;
use epg_live::LiveResult;
use epg_report::{Status, ended, out_of_memory, put_fault_line};
use si_causes::{Gate, Sink, write_all};
use std::alloc::{AllocError, Global};
use std::marker::{Send, Sync};
use std::sync::Wait;
use std::thread::Threads;

// Whether a run that met this has something to report; else memory was wanting, be it for the copy of a feed's text.
fn is_reported(met: Status) -> bool
    requires { IsMetByLoad met }
    ensures { result ≡ is_reported met }
{
    match met {
        Status::Done | Status::WriteFault(_) => true,
        Status::OpenFault(_) | Status::Memory => false,
        _ => unreachable!(),
    }
}

// Appends the summary, where Done was met.
fn put_run(alloc: Global, out: &mut Vec<u8>, run: &LiveResult) -> Result<(), AllocError>
    ensures { OnOk result (out.new.items
        ≡ out.old.items ++ run_summary run.now.met (entries_of run.now.desk) run.now.observed) }
{
    if run.met != Status::Done {
        return Ok(());
    }
    match &run.desk {
        Some(desk) => put_summary(alloc, out, desk.entries(), &run.observed.guide),
        None => put_summary(alloc, out, &[], &run.observed.guide),
    }
}

// The whole report.
fn report_of(alloc: Global, run: &LiveResult) -> Result<Vec<u8>, AllocError>
    requires { CanBeSaid run.now.met }
    ensures { IfOk result (λ text. text.items
        ≡ run_summary run.now.met (entries_of run.now.desk) run.now.observed ++ fault_lines run.now.met) }
{
    let mut text = Vec::new(alloc);
    put_run(alloc, &mut text, run)?;
    put_fault_line(alloc, &mut text, run.met)?;
    Ok(text)
}

// Reports what ran, and says how the run ends.
fn finish<R: Sink>(alloc: Global, run: &LiveResult, report: &mut R) -> Status
    requires said { CanBeSaid run.now.met }
    requires met { IsMetByLoad run.now.met }
    ensures ends { (result ≡ Status.Memory) ⊎ ((is_reported run.now.met ≡ true)
        × ReportEnds run.now.met (run_summary run.now.met (entries_of run.now.desk) run.now.observed)
        (told R.written R.faults report.old report.new) result) }
{
    if !is_reported(run.met) {
        return out_of_memory(report);
    }
    let Ok(text) = report_of(alloc, run) else {
        return out_of_memory(report);
    };
    let written = write_all(report, &text);
    ended(run.met, written)
}

/// Runs the load with this number, 0 to 999,999,999: makes the texts of its input and of its two feeds, runs them as `live` does, with
/// three cycles, and reports the summary. With Done the same number gives the same summary.
pub fn run_soak<W: Threads + Wait + Sync, A: Sink + Send, R: Sink, G: Gate>(
    rt: &W,
    alloc: Global,
    number: u64,
    air: &mut A,
    report: &mut R,
    gate: &G,
) -> Status
    requires number { number ≤ 999999999 }
    ensures { SoakRan number A.written A.faults air.old air.new
        R.written R.faults report.old report.new result }
{
    let Ok(ran) = run_load(rt, alloc, number, air, gate) else {
        return out_of_memory(report);
    };
    finish(alloc, &ran, report)
}
