// Runs in which each call of an end fails in turn: what they leave is a front of what a whole run leaves.
use epg_cli::Status;
use row_lines::{Buffer, World, parts_counted, say};
use run_tools::{Bench, Left, NONE, faults_of};
use std::fmt::Write;

// The most runs of a row.
const MOST: u64 = 1_024;

// What a report has before its fault line.
fn before_fault(report: &str) -> &str {
    let lines = report.strip_suffix('\n').unwrap_or("");
    match lines.rsplit_once("fault: ") {
        Some((front, _)) => front,
        None => report,
    }
}

// Appends the exit status, how many bytes a run sent and told, of which each are the first of the whole run's, and its fault line.
fn put_front(out: &mut Buffer, left: &Left, air: &[u8], report: &[u8]) {
    let report_text = left.report_text();
    let told = before_fault(report_text);
    say!(out; "{}", left.code());
    if !air.starts_with(left.air()) || !report.starts_with(told.as_bytes()) {
        return out.say(", no front");
    }
    say!(out; ", {} bytes, {} told", left.air().len(), told.len());
    let fault = report_text.strip_prefix(told).unwrap_or("");
    if let Some(fault) = fault.strip_suffix('\n') {
        say!(out; ", {fault}");
    }
}

// Appends what runs in turn leave, up to the first that is done.
fn put_fronts<W: World>(
    bench: &mut Bench<W>,
    words: &str,
    faults: &str,
    all: &mut Buffer,
) -> Option<()> {
    bench.run(words, NONE);
    let mut air = Buffer::open(bench.alloc);
    air.put(bench.left.air());
    let mut report = Buffer::open(bench.alloc);
    report.put(bench.left.report());
    for turn in 0..MOST {
        bench.run(words, faults_of(faults, turn)?);
        put_front(all, &bench.left, air.as_slice(), report.as_slice());
        if bench.left.status() == Status::Done {
            return Some(());
        }
        all.say("; ");
    }
    None
}

/// `WORDS ; FAULTS ; INPUT`
pub fn tell_fronts<W: World>(bench: &mut Bench<W>, row: &str) -> Option<()> {
    let case = bench.take(row)?;
    let mut all = Buffer::open(bench.alloc);
    put_fronts(bench, case.words, case.faults, &mut all)?;
    let counted = parts_counted(bench.alloc, all.text());
    bench.answer.put(counted.as_slice());
    Some(())
}
