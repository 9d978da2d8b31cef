// Runs in which the write of each byte of the report fails in turn.
use epg_cli::{Outlet, Status};
use row_airs::front_lines;
use row_lines::{Buffer, World};
use run_tools::{Bench, Faults, NONE, put_whole};

// What a run meets where its report is not written.
const NOT_TOLD: Status = Status::WriteFault(Outlet::Report);

// How many bytes stand before the fault line of a report.
fn told_len(report: &str) -> usize {
    front_lines(report, |line: &str| !line.starts_with("fault: ")).len()
}

// Whether the run leaves a proper front of this report where the write of a byte of it fails, whichever it is, and keeps this status, from
// this byte on: before it the failed write is what it meets.
fn keeps<W: World>(
    bench: &mut Bench<W>,
    words: &str,
    (status, from): (Status, usize),
    report: &[u8],
) -> bool {
    for n in 0..report.len() {
        let faults = Faults {
            piece: 1,
            report: n as u64,
            ..NONE
        };
        bench.run(words, faults);
        let left = &bench.left;
        let is_due = left.status() == if n < from { NOT_TOLD } else { status };
        let told = report.get(..n).unwrap_or(report);
        if !is_due || left.report() != told || !left.air().is_empty() {
            return false;
        }
    }
    true
}

/// `WORDS ; - ; INPUT`
pub fn tell_stays<W: World>(bench: &mut Bench<W>, row: &str) -> Option<()> {
    let case = bench.take_faultless(row)?;
    bench.run(case.words, NONE);
    let (status, code) = (bench.left.status(), bench.left.code());
    let mut report = Buffer::open(bench.alloc);
    report.put(bench.left.report());
    let from = match case.words {
        "play" => 0,
        _ => told_len(report.text()),
    };
    let keeps = keeps(bench, case.words, (status, from), report.as_slice());
    put_whole(&mut bench.answer, code, report.text());
    bench.answer.say(if keeps { " stays" } else { " goes" });
    Some(())
}
