// Runs of `live` in which each call of a kind fails in turn, held against what is promised.
use crate::promises::{Run, is_front, is_promised};
use epg_cli::{Outlet, Status};
use row_airs::cut;
use row_lines::{Buffer, Holding, World};
use run_tools::{Bench, Faults, Left, NONE, Outside, faults_of, put_counts};
use std::mem;

// The most runs of a row.
const MOST: u64 = 64;

// Makes a run over a gate of its own.
fn run_gate<W: World>(bench: &Bench<W>, run: &Run, faults: Faults, left: &mut Left) -> Option<()> {
    let gate = Holding::of(bench.alloc, run.holds).ok()?;
    let outside = Outside {
        words: run.words,
        input: run.input.as_slice(),
        files: &run.files,
        faults,
        gate: &gate,
    };
    left.run(bench.rt, &outside);
    Some(())
}

// Whether a run left what is promised of its status; `whole` is the same run without a fault.
fn is_kept<W: World>(bench: &mut Bench<W>, run: &Run, left: &Left, whole: &Left) -> bool {
    if left.status() == Status::WriteFault(Outlet::Report) {
        return is_front(left, whole);
    }
    is_promised(bench, run, left)
}

// Appends what runs leave in which call 0, 1, .. of a kind fails, up to the first that is done; whether all leave what is promised.
fn put_each<W: World>(
    bench: &mut Bench<W>,
    run: &Run,
    whole: &Left,
    left: &mut Left,
) -> Option<bool> {
    let mut all_kept = true;
    for turn in 0..MOST {
        run_gate(bench, run, faults_of(run.faults, turn)?, left)?;
        put_counts(&mut bench.answer, left);
        bench.answer.say(" | ");
        all_kept = all_kept && is_kept(bench, run, left, whole);
        if left.status() == Status::Done {
            break;
        }
    }
    Some(all_kept)
}

// Whether a run without a fault and each of these leave what is promised.
fn all_promised<W: World>(bench: &mut Bench<W>, run: &Run) -> Option<bool> {
    let mut whole = Left::open(bench.alloc);
    run_gate(bench, run, NONE, &mut whole)?;
    let is_whole = is_promised(bench, run, &whole);
    let mut left = Left::open(bench.alloc);
    let all_kept = put_each(bench, run, &whole, &mut left)?;
    Some(is_whole && all_kept && !whole.lacks() && !left.lacks())
}

/// `HOLDS WORDS ; FAULTS ; INPUT ; FILE ; FILE`: what runs leave in which each call of a kind fails, and whether all of them and a run
/// without a fault leave what is promised.
pub fn tell_promised<W: World>(bench: &mut Bench<W>, row: &str) -> Option<()> {
    let (holds, row) = cut(row);
    let case = bench.take(row)?;
    let run = Run {
        words: case.words,
        faults: case.faults,
        holds,
        input: mem::replace(&mut bench.input, Buffer::open(bench.alloc)),
        files: mem::replace(&mut bench.files, Vec::new(bench.alloc)),
    };
    let all = all_promised(bench, &run)?;
    bench.answer.say(if all { "" } else { "not " });
    bench.answer.say("as promised");
    Some(())
}
