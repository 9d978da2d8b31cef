// The order of a run's journal, where a gate holds places.
use row_airs::number;
use row_lines::{Buffer, Holding, World, say};
use run_tools::{Bench, NONE, caller_of, words_after};
use std::fmt::Write;

// Whether the digits of a word have this caller.
fn has_caller(callers: &str, who: u32) -> bool {
    callers.chars().any(|digit| digit.to_digit(10) == Some(who))
}

// Appends the lines of the entries of these callers.
fn put_entries(out: &mut Buffer, report: &str, callers: &str) {
    for line in report.lines() {
        if caller_of(line).is_some_and(|who| has_caller(callers, who)) {
            say!(out; "{line}; ");
        }
    }
}

/// `HOLDS CALLERS WORDS ; - ; INPUT ; FILE ; ..`: the exit status, the entries of these callers in the order of the journal, and whether
/// a hold gave up.
pub fn tell_held<W: World>(bench: &mut Bench<W>, row: &str) -> Option<()> {
    let ([holds, callers, _], row) = words_after(row, 2);
    number(callers)?;
    let case = bench.take_faultless(row)?;
    let gate = Holding::of(bench.alloc, holds).ok()?;
    bench.run_held(case.words, NONE, &gate);
    let (answer, left) = (&mut bench.answer, &bench.left);
    say!(answer; "{}: ", left.code());
    put_entries(answer, left.report_text(), callers);
    answer.say(if gate.gave_up() { "gave up" } else { "end" });
    Some(())
}
