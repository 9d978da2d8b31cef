// A run of `live`, and its printed journal as a script.
use row_airs::description;
use row_lines::{Buffer, World, say};
use run_tools::{Bench, NONE, put_ends};
use std::fmt::Write;

// The journal of a report: all lines before that of the first completion.
fn journal_of(report: &str) -> &str {
    match report.split_once("\ndone\t") {
        Some((journal, _)) => journal,
        None => "",
    }
}

// Appends how many entries a journal has, and how many of them are done edits.
fn put_counts(out: &mut Buffer, journal: &str) {
    let entries = journal.lines().filter(|line| line.starts_with("=,"));
    let done = journal.lines().filter(|line| *line == "=,done");
    say!(out; ", {} entries, {} done", entries.count(), done.count());
}

// Plays a journal after the description of its run, and appends the exit status and whether that prints the same journal.
fn put_again<W: World>(bench: &mut Bench<W>, journal: &str) {
    let mut script = Buffer::open(bench.alloc);
    say!(script; "{}{journal}\n", description(bench.input.text()));
    bench.run_over("play", script.as_slice());
    let is_same = bench.left.report_text().strip_suffix('\n') == Some(journal);
    let which = if is_same { "the same" } else { "another" };
    let (answer, code) = (&mut bench.answer, bench.left.code());
    say!(answer; "; play: {code}, {which} journal");
}

/// `WORDS ; - ; INPUT ; FILE ; ..`: what a run leaves, how many entries its journal has and how many of them are done edits, and what
/// `play` makes of that journal.
pub fn tell_again<W: World>(bench: &mut Bench<W>, row: &str) -> Option<()> {
    let case = bench.take_faultless(row)?;
    bench.run(case.words, NONE);
    put_ends(&mut bench.answer, &bench.left);
    let mut journal = Buffer::open(bench.alloc);
    journal.say(journal_of(bench.left.report_text()));
    put_counts(&mut bench.answer, journal.text());
    put_again(bench, journal.text());
    Some(())
}
