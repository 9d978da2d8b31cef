// The examples, and what is kept of them in a file of data.
use row_airs::{cut, number};
use row_lines::{Buffer, World, say};
use run_tools::{Bench, Left, NONE, put_entries};
use si_base::crc32;
use std::fmt::Write;

// Appends what a run leaves: of one of `live` the exit status and how many entries each caller has; else the exit status, the packets of
// the air and the report.
fn put_run(out: &mut Buffer, left: &Left, is_live: bool) {
    let (code, report) = (left.code(), left.report_text());
    say!(out; "exit {code}, ");
    if is_live {
        put_entries(out, report);
        return out.say("\n");
    }
    let (packets, crc) = (left.air().len() / 188, crc32(left.air()));
    say!(out; "{packets} packets, CRC_32 {crc}\n{report}");
}

// Appends what `listen` reports of the air; of a run of `live` what stands after the completions.
fn put_heard<W: World>(out: &mut Buffer, bench: &mut Bench<W>, is_live: bool) {
    let mut air = Buffer::open(bench.alloc);
    air.put(bench.left.air());
    bench.run_over("listen", air.as_slice());
    out.say("> listen\n");
    for line in bench.left.report_text().lines() {
        if !is_live || !line.starts_with("done\t") {
            say!(out; "{line}\n");
        }
    }
    out.need(!air.lacks());
}

// The command line with this number, from 1, and what is kept below it.
fn kept_of(kept: &str, number: usize) -> Option<(&str, &str)> {
    let example = kept.split("\n\n> ").nth(number)?;
    let (command, rest) = example.split_once('\n')?;
    Some((command, rest.trim_end()))
}

// Appends whether what was left is what is kept, or the first line of it that is another.
fn put_difference(out: &mut Buffer, left: &str, kept: &str) {
    let left = left.trim_end();
    if left == kept {
        return out.say("as kept");
    }
    let mut due = kept.split('\n');
    for line in left.split('\n') {
        let other = due.next().unwrap_or("");
        if line != other {
            return say!(out; "{line} and not {other}");
        }
    }
    out.say("fewer lines")
}

/// `N WORDS ; - ; INPUT ; FILE ..`
pub fn tell_example<W: World>(bench: &mut Bench<W>, row: &str) -> Option<()> {
    let (place, row) = cut(row);
    let case = bench.take_faultless(row)?;
    bench.run(case.words, NONE);
    let is_live = case.words.starts_with("live/");
    let mut left = Buffer::open(bench.alloc);
    put_run(&mut left, &bench.left, is_live);
    put_heard(&mut left, bench, is_live);
    let mut answer = Buffer::open(bench.alloc);
    let (command, kept) = kept_of(bench.file("examples.kept")?.text(), number(place)?)?;
    say!(answer; "{command}: ");
    put_difference(&mut answer, left.text(), kept);
    answer.note_of(&left);
    bench.answer = answer;
    Some(())
}
