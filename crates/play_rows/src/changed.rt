// Airs with one change in turn, audited against their script.
use crate::tally::{Tally, count, no_runs, put_tally};
use row_airs::{cut, put_changed};
use row_lines::{Buffer, World};
use run_tools::{Bench, NONE};

// The most turns of a row.
const MOST: u64 = 10_000;

// Appends a word with the number of a turn in place of its star.
fn put_turn(out: &mut Buffer, word: &str, turn: u64) -> Option<()> {
    let (front, rest) = word.split_once('*')?;
    out.clear();
    out.say_number(front, turn);
    out.say(rest);
    Some(())
}

// Runs these words over each change of an air, up to the first that it has not.
fn tally_turns<W: World>(
    bench: &mut Bench<W>,
    words: &str,
    air: &[u8],
    change: &str,
    tally: &mut Tally,
) -> Option<()> {
    let mut word = Buffer::open(bench.alloc);
    for turn in 0..MOST {
        put_turn(&mut word, change, turn)?;
        bench.made.clear();
        if put_changed(&mut bench.made, air, word.text()).is_none() {
            break;
        }
        bench.files.clear();
        bench.add_file();
        bench.run(words, NONE);
        count(tally, bench.left.code(), bench.left.report_text());
    }
    Some(())
}

/// `CHANGE WORDS ; - ; SCRIPT`
pub fn tell_changes<W: World>(bench: &mut Bench<W>, row: &str) -> Option<()> {
    let (change, row) = cut(row);
    let case = bench.take_faultless(row)?;
    bench.run("play", NONE);
    let mut air = Buffer::open(bench.alloc);
    air.put(bench.left.air());
    let mut tally = no_runs();
    tally_turns(bench, case.words, air.as_slice(), change, &mut tally)?;
    put_tally(&mut bench.answer, &tally);
    Some(())
}
