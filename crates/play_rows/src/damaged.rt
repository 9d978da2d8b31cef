// Recordings whose first bytes are cut off.
use row_airs::{cut, number};
use row_lines::{Buffer, World, say};
use run_tools::Bench;
use std::fmt::Write;

// Appends what is due without so many first bytes: one line `junk` for those before the next packet, where there are any, and then what
// these words leave from that packet on.
fn put_due<W: World>(
    bench: &mut Bench<W>,
    words: &str,
    whole: &[u8],
    cut: usize,
    due: &mut Buffer,
) {
    let next = cut.div_ceil(188).saturating_mul(188);
    if cut < next {
        say!(due; "junk\t0\t{}\n", next.saturating_sub(cut));
    }
    bench.run_over(words, whole.get(next..).unwrap_or(&[]));
    due.put(bench.left.report());
}

// Of how many numbers of first bytes, from 1 to this one, the rest is found from the next packet on.
fn found<W: World>(bench: &mut Bench<W>, words: &str, whole: &[u8], most: usize) -> Option<u64> {
    let plain = words.strip_suffix("/--resync")?;
    let mut due = Buffer::open(bench.alloc);
    let mut count = 0u64;
    for cut in 1..most.saturating_add(1) {
        due.clear();
        put_due(bench, plain, whole, cut, &mut due);
        let status = bench.left.status();
        bench.run_over(words, whole.get(cut..).unwrap_or(&[]));
        let is_same = bench.left.status() == status && bench.left.report() == due.as_slice();
        count = count.saturating_add(u64::from(is_same));
    }
    Some(count)
}

/// `N WORDS ; - ; RECORDING`
pub fn tell_cut_off<W: World>(bench: &mut Bench<W>, row: &str) -> Option<()> {
    let (most, row) = cut(row);
    let case = bench.take_faultless(row)?;
    let mut whole = Buffer::open(bench.alloc);
    whole.put(bench.input.as_slice());
    let count = found(bench, case.words, whole.as_slice(), number(most)?)?;
    bench.answer.say_number("", count);
    bench.answer.say(" as due");
    Some(())
}
