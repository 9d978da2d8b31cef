// Two recordings whose guides are compared.
use row_lines::{Buffer, World, say};
use run_tools::Bench;
use std::fmt::Write;
use std::mem;

// Appends what these words report of a recording, without the lines of tables, which name packets.
fn put_guide<W: World>(bench: &mut Bench<W>, words: &str, recording: &[u8], guide: &mut Buffer) {
    bench.run_over(words, recording);
    for line in bench.left.report_text().lines() {
        if !line.starts_with("done\t") {
            guide.say(line);
            guide.push(b'\n');
        }
    }
}

/// `WORDS ; - ; RECORDING ; RECORDING`
pub fn tell_heard<W: World>(bench: &mut Bench<W>, row: &str) -> Option<()> {
    let case = bench.take_compared(row)?;
    if case.faults != "-" {
        return None;
    }
    let one = mem::replace(&mut bench.input, Buffer::open(bench.alloc));
    let mut guide = Buffer::open(bench.alloc);
    put_guide(bench, case.words, one.as_slice(), &mut guide);
    let other = mem::replace(&mut bench.other, Buffer::open(bench.alloc));
    let mut whole = Buffer::open(bench.alloc);
    put_guide(bench, case.words, other.as_slice(), &mut whole);
    let is_same = guide.as_slice() == whole.as_slice() && !whole.lacks();
    let which = if is_same { "the same" } else { "another" };
    let (answer, lines) = (&mut bench.answer, guide.text().lines().count());
    say!(answer; "{which}, lines {lines}");
    Some(())
}
