// Scripts that are cut: each part goes on from the checkpoint of what stands before it.
use row_airs::{description, front_lines};
use row_lines::{Buffer, World};
use run_tools::{Bench, NONE};
use std::alloc::{AllocError, Global};
use std::mem;

/// After what a script is cut: each swap in turn, each two swaps, or each command.
#[derive(Clone, Copy, PartialEq, Eq)]
pub enum Cut {
    Swap,
    TwoSwaps,
    Command,
}

// How many cuts there are, and in how many of them each thing is as it has to be.
const COUNTED: [&str; 6] = [
    "cuts ",
    ", ended ",
    ", airs ",
    ", journals ",
    ", checkpoints ",
    ", audits ",
];

// Whether this line goes on with the command above it, as an item and a kept outcome do, or is passed over.
fn goes_on(line: &str) -> bool {
    line.is_empty() || line.starts_with('#') || line.starts_with('=') || line.starts_with("item,")
}

fn is_swap(line: &str) -> bool {
    let (caller, command) = line.rsplit_once(',').unwrap_or(("0", line));
    command == "swap" && caller.parse::<u32>().is_ok()
}

// The places after swaps, or after all commands.
fn places_of(alloc: Global, script: &str, cut: Cut) -> Result<Vec<usize>, AllocError> {
    let mut places = Vec::new(alloc);
    let mut at = description(script).len();
    for line in script.get(at..).unwrap_or("").split_inclusive('\n') {
        let after = at.saturating_add(line.len());
        let line = line.trim_end();
        if goes_on(line) && places.last() == Some(&at) {
            places.pop();
            places.push(after)?;
        } else if !goes_on(line) && (cut == Cut::Command || is_swap(line)) {
            places.push(after)?;
        }
        at = after;
    }
    Ok(places)
}

// What the parts of a script left: the greatest exit status, the airs joined, the last report, and how many parts there were; what `play`
// and `play --fold` leave of a script that is not cut; and in how many cuts each thing is as it has to be.
#[derive(Drop)]
struct Cutter<'s> {
    script: &'s str,
    code: u8,
    air: Buffer,
    report: Buffer,
    parts: usize,
    ended: bool,
    whole: Buffer,
    journal: Buffer,
    checkpoint: Buffer,
    counts: [u64; 6],
}

// The entries of a report, without the line of the rate.
fn entries_of(report: &str) -> &str {
    front_lines(report, |line: &str| !line.starts_with("rate,"))
}

fn copy(into: &mut Buffer, bytes: &[u8]) {
    into.clear();
    into.put(bytes);
}

impl<'s> Cutter<'s> {
    fn open(alloc: Global, script: &'s str) -> Cutter<'s> {
        Cutter {
            script,
            code: 0,
            air: Buffer::open(alloc),
            report: Buffer::open(alloc),
            parts: 0,
            ended: true,
            whole: Buffer::open(alloc),
            journal: Buffer::open(alloc),
            checkpoint: Buffer::open(alloc),
            counts: [0; 6],
        }
    }

    fn lacks(&self) -> bool {
        let parts = self.air.lacks() || self.report.lacks();
        parts || self.whole.lacks() || self.journal.lacks() || self.checkpoint.lacks()
    }

    fn put_counts(&self, out: &mut Buffer) {
        for (name, count) in COUNTED.iter().zip(&self.counts) {
            out.say_number(name, *count);
        }
    }

    // Says what stands between two places of the script, after its description, as the input, and the report of the part before, if there
    // was one, as the file.
    fn say_part<W: World>(&self, bench: &mut Bench<W>, from: usize, to: usize) {
        bench.files.clear();
        if self.parts > 0 {
            bench.set_file(self.report.as_slice());
        }
        bench.input.clear();
        bench.input.say(description(self.script));
        bench.input.say(self.script.get(from..to).unwrap_or(""));
    }

    // Runs these words over what stands between two places.
    fn run_part<W: World>(&mut self, bench: &mut Bench<W>, words: &str, from: usize, to: usize) {
        self.say_part(bench, from, to);
        bench.run(words, NONE);
        self.code = self.code.max(bench.left.code());
        self.parts = self.parts.saturating_add(1);
        self.air.put(bench.left.air());
        copy(&mut self.report, bench.left.report());
    }

    // Runs the parts of the script cut at these places, each part but the last folded, and the last with these words.
    fn run_parts<W: World>(&mut self, bench: &mut Bench<W>, last: &str, places: &[usize]) {
        self.code = 0;
        self.parts = 0;
        self.air.clear();
        let mut from = description(self.script).len();
        let mut words = "play/--fold";
        for to in places {
            self.run_part(bench, words, from, *to);
            from = *to;
            words = "play/--fold/--resume=1";
        }
        self.run_part(bench, last, from, self.script.len());
        self.ended = self.ended && self.code == 0;
    }

    // Keeps what is left of the script that is not cut.
    fn run_whole<W: World>(&mut self, bench: &mut Bench<W>) {
        self.run_parts(bench, "play", &[]);
        copy(&mut self.whole, self.air.as_slice());
        copy(&mut self.journal, self.report.as_slice());
        self.run_parts(bench, "play/--fold", &[]);
        copy(&mut self.checkpoint, self.report.as_slice());
    }

    // Whether the journal of the last part goes on with that of what stands before it, to the journal of the script.
    fn is_journal<W: World>(&self, bench: &mut Bench<W>, place: usize) -> bool {
        let before = self.script.get(..place).unwrap_or("");
        bench.run_over("play", before.as_bytes());
        let front = entries_of(bench.left.report_text());
        let (last, whole) = (
            entries_of(self.report.text()),
            entries_of(self.journal.text()),
        );
        let len = front.len().saturating_add(last.len());
        len == whole.len() && whole.starts_with(front) && whole.ends_with(last)
    }

    // Whether `audit` takes the airs joined.
    fn is_audited<W: World>(&self, bench: &mut Bench<W>) -> bool {
        copy(&mut bench.input, self.script.as_bytes());
        bench.set_file(self.air.as_slice());
        bench.run("audit/--air=1", NONE);
        bench.left.code() == 0
    }

    fn has_air(&self) -> bool {
        self.air.as_slice() == self.whole.as_slice()
    }

    // Counts a cut at these places.
    fn try_cut<W: World>(&mut self, bench: &mut Bench<W>, places: &[usize]) {
        let all_ended = self.ended;
        self.run_parts(bench, "play/--resume=1", places);
        let has_air = self.has_air();
        let is_journal = self.is_journal(bench, places.last().copied().unwrap_or(0));
        let is_audited = self.is_audited(bench);
        self.run_parts(bench, "play/--resume/1/--fold", places);
        let has_airs = has_air && self.has_air();
        let is_checkpoint = self.report.as_slice() == self.checkpoint.as_slice();
        let found = [
            true,
            self.ended,
            has_airs,
            is_journal,
            is_checkpoint,
            is_audited,
        ];
        for (count, holds) in self.counts.iter_mut().zip(found) {
            *count = count.saturating_add(u64::from(holds));
        }
        self.ended = all_ended;
    }

    // Counts the cuts at each of these places, or at each two of them.
    fn try_cuts<W: World>(&mut self, bench: &mut Bench<W>, cut: Cut, places: &[usize]) {
        for (k, place) in places.iter().enumerate() {
            if cut != Cut::TwoSwaps {
                self.try_cut(bench, &[*place]);
                continue;
            }
            for first in places.iter().take(k) {
                self.try_cut(bench, &[*first, *place]);
            }
        }
    }
}

fn put_cuts<W: World>(bench: &mut Bench<W>, cut: Cut, script: &str) -> Option<()> {
    let places = places_of(bench.alloc, script, cut).ok()?;
    let mut cutter = Cutter::open(bench.alloc, script);
    cutter.run_whole(bench);
    cutter.try_cuts(bench, cut, &places);
    cutter.put_counts(&mut bench.answer);
    if cutter.lacks() { None } else { Some(()) }
}

/// `SCRIPT`: how many cuts there are of it, and in how many of them each thing is as it has to be.
pub fn tell_cuts<W: World>(bench: &mut Bench<W>, cut: Cut, source: &str) -> Option<()> {
    bench.make(source)?;
    let script = mem::replace(&mut bench.made, Buffer::open(bench.alloc));
    put_cuts(bench, cut, script.text())
}
