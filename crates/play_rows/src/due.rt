// What is written before the next piece of an input is read: no clause says it, since each speaks of before and after a run.
ghost use Rattle.std.specs.Prelude.{None};

use epg_cli::{Status, run_followed, run_listen, run_play};
use row_airs::put_names;
use row_lines::{Buffer, World};
use run_tools::Bench;
use si_causes::{Failed, Sink, Source};
use std::alloc::Global;
use std::cell::Cell;

// How many bytes the cycles of these scripts have.
const CYCLE: usize = 6 * 188;

// A source that gives one piece a read, or a sink. Each looks at each call how many bytes sinks have taken into this count, which they may
// share.
#[derive(Drop)]
struct Watching<'a> {
    pieces: &'a [&'a [u8]],
    taken: &'a Cell<usize>,
    // how many bytes are to be taken at each call
    due: &'a [usize],
    calls: usize,
    agrees: bool,
}

fn watch<'a>(pieces: &'a [&'a [u8]], taken: &'a Cell<usize>, due: &'a [usize]) -> Watching<'a> {
    Watching {
        pieces,
        taken,
        due,
        calls: 0,
        agrees: true,
    }
}

impl<'a> Watching<'a> {
    fn look(&mut self) {
        self.agrees = self.agrees && self.due.get(self.calls) == Some(&self.taken.get());
        self.calls = self.calls.saturating_add(1);
    }

    // Whether each call found what was due, and none was left out.
    fn is_kept(&self) -> bool {
        self.agrees && self.calls == self.due.len()
    }
}

impl<'a> Source for Watching<'a> {
    ghost left = { λ _. None };

    ghost faults = { λ _. 0 };

    ghost same = { λ _ _. Unit {0} };

    ghost same_at_once = { λ _. tt };

    ghost same_later = { λ _ _ _ _ _. tt };

    fn read(&mut self, into: &mut [u8]) -> Result<usize, Failed> {
        let piece = self.pieces.get(self.calls).copied().unwrap_or(&[]);
        self.look();
        let count = piece.len().min(into.len());
        into[..count].copy_from_slice(&piece[..count]);
        Ok(count)
    }
}

impl<'a> Sink for Watching<'a> {
    ghost written = { λ _. None };

    ghost faults = { λ _. 0 };

    ghost same = { λ _ _. Unit {0} };

    ghost same_at_once = { λ _. tt };

    ghost same_later = { λ _ _ _ _ _. tt };

    fn write(&mut self, from: &[u8]) -> Result<usize, Failed> {
        self.look();
        self.taken.set(self.taken.get().saturating_add(from.len()));
        Ok(from.len())
    }
}

// The lines of a script of two swaps, and how many bytes of the air are there when each is read, and when the end is met.
const LINES: &[&[u8]] = &[
    b"network,40,Demo\n",
    b"stream,1,1\n",
    b"service,101,1,1,256,257,Acme,One\n",
    b"end\n",
    b"publish\n",
    b"swap\n",
    b"# two swaps\n",
    b"swap\n",
];

const SENT: &[usize] = &[0, 0, 0, 0, 0, 0, CYCLE, CYCLE, 2 * CYCLE];

// Whether `play` sends each cycle before it reads the next line.
fn sends_before_it_reads(alloc: Global) -> bool {
    let (taken, unseen) = (Cell::new(0), Cell::new(0));
    let mut input = watch(LINES, &taken, SENT);
    let mut air = watch(&[], &taken, &[]);
    let mut report = watch(&[], &unseen, &[]);
    let status = run_play(alloc, &mut input, &mut air, &mut report);
    status == Status::Done && input.is_kept()
}

// How many bytes the report and the air of these lines have together when each line is read, and when the end is met: the entry of the
// publish has 24 bytes, and those of the swaps have 40.
const FOLLOWED: &[usize] = &[0, 0, 0, 0, 0, 24, 64 + CYCLE, 64 + CYCLE, 104 + 2 * CYCLE];

// How many they have when each cycle is written, which is one write: those of the entry of its swap too.
const ENTERED: &[usize] = &[64, 104 + CYCLE];

// Whether `play --follow` reports each entry before it sends a cycle or reads the next line, and sends each cycle before it reads that line.
fn follows_line_by_line(alloc: Global) -> bool {
    let taken = Cell::new(0);
    let mut input = watch(LINES, &taken, FOLLOWED);
    let mut air = watch(&[], &taken, ENTERED);
    let mut report = watch(&[], &taken, &[]);
    let status = run_followed(alloc, false, &mut input, &mut air, &mut report);
    status == Status::Done && input.is_kept() && air.is_kept()
}

// How many bytes are reported when each of 18 packets is read, and when the end is met: in the first cycle each of PAT, PMT, NIT and
// SDT has its line, and the packet of event information two, of present and following and of the schedule; in each further cycle only
// the SDT.
const REPORTED: &[usize] = &[
    0, 19, 42, 64, 85, 85, 131, 131, 131, 131, 152, 152, 152, 152, 152, 152, 174, 174, 174,
];

// What is reported after them.
const GUIDE: &str = "\
clock\t1970-01-01T00:00:00Z
network\t40\tDemo
stream\t1\t1
service\t101\t1\tAcme\tNews 2\t256\t257
end
";

// Whether `listen` reports the completions of each of these packets before it reads the next one.
fn reports_before_it_reads(alloc: Global, packets: &[&[u8]]) -> bool {
    let taken = Cell::new(0);
    let mut input = watch(packets, &taken, REPORTED);
    let mut report = watch(&[], &taken, &[]);
    let status = run_listen(alloc, &mut input, &mut report);
    status == Status::Done && input.is_kept() && taken.get() == 174 + GUIDE.len()
}

// The same of the air of three swaps, each of a new name.
fn reports_in_order<W: World>(bench: &mut Bench<W>) -> Option<bool> {
    let mut script = Buffer::open(bench.alloc);
    put_names("3", &mut script)?;
    bench.run_over("play", script.as_slice());
    let packets: Vec<&[u8]> = bench.left.air().chunks(188).collect(bench.alloc).ok()?;
    Some(reports_before_it_reads(bench.alloc, &packets))
}

/// `play`, `follow` or `listen`
pub fn tell_order<W: World>(bench: &mut Bench<W>, row: &str) -> Option<()> {
    let is_due = match row {
        "play" => sends_before_it_reads(bench.alloc),
        "follow" => follows_line_by_line(bench.alloc),
        "listen" => reports_in_order(bench)?,
        _ => return None,
    };
    let answer = &mut bench.answer;
    answer.say(if is_due { "as due" } else { "not as due" });
    Some(())
}
