// What is promised of a run of `live` of two feeds that is heard from its first packet on, held against what it left.
use epg_cli::{Outlet, Status};
use row_airs::{description, front_lines};
use row_lines::{Buffer, World};
use run_tools::{Bench, Left, NONE, caller_of};
use std::alloc::Global;

/// A run of `live`: its words, what fails in it in each turn, what its gate holds, its input and the texts of its feeds.
#[derive(Drop)]
pub struct Run<'r> {
    pub words: &'r str,
    pub faults: &'r str,
    pub holds: &'r str,
    pub input: Buffer,
    pub files: Vec<Buffer>,
}

// The parts of a report: the journal, the completions, and what stands after them.
#[derive(Clone, Copy)]
struct Parts<'a> {
    journal: &'a str,
    dones: &'a str,
    rest: &'a str,
}

// Whether a line is of a journal without items: a command, or an outcome.
fn is_of_journal(line: &str) -> bool {
    line.starts_with("=,") || caller_of(line).is_some()
}

fn is_done(line: &str) -> bool {
    line.starts_with("done\t")
}

fn parts_of(report: &str) -> Parts<'_> {
    let journal = front_lines(report, is_of_journal);
    let after = report.get(journal.len()..).unwrap_or("");
    let dones = front_lines(after, is_done);
    Parts {
        journal,
        dones,
        rest: after.get(dones.len()..).unwrap_or(""),
    }
}

// After the description of a run, a journal as a script.
fn put_script(run: &Run, journal: &str, script: &mut Buffer) {
    script.clear();
    script.say(description(run.input.text()));
    script.say(journal);
}

// Whether the commands of a caller in a journal are the first ones of these lines, with what stands before each of them.
fn are_first(journal: &str, front: &str, commands: &str) -> bool {
    let mut due = commands.split('\n').filter(|line| !line.is_empty());
    for line in journal.lines() {
        if let Some(command) = line.strip_prefix(front) {
            if due.next() != Some(command) {
                return false;
            }
        }
    }
    true
}

// The text of a feed.
fn feed_of<'r>(run: &'r Run<'_>, place: usize) -> &'r str {
    run.files.get(place).map_or("", |file| file.text())
}

// Whether each caller has only commands of its own, in order: the control those of its lines and the three at the end, the player
// swaps, and the feeds those of their files.
fn has_own_commands(alloc: Global, run: &Run, journal: &str) -> bool {
    let input = run.input.text();
    let mut control = Buffer::open(alloc);
    control.say(input.strip_prefix(description(input)).unwrap_or(""));
    control.say("\npublish\nswap\nswap");
    let mut callers = journal.lines().filter_map(caller_of);
    callers.all(|who| who < 4)
        && are_first(journal, "0,", control.text())
        && are_first(journal, "1,", "swap\nswap\nswap\nswap")
        && are_first(journal, "2,feed,1,", feed_of(run, 0))
        && are_first(journal, "3,feed,2,", feed_of(run, 1))
}

// The whole packets of an air.
fn packets_of(air: &[u8]) -> &[u8] {
    let packets = air.len() / 188;
    air.get(..packets.saturating_mul(188)).unwrap_or(&[])
}

// A journal without its last swap.
fn without_last_swap(alloc: Global, journal: &str) -> Buffer {
    let (front, rest) = journal.rsplit_once(",swap\n").unwrap_or((journal, ""));
    let front = front.rsplit_once('\n').map_or("", |(front, _)| front);
    let mut left = Buffer::open(alloc);
    left.say(front);
    left.say(if front.is_empty() { "" } else { "\n" });
    left.say(rest.split_once('\n').map_or("", |(_, after)| after));
    left
}

// Whether this text is a journal: `play` prints it again.
fn is_journal<W: World>(bench: &mut Bench<W>, run: &Run, journal: &str) -> bool {
    bench.files.clear();
    put_script(run, journal, &mut bench.input);
    bench.run("play", NONE);
    bench.left.status() == Status::Done && bench.left.report_text() == journal
}

// Runs `audit` of the whole packets of an air against a journal.
fn audit<W: World>(bench: &mut Bench<W>, run: &Run, journal: &str, air: &[u8]) -> Status {
    bench.set_file(air);
    put_script(run, journal, &mut bench.input);
    bench.run("audit/--air=1", NONE);
    bench.left.status()
}

// Whether an air is a whole cycle for each swap of a journal but the last, and a proper front of its cycle: of the journal it is
// too short, and without the last swap nothing is missing, but packets may be too many.
fn is_cut_air<W: World>(bench: &mut Bench<W>, run: &Run, journal: &str, air: &[u8]) -> bool {
    let is_short = audit(bench, run, journal, packets_of(air)).code() == 16;
    let journal = without_last_swap(bench.alloc, journal);
    let status = audit(bench, run, journal.text(), packets_of(air));
    let is_more = status.code() == 15 && bench.left.report_text().ends_with(" breaks pid\n");
    is_short && !journal.lacks() && (status == Status::Done || is_more)
}

// Whether an air is that of the journal, cut in the cycle of the last swap where a write of it failed.
fn is_sent<W: World>(bench: &mut Bench<W>, run: &Run, left: &Left, journal: &str) -> bool {
    if left.status() == Status::WriteFault(Outlet::Air) {
        is_cut_air(bench, run, journal, left.air())
    } else {
        audit(bench, run, journal, left.air()) == Status::Done
    }
}

// Whether the completions are those that `listen` reports of the whole packets of an air; and with Done the guide too, else there is
// a fault line in its place.
fn is_heard<W: World>(bench: &mut Bench<W>, left: &Left, parts: &Parts) -> bool {
    bench.run_over("listen", packets_of(left.air()));
    let heard = parts_of(bench.left.report_text());
    let is_end = if left.status() == Status::Done {
        heard.rest == parts.rest
    } else {
        parts.rest.starts_with("fault: ") && parts.rest.lines().count() == 1
    };
    heard.dones == parts.dones && is_end
}

/// Whether the report is the text of a legal journal, with own commands of each caller, and then the completions of the air, and the
/// guide or a fault line; and the air is that of the journal, cut in the cycle of the last swap where a write of it failed.
pub fn is_promised<W: World>(bench: &mut Bench<W>, run: &Run, left: &Left) -> bool {
    let parts = parts_of(left.report_text());
    is_sent(bench, run, left, parts.journal)
        && has_own_commands(bench.alloc, run, parts.journal)
        && is_journal(bench, run, parts.journal)
        && is_heard(bench, left, &parts)
}

/// Whether a run whose report failed has told a proper front of what this one told, and has sent the same.
pub fn is_front(left: &Left, whole: &Left) -> bool {
    let (told, all) = (left.report(), whole.report());
    left.air() == whole.air() && told.len() < all.len() && all.starts_with(told)
}
