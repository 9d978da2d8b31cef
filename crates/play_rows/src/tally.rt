// How audits ended, counted.
use row_lines::{Buffer, say};
use std::fmt::Write;

// The ends of an audit: the exit status, and the word with which the line of the report begins or ends.
const ENDS: [(u8, &str); 7] = [
    (0, "air"),
    (16, "missing"),
    (15, "shape"),
    (15, "pid"),
    (15, "counter"),
    (15, "pointer"),
    (15, "bytes"),
];

/// How many runs ended in each way, after these in another, and the sum of the packets that their reports name.
#[derive(Drop)]
pub struct Tally {
    counts: [u64; 7],
    others: u64,
    packets: u64,
}

/// No run.
pub fn no_runs() -> Tally {
    Tally {
        counts: [0; 7],
        others: 0,
        packets: 0,
    }
}

// The word by which a report is known.
fn end_word(report: &str) -> &str {
    let line = report.strip_suffix('\n').unwrap_or("");
    match line.split_once('\t') {
        Some((word, _)) => word,
        None => line.rsplit_once(' ').map_or("", |(_, word)| word),
    }
}

// The packet that a report names.
fn packet_in(report: &str) -> Option<u64> {
    let (number, _) = report.strip_prefix("fault: packet ")?.split_once(' ')?;
    number.parse::<u64>().ok()
}

/// Counts a run with this exit status and report.
pub fn count(tally: &mut Tally, code: u8, report: &str) {
    let packet = packet_in(report).unwrap_or(0);
    tally.packets = tally.packets.saturating_add(packet);
    let end = (code, end_word(report));
    let place = ENDS.iter().position(|known| *known == end);
    match place.and_then(|place| tally.counts.get_mut(place)) {
        Some(count) => *count = count.saturating_add(1),
        None => tally.others = tally.others.saturating_add(1),
    }
}

/// Appends the ends that came, and how often each did; and the sum of the packets.
pub fn put_tally(out: &mut Buffer, tally: &Tally) {
    for ((code, word), count) in ENDS.iter().zip(&tally.counts) {
        if *count != 0 {
            say!(out; "{count} times {code} {word}, ");
        }
    }
    if tally.others != 0 {
        say!(out; "{} times another, ", tally.others);
    }
    out.say_number("packets ", tally.packets);
}
