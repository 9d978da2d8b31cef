// Parts of recordings.
use crate::packets::pid_of;
use crate::texts::{cut, number};
use row_lines::Buffer;

// Whether each of these, which have commas between, is a number.
fn are_numbers(numbers: &str) -> Option<()> {
    for word in numbers.split(',') {
        number(word)?;
    }
    Some(())
}

// Whether this number is one of these.
fn is_among(one: usize, numbers: &str) -> bool {
    numbers.split(',').any(|word| number(word) == Some(one))
}

/// Appends what stands from one unit on up to another, or to the end where none is named: `FROM-TO`, or `FROM`.
pub fn put_range(into: &mut Buffer, bytes: &[u8], unit: usize, range: &str) -> Option<()> {
    let (from, to) = match range.split_once('-') {
        Some((from, to)) => (from, number(to)?.saturating_mul(unit)),
        None => (range, bytes.len()),
    };
    let from = number(from)?.saturating_mul(unit);
    into.put(bytes.get(from..to)?);
    Some(())
}

// Appends the packets of a recording but those with these numbers.
fn put_others(into: &mut Buffer, bytes: &[u8], numbers: &str) {
    for (i, packet) in bytes.chunks(188).enumerate() {
        if !is_among(i, numbers) {
            into.put(packet);
        }
    }
}

// Appends the packets of a recording that are on one of these PIDs, or all others.
fn put_by_pid(into: &mut Buffer, bytes: &[u8], pids: &str, are_kept: bool) {
    for packet in bytes.chunks(188) {
        let pid = usize::from(pid_of(packet).unwrap_or(0));
        if is_among(pid, pids) == are_kept {
            into.put(packet);
        }
    }
}

// Appends the packets on a PID, of those with these numbers, from 0, alone.
fn put_kept(into: &mut Buffer, bytes: &[u8], pid: usize, numbers: &str) {
    let mut count = 0usize;
    for packet in bytes.chunks(188) {
        if pid_of(packet).map(usize::from) == Some(pid) {
            if is_among(count, numbers) {
                into.put(packet);
            }
            count = count.saturating_add(1);
        }
    }
}

/// Appends what is picked of a recording: `part FROM-TO`, `without NUMBERS`, `on PIDS`, `off PIDS`, or `kept PID NUMBERS`.
pub fn put_picked(into: &mut Buffer, bytes: &[u8], word: &str, text: &str) -> Option<()> {
    let (pid, numbers) = cut(text);
    match word {
        "part" => return put_range(into, bytes, 188, text),
        "kept" => are_numbers(numbers)?,
        _ => are_numbers(text)?,
    }
    match word {
        "without" => put_others(into, bytes, text),
        "on" => put_by_pid(into, bytes, text, true),
        "off" => put_by_pid(into, bytes, text, false),
        "kept" => put_kept(into, bytes, number(pid)?, numbers),
        _ => return None,
    }
    Some(())
}
