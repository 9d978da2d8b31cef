// What a run of `play` left, and whole reports.
use crate::cases::Shows;
use crate::left::Left;
use epg_cli::{Origin, Outlet, Status};
use journal_model::Outcome;
use mux_config::MuxFault;
use row_airs::{description, number, pid_of};
use row_lines::{Buffer, say};
use std::fmt::Write;

/// Appends lines of a report: a slash for LF, and this byte for a tab.
pub fn put_lines_with(out: &mut Buffer, lines: &str, tab: u8) {
    for byte in lines.as_bytes() {
        out.push(match *byte {
            b'\n' => b'/',
            b'\t' => tab,
            byte => byte,
        });
    }
}

/// Appends lines of a report: a slash for LF, a bar for a tab.
pub fn put_lines(out: &mut Buffer, lines: &str) {
    put_lines_with(out, lines, b'|');
}

/// Appends the exit status and the whole report.
pub fn put_whole(out: &mut Buffer, code: u8, report: &str) {
    say!(out; "{code}, ");
    put_lines(out, report);
}

// Appends the exit status, how many packets the air has, with the bytes after the last whole one, and the report, or `none`.
fn put_played(out: &mut Buffer, left: &Left) {
    let (len, report) = (left.air().len(), left.report_text());
    say!(out; "{}, {}", left.code(), len / 188);
    if len % 188 != 0 {
        say!(out; "+{}", len % 188);
    }
    out.say(", ");
    put_lines(out, if report.is_empty() { "none" } else { report });
}

// A status by its name and its number.
fn named(status: Status) -> (&'static str, u64) {
    match status {
        Status::Done => ("done", 0),
        Status::Usage => ("usage", 0),
        Status::BadScript(line) => ("bad script", line),
        Status::Disagrees(line, _, _) => ("disagrees", line),
        Status::BadMux(MuxFault::Line(line)) => ("bad line of the description", line),
        Status::BadMux(_) => ("bad description", 0),
        Status::BadStream(packet) => ("bad stream", packet),
        Status::OpenFault(feed) => ("not opened", u64::from(feed)),
        Status::ReadFault(Origin::Input) => ("input not read", 0),
        Status::WriteFault(Outlet::Air) => ("air not written", 0),
        Status::WriteFault(Outlet::Report) => ("report not written", 0),
        _ => ("another", 0),
    }
}

fn put_status(out: &mut Buffer, status: Status) {
    let (name, number) = named(status);
    say!(out; "{} {name} {number}", status.code());
    if let Status::Disagrees(_, Outcome::Published(kept), Outcome::Published(found)) = status {
        say!(out; " kept {kept} found {found}");
    }
}

// Appends the status, how many bytes the air took, and the report.
fn put_ended(out: &mut Buffer, left: &Left) {
    put_status(out, left.status());
    say!(out; ", {} bytes, ", left.air().len());
    put_lines(out, left.report_text())
}

// Appends the status, how many bytes an air has, and whether they are the front of these.
fn put_front(out: &mut Buffer, left: &Left, bytes: &[u8]) {
    put_status(out, left.status());
    say!(out; ", {} of {}", left.air().len(), bytes.len());
    out.say(if bytes.starts_with(left.air()) {
        " bytes as given"
    } else {
        " bytes, others"
    });
}

// Appends the status, and whether the report is what stands after the description of a script.
fn put_itself(out: &mut Buffer, left: &Left, script: &str) {
    put_status(out, left.status());
    let journal = script.strip_prefix(description(script));
    out.say(if journal == Some(left.report_text()) {
        ", itself"
    } else {
        ", another"
    })
}

// Appends how many packets an air has, and of each on a PID the version of the section that begins it and the counter.
fn put_numbers(out: &mut Buffer, air: &[u8], pid: usize) {
    say!(out; "{} packets,", air.len() / 188);
    for packet in air.chunks(188) {
        if pid_of(packet).map(usize::from) == Some(pid) {
            let version = packet.get(10).copied().unwrap_or(0) >> 1 & 31;
            let counter = packet.get(3).copied().unwrap_or(0) & 15;
            say!(out; " {version}:{counter}");
        }
    }
}

// Appends the PID of each packet.
fn put_pids(out: &mut Buffer, air: &[u8]) {
    out.say("PIDs");
    for packet in air.chunks(188) {
        let pid = pid_of(packet).unwrap_or(0);
        say!(out; " {pid}");
    }
}

// What a packet has after its counter.
fn payload(air: &[u8], packet: usize) -> Option<&[u8]> {
    air.chunks(188).nth(packet)?.get(4..)
}

// Whether so many packets from one on have each what the packet so many after it has.
fn repeats(air: &[u8], from: usize, count: usize, later: usize) -> bool {
    (0..count).all(|i| {
        let at = from.saturating_add(i);
        let one = payload(air, at);
        one.is_some() && one == payload(air, at.saturating_add(later))
    })
}

// Appends so many bytes of an air from one on.
fn put_bytes(out: &mut Buffer, air: &[u8], from: usize, count: usize) {
    out.say("bytes");
    for byte in air.iter().skip(from).take(count) {
        say!(out; " {byte:02X}");
    }
}

// `numbers PID`, `bytes FROM COUNT`, or `repeats FROM COUNT LATER`
fn put_counted(out: &mut Buffer, shows: &Shows, air: &[u8]) -> Option<()> {
    let [first, second, third] = shows.args;
    let first = number(first)?;
    match shows.view {
        "numbers" => put_numbers(out, air, first),
        "bytes" => put_bytes(out, air, first, number(second)?),
        _ => out.say(if repeats(air, first, number(second)?, number(third)?) {
            "repeated"
        } else {
            "not repeated"
        }),
    }
    Some(())
}

/// Appends what is shown of a run of `play`, or of its whole report.
pub fn put_of_air(
    out: &mut Buffer,
    shows: &Shows,
    left: &Left,
    input: &Buffer,
    other: &Buffer,
) -> Option<()> {
    match shows.view {
        "whole" => put_whole(out, left.code(), left.report_text()),
        "played" => put_played(out, left),
        "ended" => put_ended(out, left),
        "sends" => put_front(out, left, other.as_slice()),
        "leaves" => {
            put_front(out, left, other.as_slice());
            out.say(", ");
            put_lines(out, left.report_text());
        }
        "itself" => put_itself(out, left, input.text()),
        "pids" => put_pids(out, left.air()),
        _ => return put_counted(out, shows, left.air()),
    }
    Some(())
}
