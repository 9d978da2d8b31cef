// What a run of `live` or `soak` left.
use crate::airs::put_lines_with;
use crate::left::Left;
use row_lines::{Buffer, say};
use std::fmt::Write;

// The last line of a report, without its LF.
fn last_line(report: &str) -> &str {
    let lines = report.strip_suffix('\n').unwrap_or(report);
    match lines.rsplit_once('\n') {
        Some((_, line)) => line,
        None => lines,
    }
}

// Appends these lines, where there are some.
fn put_after(out: &mut Buffer, lines: &str) {
    if !lines.is_empty() {
        out.say(", ");
        put_lines_with(out, lines, b' ');
    }
}

// Appends the exit status and how many packets the air has.
fn put_sent(out: &mut Buffer, left: &Left) {
    say!(out; "{}, {} packets", left.code(), left.air().len() / 188);
}

/// Appends the exit status, how many packets the air has, and the last line of the report.
pub fn put_ends(out: &mut Buffer, left: &Left) {
    put_sent(out, left);
    put_after(out, last_line(left.report_text()))
}

/// The caller of an entry's line of a report.
pub fn caller_of(line: &str) -> Option<u32> {
    let (who, _) = line.split_once(',')?;
    who.parse::<u32>().ok()
}

/// Appends how many entries a report has of the callers 0 to 3.
pub fn put_entries(out: &mut Buffer, report: &str) {
    out.say("entries");
    for who in 0..4 {
        let lines = report.lines();
        let entries = lines.filter(|line| caller_of(line) == Some(who)).count();
        say!(out; " {entries}");
    }
}

/// Appends the exit status, how many packets the air has, how many entries the journal has of the callers 0 to 3, and the last line of
/// the report.
pub fn put_counts(out: &mut Buffer, left: &Left) {
    put_sent(out, left);
    out.say(", ");
    put_entries(out, left.report_text());
    put_after(out, last_line(left.report_text()))
}

// Appends the exit status, and the lines of views that the report has.
fn put_views(out: &mut Buffer, left: &Left) {
    say!(out; "{}", left.code());
    for line in left.report_text().lines() {
        if line.starts_with("view\t") {
            put_after(out, line);
        }
    }
}

/// Appends what is shown of a run of `live`; with `says` its whole report without the packets, since how many these are depends on the
/// order in which the jobs ran.
pub fn put_of_journal(out: &mut Buffer, view: &str, left: &Left) {
    match view {
        "ends" => put_ends(out, left),
        "counts" => put_counts(out, left),
        "views" => put_views(out, left),
        "says" => {
            say!(out; "{}", left.code());
            put_after(out, left.report_text());
        }
        _ => {
            put_sent(out, left);
            put_after(out, left.report_text());
        }
    }
}
