// What a run of `listen` left.
use crate::airs::put_lines;
use crate::cases::Shows;
use crate::left::Left;
use row_airs::{front_lines, number};
use row_lines::{Buffer, say};
use si_base::crc32;
use std::fmt::Write;

fn is_done(line: &str) -> bool {
    line.starts_with("done\t")
}

fn is_lost(line: &str) -> bool {
    line.starts_with("lost\t")
}

// The lines of completions, of breaks and of bytes passed over.
fn heard_of(report: &str) -> &str {
    front_lines(report, |line: &str| {
        is_done(line) || is_lost(line) || line.starts_with("junk\t")
    })
}

// Appends the exit status, and how many completions and, where there is one, how many breaks are reported.
fn put_counts(out: &mut Buffer, code: u8, report: &str) {
    let dones = report.lines().filter(|line| is_done(line)).count();
    let breaks = report.lines().filter(|line| is_lost(line)).count();
    say!(out; "{code}, {dones} done, ");
    if breaks > 0 {
        say!(out; "{breaks} lost, ");
    }
}

// Whether a line is a completion of this table, a break, or one of the guide.
fn is_told(line: &str, table: &str) -> bool {
    let mut fields = line.split('\t').skip(3);
    !is_done(line) || fields.next().is_some_and(|field| field == table)
}

// Appends the exit status, the completions of this table, the breaks, and what stands after them.
fn put_table(out: &mut Buffer, code: u8, report: &str, table: &str) {
    say!(out; "{code}, ");
    for line in report.lines() {
        if is_told(line, table) {
            put_lines(out, line);
            out.say("/");
        }
    }
}

// The first words of the lines of a report, in their order.
const KINDS: &str =
    "lost junk done wanting clock local network stream cable service program component \
    now next event other remote descriptor end";

// Whether this is the first word of a line.
fn is_first(line: &str, word: &str) -> bool {
    line.split('\t').next() == Some(word)
}

// Appends the exit status, and how many lines there are of each kind.
fn put_kinds(out: &mut Buffer, code: u8, report: &str) {
    say!(out; "{code}");
    for word in KINDS.split(' ') {
        let count = report.lines().filter(|line| is_first(line, word)).count();
        if count > 0 {
            say!(out; ", {count} {word}");
        }
    }
}

/// Appends what is shown of a run of `listen`: the counts and what stands after the lines that are counted, with `lines` the CRC_32 of
/// these between; the completions of one table, the breaks and the guide; or how many lines there are of each kind.
pub fn put_of_guide(out: &mut Buffer, shows: &Shows, left: &Left) -> Option<()> {
    let (code, report) = (left.code(), left.report_text());
    match shows.view {
        "kinds" => put_kinds(out, code, report),
        "table" => {
            let [table, ..] = shows.args;
            number(table)?;
            put_table(out, code, report, table);
        }
        view => {
            let heard = heard_of(report);
            put_counts(out, code, report);
            if view == "lines" {
                say!(out; "{:08X}, ", crc32(heard.as_bytes()));
            }
            put_lines(out, report.get(heard.len()..)?);
        }
    }
    Some(())
}
