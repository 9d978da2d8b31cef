// The notation of texts in rows, and of long answers.
use crate::buffer::Buffer;
use crate::line::Row;
use crate::say;
use input_lines::numeral;
use si_time::{Moment, write_moment};
use std::alloc::Global;
use std::fmt::Write;

/// 1993-10-13T00:00:00Z.
const DAY: u64 = 4_257_187_200;

/// Bytes as a text.
pub fn text_of(bytes: &[u8]) -> &str {
    str::from_utf8(bytes).unwrap_or("no UTF-8")
}

/// The text of a moment.
pub fn moment_text(at: Moment) -> [u8; 20] {
    if at.0 < 65_536 * 86_400 {
        write_moment(at)
    } else {
        *b"behind the last day."
    }
}

// Appends the body of a count, with a number in place of each `#`, and the moment so many steps after the day's begin in place
// of each `@`.
fn put_body(out: &mut Buffer, body: &str, n: u32, step: u32) {
    for byte in body.as_bytes() {
        match byte {
            b'#' => say!(out; "{n}"),
            b'@' => {
                let seconds = u64::from(n) * u64::from(step);
                out.put(&moment_text(Moment(DAY.saturating_add(seconds))));
            }
            _ => out.push(*byte),
        }
    }
}

// Appends what `FROM..TO|BODY` or `FROM..TO*STEP|BODY` stands for: the body for each number from one to another, up or down.
fn put_counted(out: &mut Buffer, count: &str) -> Option<()> {
    let (range, body) = count.split_once('|')?;
    let (range, step) = range.split_once('*').unwrap_or((range, "0"));
    let (from, to) = range.split_once("..")?;
    let (from, to, step) = (numeral(from)?, numeral(to)?, numeral(step)?);
    for i in 0..from.abs_diff(to).saturating_add(1) {
        let n = if from <= to {
            from.saturating_add(i)
        } else {
            from.saturating_sub(i)
        };
        put_body(out, body, n, step);
    }
    Some(())
}

// The value of a hexadecimal digit.
fn digit_of(b: u8) -> Option<u32> {
    match b {
        b'0'..=b'9' => Some(u32::from(b - b'0')),
        b'A'..=b'F' => Some(u32::from(b - b'A') + 10),
        _ => None,
    }
}

// The character with this number, in at most four hexadecimal digits.
fn char_of(hex: &str) -> Option<char> {
    let mut n = 0u32;
    for b in hex.as_bytes() {
        n = (n % 4096 * 16).saturating_add(digit_of(*b)?);
    }
    char::from_u32(n)
}

// Appends what `N*TEXT` or `U+HEX` stands for.
fn put_braced(out: &mut Buffer, braced: &str) -> Option<()> {
    match braced.split_once('*') {
        Some((count, text)) => {
            for _ in 0..numeral(count)? {
                out.say(text);
            }
        }
        None => {
            let c = char_of(braced.strip_prefix("U+")?)?;
            say!(out; "{c}");
        }
    }
    Some(())
}

// Appends a text with what stands between an opening and a closing sign written out.
fn put_between<F: Fn(&mut Buffer, &str) -> Option<()>>(
    out: &mut Buffer,
    text: &str,
    open: char,
    close: char,
    put: F,
) -> Option<()>
    requires { F.IsAlwaysCallable put }
{
    let mut parts = text.split(open);
    out.say(parts.next().unwrap_or(""));
    for part in parts {
        let (inner, rest) = part.split_once(close)?;
        put(&mut *out, inner)?;
        out.say(rest);
    }
    Some(())
}

/// The text that the notation stands for; None where it is none.
pub fn written_out(alloc: Global, text: &str) -> Option<Buffer> {
    let mut counts = Buffer::open(alloc);
    put_between(&mut counts, text, '[', ']', put_counted)?;
    let mut out = Buffer::open(alloc);
    put_between(&mut out, counts.text(), '{', '}', put_braced)?;
    out.note_of(&counts);
    Some(out)
}

/// Puts what `tell` appends for the call and the text of a row whose notation is written out, in
/// short.
pub fn put_in_short<F: Fn(Global, &str, &str, &mut Buffer)>(row: &mut Row, tell: F)
    requires { F.IsAlwaysCallable tell }
{
    let (alloc, line) = (row.alloc(), row.rest());
    let Some(line) = written_out(alloc, line) else {
        return row.refuse();
    };
    let (call, text) = line.text().split_once(' ').unwrap_or((line.text(), ""));
    let mut told = Buffer::open(alloc);
    tell(alloc, call, text, &mut told);
    row.need(!line.lacks() && !told.lacks());
    let told = runs_counted(alloc, parts_counted(alloc, told.text()).text());
    row.need(!told.lacks());
    row.put(" ");
    row.put(told.text());
}

// Appends a part that stands so many times.
fn put_part(out: &mut Buffer, part: &str, count: u32) {
    if out.len() > 0 {
        out.say("; ");
    }
    if 1 < count {
        say!(out; "{count} times ");
    }
    out.say(part);
}

/// An answer whose parts that repeat are counted.
pub fn parts_counted(alloc: Global, answer: &str) -> Buffer {
    let mut out = Buffer::open(alloc);
    let mut last = Buffer::open(alloc);
    let mut count = 0u32;
    for part in answer.split("; ") {
        if count > 0 && part != last.text() {
            put_part(&mut out, last.text(), count);
            count = 0;
        }
        last.clear();
        last.say(part);
        count = count.saturating_add(1);
    }
    put_part(&mut out, last.text(), count);
    out.note_of(&last);
    out
}

// Appends a character that stands so many times: more than eight of one are counted.
fn put_run(out: &mut Buffer, c: char, count: u32) {
    if 8 < count {
        return say!(out; "{{{count}*{c}}}");
    }
    for _ in 0..count {
        say!(out; "{c}");
    }
}

/// An answer whose characters that repeat are counted.
pub fn runs_counted(alloc: Global, answer: &str) -> Buffer {
    let mut out = Buffer::open(alloc);
    let mut last = ' ';
    let mut count = 0u32;
    for c in answer.chars() {
        if c != last {
            put_run(&mut out, last, count);
            last = c;
            count = 0;
        }
        count = count.saturating_add(1);
    }
    put_run(&mut out, last, count);
    out
}
