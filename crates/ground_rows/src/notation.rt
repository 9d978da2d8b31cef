// Numbers and bytes of rows, and how bytes are written: bytes in two hexadecimal digits each, or printable ASCII between back quotes.
ghost use Rattle.std.specs.Prelude.{◌<◌};

use row_lines::{Row, say};
use std::fmt::Write;

/// The next word as a number below a limit.
pub fn number_below(row: &mut Row, limit: u64) -> u64
    requires { 0 < limit }
    ensures { result < limit }
{
    let word = row.word();
    number_in(row, limit, word)
}

/// A number below a limit, in decimal digits; 0 where it is none.
pub fn number_in(row: &mut Row, limit: u64, text: &str) -> u64
    requires { 0 < limit }
    ensures { result < limit }
{
    match text.parse::<u64>() {
        Ok(number) if number < limit => number,
        _ => {
            row.refuse();
            0
        }
    }
}

/// Appends a number, or `none`.
pub fn put_number_or_none(row: &mut Row, number: Option<u64>) {
    match number {
        Some(number) => say!(row; " {number}"),
        None => row.put(" none"),
    }
}

/// Appends bytes to others.
pub fn append(row: &mut Row, bytes: &mut Vec<u8>, more: &[u8]) {
    row.need(bytes.extend_from_slice(more).is_ok());
}

/// The text that these bytes are.
pub fn text<'a>(row: &mut Row, bytes: &'a [u8]) -> &'a str {
    row.read(str::from_utf8(bytes).ok()).unwrap_or("")
}

/// Appends bytes as they are written in a row.
pub fn put_written(row: &mut Row, bytes: &[u8]) {
    if bytes.is_empty() {
        return row.put(" ``");
    }
    let mut is_quoted = false;
    for b in bytes {
        let is_text = (b' '..=b'~').contains(b) && *b != b'`';
        if is_text != is_quoted {
            row.put(if is_text { " `" } else { "`" });
        }
        if is_text {
            say!(row; "{}", char::from(*b));
        } else {
            say!(row; " {b:02X}");
        }
        is_quoted = is_text;
    }
    row.put(if is_quoted { "`" } else { "" });
}

/// Appends bytes in hexadecimal digits, with spaces between them.
pub fn put_hex(row: &mut Row, bytes: &[u8]) {
    for b in bytes {
        say!(row; " {b:02X}");
    }
}
