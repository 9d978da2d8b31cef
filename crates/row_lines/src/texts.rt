// Codes, texts and times in the notation of rows.
use crate::buffer::Buffer;
use crate::line::{Row, quoted, repeated};
use crate::say;
use guide_model::{Shown, Txt};
use si_time::{Moment, read_duration, read_moment};
use std::fmt::Write;

/// A code of three letters.
pub fn code(row: &mut Row) -> [u8; 3] {
    let word = row.word();
    code_in(row, word)
}

/// The code of three letters that this word is.
pub fn code_in(row: &mut Row, word: &str) -> [u8; 3] {
    match word.as_bytes() {
        [a, b, c] => [*a, *b, *c],
        _ => {
            row.refuse();
            [0; 3]
        }
    }
}

/// A moment.
pub fn moment(row: &mut Row) -> Moment {
    let at = read_moment(row.word().as_bytes());
    row.known(at, Moment(0))
}

/// A duration, in seconds.
pub fn duration(row: &mut Row) -> u32 {
    let seconds = read_duration(row.word().as_bytes());
    row.known(seconds, 0)
}

/// A text in quotes without blanks; behind a star stands how often it comes.
pub fn text(row: &mut Row) -> Option<Txt> {
    let word = row.word();
    let (unit, count) = row.read(repeated(word))?;
    let unit = row.read(quoted(unit))?;
    let mut text = Buffer::open(row.alloc());
    for _ in 0..count {
        text.say(unit);
    }
    row.need(!text.lacks());
    let text = Txt::of(row.alloc(), text.text());
    let text = row.made(text)?;
    row.read(text)
}

/// Appends a text in quotes, or all its bytes where it is not shown as text.
pub fn put_shown(row: &mut Row, shown: &Shown) {
    match shown {
        Shown::Text(text) => say!(row; " \"{}\"", text.as_str()),
        Shown::Hex(bytes) => row.put_bytes(bytes.as_slice()),
    }
}

/// Appends a code of three letters.
pub fn put_code(row: &mut Row, code: &[u8; 3]) {
    row.put(" ");
    for letter in code {
        say!(row; "{}", char::from(*letter));
    }
}
