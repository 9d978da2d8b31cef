// A row as it is read, and its answer as it grows. What is no row and want of memory are noted, so that calls need no errors.
use crate::buffer::Buffer;
use crate::say;
use crate::spelled::put_spelled;
use std::alloc::{AllocError, Global};
use std::fmt::{self, Write};

/// The most parts of a list, and the most words of a part.
pub const MOST: u32 = 5000;

/// What of a row is to come, and its answer.
#[derive(Drop)]
pub struct Row<'a> {
    alloc: Global,
    rest: &'a str,
    goes_on: bool,
    is_right: bool,
    answer: Buffer,
}

impl<'a> Row<'a> {
    pub fn open(alloc: Global, line: &'a str) -> Row<'a> {
        Row {
            alloc,
            rest: line,
            goes_on: false,
            is_right: true,
            answer: Buffer::open(alloc),
        }
    }

    pub fn alloc(&self) -> Global {
        self.alloc
    }

    /// Notes that this is no row.
    pub fn refuse(&mut self) {
        self.is_right = false;
    }

    /// Notes that memory is wanting.
    pub fn lack_memory(&mut self) {
        self.answer.need(false);
    }

    /// Notes that memory is wanting, unless this was done.
    pub fn need(&mut self, is_done: bool) {
        self.answer.need(is_done);
    }

    /// The value that was made, or None where memory is wanting.
    pub fn made<T>(&mut self, made: Result<T, AllocError>) -> Option<T> {
        self.answer.made(made)
    }

    /// The value that was read, or None where there is none, which is no row.
    pub fn read<T>(&mut self, read: Option<T>) -> Option<T> {
        self.is_right = self.is_right && read.is_some();
        read
    }

    /// Whether all that came could be read.
    pub fn is_read(&self) -> bool {
        self.is_right && self.rest.is_empty()
    }

    /// The value, or another one where there is none, which is no row.
    pub fn known<T: Copy>(&mut self, value: Option<T>, other: T) -> T {
        if value.is_none() {
            self.refuse();
        }
        value.unwrap_or(other)
    }

    /// The answer, or `no row`.
    pub fn end(&self) -> Buffer {
        let mut out = Buffer::open(self.alloc);
        let answer = self.answer.text();
        out.say(if self.is_read() {
            answer.strip_prefix(' ').unwrap_or(answer)
        } else {
            "no row"
        });
        out.note_of(&self.answer);
        out
    }

    // ---- what is read

    /// The next word, or an empty one at the end.
    pub fn word(&mut self) -> &'a str {
        let rest = self.rest.trim_start();
        let (word, after) = rest.split_once(' ').unwrap_or((rest, ""));
        self.rest = after;
        word
    }

    /// The next word, which is not passed over.
    pub fn call(&self) -> &'a str {
        let (word, _) = self.rest.split_once(' ').unwrap_or((self.rest, ""));
        word
    }

    /// All that is still to come.
    pub fn rest(&mut self) -> &'a str {
        let rest = self.rest;
        self.rest = "";
        rest
    }

    /// Passes over a word that has to come.
    pub fn pass(&mut self, word: &str) {
        if self.word() != word {
            self.refuse();
        }
    }

    /// A decimal number.
    pub fn number(&mut self) -> u64 {
        let number = self.word().parse::<u64>().ok();
        self.known(number, 0)
    }

    /// A decimal number below 256.
    pub fn octet(&mut self) -> u8 {
        let word = self.word();
        self.small_in(word)
    }

    /// A decimal number below 2^32.
    pub fn long(&mut self) -> u32 {
        let number = self.word().parse::<u32>().ok();
        self.known(number, 0)
    }

    /// A decimal number below 65,536.
    pub fn short(&mut self) -> u16 {
        let word = self.word();
        self.short_in(word)
    }

    /// The decimal number below 65,536 that this text is.
    pub fn short_in(&mut self, text: &str) -> u16 {
        self.known(text.parse::<u16>().ok(), 0)
    }

    /// The decimal number below 256 that this text is.
    pub fn small_in(&mut self, text: &str) -> u8 {
        self.known(text.parse::<u8>().ok(), 0)
    }

    /// A decimal number below 256 after its name.
    pub fn small(&mut self, name: &str) -> u8 {
        self.pass(name);
        self.octet()
    }

    /// Two hex digits.
    pub fn byte(&mut self) -> u8 {
        let byte = byte_in(self.word());
        self.known(byte, 0)
    }

    /// Four hex digits.
    pub fn hex(&mut self) -> u16 {
        let word = self.word();
        match u16::from_str_radix(word, 16) {
            Ok(number) if word.len() == 4 => number,
            _ => {
                self.refuse();
                0
            }
        }
    }

    /// Four hex digits after their name.
    pub fn hex_of(&mut self, name: &str) -> u16 {
        self.pass(name);
        self.hex()
    }

    /// The bytes that the words up to a bar, a slash or the end spell (`put_spelled`).
    pub fn bytes(&mut self) -> Vec<u8> {
        let mut bytes = Buffer::open(self.alloc);
        for _ in 0..MOST {
            let word = self.word();
            if self.is_end(word) {
                break;
            }
            self.spell(word, &mut bytes);
        }
        bytes.into_bytes()
    }

    /// The bytes that all that is still to come spells.
    pub fn rest_bytes(&mut self) -> Vec<u8> {
        let mut bytes = Buffer::open(self.alloc);
        let rest = self.rest();
        self.spell(rest, &mut bytes);
        bytes.into_bytes()
    }

    fn spell(&mut self, text: &str, bytes: &mut Buffer) {
        let spelled = put_spelled(self.alloc, text, bytes);
        self.is_right = self.is_right && spelled.is_some();
        self.answer.note_of(bytes);
    }

    /// Whether a part ends with this word, and whether a further part follows.
    pub fn is_end(&mut self, word: &str) -> bool {
        self.goes_on = word == "/";
        self.goes_on || word.is_empty() || word == "|"
    }

    /// Passes over what ends a part.
    pub fn pass_end(&mut self) {
        let word = self.word();
        if !self.is_end(word) {
            self.refuse();
        }
    }

    /// Whether a further part follows.
    pub fn goes_on(&self) -> bool {
        self.goes_on
    }

    // ---- the answer

    /// Appends a text, which begins with a blank.
    pub fn put(&mut self, text: &str) {
        self.answer.say(text);
    }

    /// Appends a number after a text.
    pub fn put_number(&mut self, text: &str, number: u64) {
        say!(self; "{text}{number}");
    }

    /// Appends bytes, each after a blank; one that stands five times or more in a row stands once, with a star and how often.
    pub fn put_bytes(&mut self, bytes: &[u8]) {
        self.answer.put_runs(bytes);
    }

    /// Parts what follows from what the answer has.
    pub fn begin_part(&mut self) {
        if self.answer.len() > 0 {
            self.put(" /");
        }
    }

    /// Says `none` where the answer has nothing.
    pub fn end_parts(&mut self) {
        if self.answer.len() == 0 {
            self.put(" none");
        }
    }

    /// Whether this is the answer so far.
    pub fn has(&self, answer: &str) -> bool {
        self.answer.text() == answer
    }
}

impl<'a> fmt::Write for Row<'a> {
    fn write_str(&mut self, text: &str) -> fmt::Result {
        self.put(text);
        Ok(())
    }
}

fn byte_in(word: &str) -> Option<u8> {
    match u8::from_str_radix(word, 16) {
        Ok(byte) if word.len() == 2 => Some(byte),
        _ => None,
    }
}

/// What stands before a star and the number after it, or all and 1.
pub fn repeated(word: &str) -> Option<(&str, u32)> {
    let Some((unit, count)) = word.rsplit_once('*') else {
        return Some((word, 1));
    };
    match count.parse::<u32>() {
        Ok(count) if count <= 10_000 => Some((unit, count)),
        _ => None,
    }
}

/// What stands between two quotes.
pub fn quoted(word: &str) -> Option<&str> {
    word.strip_prefix('"')?.strip_suffix('"')
}
