// Bytes and texts of rows as they grow.
use crate::notation::text_of;
use crate::say;
use std::alloc::{AllocError, Global};
use std::fmt::{self, Write};

/// Bytes as they grow. Want of memory is noted, so that calls need no errors.
#[derive(Drop)]
pub struct Buffer {
    bytes: Vec<u8>,
    lacks: bool,
}

impl Buffer {
    /// No bytes.
    pub fn open(alloc: Global) -> Buffer {
        Buffer {
            bytes: Vec::new(alloc),
            lacks: false,
        }
    }

    /// All bytes.
    pub fn as_slice(&self) -> &[u8] {
        &self.bytes
    }

    /// The bytes.
    pub fn into_bytes(self) -> Vec<u8> {
        self.bytes
    }

    /// The bytes as a text.
    pub fn text(&self) -> &str {
        text_of(&self.bytes)
    }

    /// How many bytes there are.
    pub fn len(&self) -> usize {
        self.bytes.len()
    }

    /// Changes the byte at a place to this one.
    pub fn set(&mut self, place: usize, byte: u8) {
        if let Some(into) = self.bytes.get_mut(place) {
            *into = byte;
        }
    }

    /// Changes these bits of the byte at a place.
    pub fn flip(&mut self, place: usize, bits: u8) {
        if let Some(into) = self.bytes.get_mut(place) {
            *into ^= bits;
        }
    }

    /// Takes all bytes away.
    pub fn clear(&mut self) {
        self.bytes.clear();
    }

    /// Takes the bytes from this place on away.
    pub fn truncate(&mut self, len: usize) {
        self.bytes.truncate(len);
    }

    /// Notes what was done.
    pub fn note(&mut self, done: Result<(), AllocError>) {
        self.need(done.is_ok());
    }

    /// Notes whether memory was wanting for another.
    pub fn note_of(&mut self, other: &Buffer) {
        self.lacks = self.lacks || other.lacks;
    }

    /// The value that was made, or None where memory is wanting, which is noted.
    pub fn made<T>(&mut self, made: Result<T, AllocError>) -> Option<T> {
        self.need(made.is_ok());
        made.ok()
    }

    /// Whether memory was wanting.
    pub fn lacks(&self) -> bool {
        self.lacks
    }

    /// Notes that memory was wanting, unless this was done.
    pub fn need(&mut self, is_done: bool) {
        self.lacks = self.lacks || !is_done;
    }

    /// Appends bytes.
    pub fn put(&mut self, bytes: &[u8]) {
        let done = self.bytes.extend_from_slice(bytes);
        self.note(done);
    }

    /// Appends a byte.
    pub fn push(&mut self, byte: u8) {
        let done = self.bytes.push(byte);
        self.need(done.is_ok());
    }

    /// Appends a text.
    pub fn say(&mut self, text: &str) {
        self.put(text.as_bytes());
    }

    /// Appends bytes with a slash for each LF.
    pub fn put_slashes(&mut self, bytes: &[u8]) {
        for byte in bytes {
            self.push(if *byte == b'\n' { b'/' } else { *byte });
        }
    }

    /// Appends a text with LF for each slash.
    pub fn say_lines(&mut self, text: &str) {
        for byte in text.as_bytes() {
            self.push(if *byte == b'/' { b'\n' } else { *byte });
        }
    }

    /// Appends a text, and a number after it.
    pub fn say_number(&mut self, text: &str, number: u64) {
        say!(self; "{text}{number}");
    }

    /// Appends bytes, each in hex after a blank; one that stands five times or more in a row stands
    /// once, with a star and how often.
    pub fn put_runs(&mut self, bytes: &[u8]) {
        let mut last = 0;
        let mut count = 0u64;
        for byte in bytes {
            if *byte != last {
                self.put_run(last, count);
                last = *byte;
                count = 0;
            }
            count = count.saturating_add(1);
        }
        self.put_run(last, count);
    }

    fn put_run(&mut self, byte: u8, count: u64) {
        if count >= 5 {
            return say!(self; " {byte:02X}*{count}");
        }
        for _ in 0..count {
            say!(self; " {byte:02X}");
        }
    }
}

impl fmt::Write for Buffer {
    fn write_str(&mut self, text: &str) -> fmt::Result {
        self.say(text);
        Ok(())
    }
}
