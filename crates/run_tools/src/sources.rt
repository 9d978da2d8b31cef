// Inputs and files as a row says them: a text, bytes or a file of data, and what is done with it.
use crate::bench::Bench;
use crate::faults::NONE;
use crate::left::Outside;
use row_airs::{
    change_all, cut, description, number, put_again, put_fronts, put_large, put_lines_of,
    put_names, put_picked, put_pmts, put_range, spelling,
};
use row_lines::{Buffer, World, put_spelled};
use std::mem;

// Whether a text begins with a word of small letters and a blank.
fn has_form(word: &str, text: &str) -> bool {
    word.len() < text.len() && word.as_bytes().iter().all(|byte| byte.is_ascii_lowercase())
}

impl<'a, W: World> Bench<'a, W> {
    // Appends what a word spells: bytes, or a packet by its name, of which `NAME:FROM-TO` are some bytes; after a star how often it stands.
    fn put_word(&mut self, word: &str) -> Option<()> {
        let (unit, count) = word.split_once('*').unwrap_or((word, "1"));
        let (name, range) = unit.split_once(':').unwrap_or((unit, "0"));
        let named = self.file("named.txt").map_or("", |file| file.text());
        let Some(words) = spelling(named, name) else {
            return put_spelled(self.alloc, word, &mut self.made);
        };
        let mut packet = Buffer::open(self.alloc);
        put_spelled(self.alloc, words, &mut packet)?;
        if packet.len() != 188 {
            return None;
        }
        for _ in 0..number(count)? {
            put_range(&mut self.made, packet.as_slice(), 1, range)?;
        }
        Some(())
    }

    // Appends what the words of a text spell, in which `[1..3|TEXT]` is a text three times.
    fn put_words(&mut self, text: &str) -> Option<()> {
        let mut words = Buffer::open(self.alloc);
        put_lines_of(self.alloc, text, &mut words)?;
        for word in words.text().split_whitespace() {
            self.put_word(word)?;
        }
        Some(())
    }

    // `PATH`, or `PATH:FROM-TO`
    fn put_file(&mut self, text: &str) -> Option<()> {
        let (path, range) = text.split_once(':').unwrap_or((text, "0"));
        let mut whole = Buffer::open(self.alloc);
        whole.put(self.file(path)?.as_slice());
        put_range(&mut self.made, whole.as_slice(), 1, range)
    }

    // Makes what a source begins with.
    fn put_base(&mut self, text: &str) -> Option<()> {
        self.made.clear();
        if let Some(path) = text.strip_prefix('@') {
            return self.put_file(path);
        }
        let (form, rest) = cut(text);
        match form {
            "hex" => self.put_words(rest),
            "fronts" => put_fronts(self.alloc, &mut self.made, rest),
            "bytes" => put_again(self.alloc, &mut self.made, rest),
            "names" => put_names(rest, &mut self.made),
            "pmts" => put_pmts(&mut self.made, rest),
            "large" => put_large(self.alloc, rest, &mut self.made),
            "empty" => Some(()),
            _ if text.is_empty() || has_form(form, text) => None,
            _ => put_lines_of(self.alloc, text, &mut self.made),
        }
    }

    // Runs these words over what was made before.
    fn run_before(&mut self, words: &str) {
        let outside = Outside {
            words,
            input: self.before.as_slice(),
            files: &[],
            faults: NONE,
            gate: &self.open,
        };
        self.left.run(self.rt, &outside);
    }

    // Makes the description of a script, and the journal that `play` prints of it.
    fn make_journal(&mut self) {
        self.run_before("play");
        self.made.say(description(self.before.text()));
        self.made.put(self.left.report());
    }

    // Makes what one operation makes of what was made before.
    fn operate(&mut self, text: &str) -> Option<()> {
        let (word, rest) = cut(text);
        mem::swap(&mut self.made, &mut self.before);
        self.made.clear();
        match word {
            "air" => {
                self.run_before("play");
                self.made.put(self.left.air());
            }
            "fold" => {
                self.run_before("play/--fold");
                self.made.put(self.left.report());
            }
            "journal" => self.make_journal(),
            "change" => {
                self.made.put(self.before.as_slice());
                return change_all(self.alloc, &mut self.made, rest);
            }
            _ => return put_picked(&mut self.made, self.before.as_slice(), word, rest),
        }
        Some(())
    }

    /// Makes a source: `BASE`, or `BASE | OPERATION | ..`.
    pub fn make(&mut self, text: &str) -> Option<()> {
        let mut parts = text.split(" | ");
        self.put_base(parts.next()?)?;
        for part in parts {
            self.operate(part)?;
        }
        Some(())
    }
}
