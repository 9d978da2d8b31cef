// A row that is a run, or runs in turn, and what is shown of them.
use crate::airs::put_of_air;
use crate::bench::Bench;
use crate::faults::{NONE, faults_of};
use crate::guides::put_of_guide;
use crate::journals::put_of_journal;
use row_airs::cut;
use row_lines::{Buffer, World, parts_counted};
use std::mem;

// The most runs of a row.
const MOST: u64 = 1_024;

/// The words of a run and what fails in it, as a row says them.
#[derive(Clone, Copy)]
pub struct Case<'r> {
    pub words: &'r str,
    pub faults: &'r str,
}

/// What is shown of a run: a word, and its arguments.
#[derive(Clone, Copy)]
pub struct Shows<'r> {
    pub view: &'r str,
    pub args: [&'r str; 3],
}

// How many arguments a view has.
fn count_of(view: &str) -> Option<u8> {
    match view {
        "whole" | "played" | "ended" | "sends" | "leaves" | "itself" | "pids" => Some(0),
        "guide" | "lines" | "kinds" => Some(0),
        "ends" | "reports" | "says" | "counts" | "views" => Some(0),
        "numbers" | "table" => Some(1),
        "bytes" => Some(2),
        "repeats" => Some(3),
        _ => None,
    }
}

fn cut_if(has_word: bool, text: &str) -> (&str, &str) {
    if has_word { cut(text) } else { ("", text) }
}

/// So many first words of a text, and the rest of it.
pub fn words_after(text: &str, count: u8) -> ([&str; 3], &str) {
    let (first, text) = cut_if(count > 0, text);
    let (second, text) = cut_if(count > 1, text);
    let (third, text) = cut_if(count > 2, text);
    ([first, second, third], text)
}

// What stands before ` ; `, and what stands after it, where it is there.
fn parted(text: &str) -> (&str, Option<&str>) {
    match text.split_once(" ; ") {
        Some((front, rest)) => (front, Some(rest)),
        None => (text, None),
    }
}

// Whether a path stands after this word.
fn takes_path(word: &str) -> bool {
    matches!(word, "--feed" | "--air" | "--resume")
}

// Whether one of these words names the file of a path, after `=` or as the next word.
fn is_named(words: &str, path: &str) -> bool {
    let mut is_path = false;
    for word in words.split('/') {
        let named = match word.split_once('=') {
            Some((option, value)) => takes_path(option) && value == path,
            None => is_path && word == path,
        };
        if named {
            return true;
        }
        is_path = takes_path(word);
    }
    false
}

impl<'a, W: World> Bench<'a, W> {
    // Fills in the input and the files that a row says.
    fn fill(&mut self, sources: &str) -> Option<()> {
        let (input, files) = parted(sources);
        self.make(input)?;
        mem::swap(&mut self.made, &mut self.input);
        if let Some(files) = files {
            for source in files.split(" ; ") {
                self.make(source)?;
                self.add_file();
            }
        }
        Some(())
    }

    // Fills in what a row says, and gives its words and its faults.
    fn read<'r>(&mut self, text: &'r str) -> Option<Case<'r>> {
        let (words, rest) = text.split_once(" ; ")?;
        let (faults, sources) = rest.split_once(" ; ")?;
        faults_of(faults, 0)?;
        self.input.clear();
        self.other.clear();
        self.files.clear();
        self.fill(sources)?;
        Some(Case { words, faults })
    }

    // The case, where its words name each of the files.
    fn named<'r>(&self, case: Case<'r>) -> Option<Case<'r>> {
        for place in 1..=self.files.len() {
            let path = (place as u64).to_string(self.alloc).ok()?;
            if !is_named(case.words, path.as_str()) {
                return None;
            }
        }
        Some(case)
    }

    /// Takes a case: `WORDS ; FAULTS ; INPUT`, or this and files, each after ` ; `, which the words name.
    pub fn take<'r>(&mut self, text: &'r str) -> Option<Case<'r>> {
        let case = self.read(text)?;
        self.named(case)
    }

    /// Takes a case whose last file no word names: what is left is compared with it.
    pub fn take_compared<'r>(&mut self, text: &'r str) -> Option<Case<'r>> {
        let case = self.read(text)?;
        self.other = self.files.pop()?;
        self.named(case)
    }

    /// Takes a case of a call in which nothing may be said to fail.
    pub fn take_faultless<'r>(&mut self, text: &'r str) -> Option<Case<'r>> {
        let case = self.take(text)?;
        if case.faults == "-" { Some(case) } else { None }
    }

    // Appends what is shown of the last run.
    fn show(&self, shows: &Shows, all: &mut Buffer) -> Option<()> {
        match shows.view {
            "guide" | "lines" | "kinds" | "table" => put_of_guide(all, shows, &self.left),
            "ends" | "reports" | "says" | "counts" | "views" => {
                put_of_journal(all, shows.view, &self.left);
                Some(())
            }
            _ => put_of_air(all, shows, &self.left, &self.input, &self.other),
        }
    }

    // Appends what runs leave in which call 0, 1, .. fails, up to the first that leaves what the whole run does.
    fn put_turns(
        &mut self,
        case: Case,
        shows: &Shows,
        whole: &[u8],
        all: &mut Buffer,
    ) -> Option<()> {
        for turn in 0..MOST {
            let from = all.len();
            self.run(case.words, faults_of(case.faults, turn)?);
            self.show(shows, all)?;
            if all.as_slice().get(from..) == Some(whole) {
                return Some(());
            }
            all.say("; ");
        }
        None
    }

    // Appends what runs leave with pieces of each size.
    fn put_sizes(&mut self, case: Case, shows: &Shows, all: &mut Buffer) -> Option<()> {
        for turn in 0..7 {
            if turn > 0 {
                all.say("; ");
            }
            self.run(case.words, faults_of(case.faults, turn)?);
            self.show(shows, all)?;
        }
        Some(())
    }

    // Appends what runs in turn leave; those that repeat are counted.
    fn put_each(&mut self, case: Case, shows: &Shows) -> Option<()> {
        let mut all = Buffer::open(self.alloc);
        if case.faults == "p*" {
            self.put_sizes(case, shows, &mut all)?;
        } else {
            let mut whole = Buffer::open(self.alloc);
            self.run(case.words, NONE);
            self.show(shows, &mut whole)?;
            self.put_turns(case, shows, whole.as_slice(), &mut all)?;
        }
        let counted = parts_counted(self.alloc, all.text());
        self.answer.put(counted.as_slice());
        Some(())
    }

    fn put_one(&mut self, case: Case, shows: &Shows) -> Option<()> {
        self.run(case.words, faults_of(case.faults, 0)?);
        let mut all = Buffer::open(self.alloc);
        self.show(shows, &mut all)?;
        self.answer.put(all.as_slice());
        Some(())
    }

    /// Answers a row that is a view, its arguments and a case; None where it is no such row.
    pub fn tell(&mut self, row: &str) -> Option<()> {
        let (view, rest) = cut(row);
        let (args, rest) = words_after(rest, count_of(view)?);
        let shows = Shows { view, args };
        let case = match view {
            "sends" | "leaves" => self.take_compared(rest)?,
            _ => self.take(rest)?,
        };
        if case.faults.contains('*') {
            self.put_each(case, &shows)
        } else {
            self.put_one(case, &shows)
        }
    }
}
