// Rows as their lines are read, and what of them differs.
use crate::buffer::Buffer;
use crate::say;
use std::alloc::{AllocError, Global};
use std::fmt::Write;
use std::io;

/// The rows of a program, `CALL ARGUMENTS = ANSWER`. A line `let NAME = TEXT` gives a name, for which
/// `$NAME` stands in rows below. A line `## TITLE` begins a block, and a line `# Origin: TEXT` below it
/// says where its answers come from. A line `# Calls: ` names calls, each of which is the first word of
/// a row. What fails is a row that gives another answer or cannot be read, a line without ` = `, a name
/// given twice, a block without a title, a row or an origin, and a call that no row has.
#[derive(Drop)]
pub struct Sheet {
    alloc: Global,
    names: Vec<(String, String)>,
    unseen: Vec<String>,
    row: Buffer,
    wanted: Buffer,
    told: Buffer,
    line: u64,
    rows: u64,
    failed: u64,
    lacks_rows: bool,
    lacks_origin: bool,
}

impl Sheet {
    /// No rows.
    pub fn open(alloc: Global) -> Sheet {
        Sheet {
            alloc,
            names: Vec::new(alloc),
            unseen: Vec::new(alloc),
            row: Buffer::open(alloc),
            wanted: Buffer::open(alloc),
            told: Buffer::open(alloc),
            line: 0,
            rows: 0,
            failed: 0,
            lacks_rows: false,
            lacks_origin: true,
        }
    }

    /// The row that was read, with its names written out, and without its answer.
    pub fn row(&self) -> &str {
        self.row.text()
    }

    /// What is to be printed of the line that was read last.
    pub fn told(&self) -> &str {
        self.told.text()
    }

    /// An error, if something failed.
    pub fn ended(&self) -> io::Result<()> {
        if self.failed > 0 {
            return Err(io::Error::from(io::ErrorKind::InvalidData));
        }
        Ok(())
    }

    // Notes a failure.
    fn fail(&mut self, what: &str) {
        self.failed = self.failed.saturating_add(1);
        let (told, line) = (&mut self.told, self.line);
        say!(told; "FAIL line {line}: {what}\n");
    }

    /// Takes a line; whether it is a row that is to be answered.
    pub fn take(&mut self, line: &str) -> bool {
        self.line = self.line.saturating_add(1);
        self.told.clear();
        if line.is_empty() || line.starts_with('#') {
            self.take_comment(line);
            return false;
        }
        match line.strip_prefix("let ") {
            Some(text) => self.take_name(text),
            None => self.take_row(line),
        }
    }

    fn take_comment(&mut self, line: &str) {
        if let Some(title) = line.strip_prefix("##") {
            self.begin_block(title);
        }
        if let Some(origin) = line.strip_prefix("# Origin: ") {
            self.lacks_origin = origin.is_empty();
        }
        if let Some(calls) = line.strip_prefix("# Calls: ") {
            let done = self.name_calls(calls);
            self.told.note(done);
        }
    }

    // Begins a block whose title is what stands after `##`.
    fn begin_block(&mut self, title: &str) {
        self.end_block();
        self.lacks_rows = true;
        self.lacks_origin = true;
        if title.len() < 2 || !title.starts_with(' ') {
            self.fail("no title");
        }
    }

    fn name_calls(&mut self, calls: &str) -> Result<(), AllocError> {
        for call in calls.split(' ') {
            self.unseen.push(String::from_str(self.alloc, call)?)?;
        }
        Ok(())
    }

    fn end_block(&mut self) {
        if self.lacks_rows {
            self.fail("the block above has no row");
        }
    }

    // Whether this is a name, and none that stands for something.
    fn is_new(&self, name: &str) -> bool {
        name_len(name) == name.len() && meaning(&self.names, name).is_none()
    }

    // `NAME = TEXT`, where the text may have names above it.
    fn take_name(&mut self, text: &str) -> bool {
        self.row.clear();
        let done = match text.split_once(" = ") {
            Some((name, text)) if self.is_new(name) => self.keep(name, text),
            _ => Err(AllocError),
        };
        if done.is_err() {
            self.fail("no name");
        }
        false
    }

    fn keep(&mut self, name: &str, text: &str) -> Result<(), AllocError> {
        if !put_named(&self.names, text, &mut self.row) {
            return Err(AllocError);
        }
        let name = String::from_str(self.alloc, name)?;
        let text = String::from_str(self.alloc, self.row.text())?;
        self.names.push((name, text))?;
        Ok(())
    }

    fn take_row(&mut self, line: &str) -> bool {
        self.rows = self.rows.saturating_add(1);
        self.lacks_rows = false;
        if self.lacks_origin {
            self.lacks_origin = false;
            self.fail("no line says where the values are from");
        }
        self.row.clear();
        self.wanted.clear();
        let (call, _) = line.split_once(' ').unwrap_or((line, ""));
        self.unseen.retain(|name| name.as_str() != call);
        let Some((row, wanted)) = parts_of(line) else {
            self.fail("no answer");
            return false;
        };
        self.wanted.say(wanted);
        let is_row = put_named(&self.names, row, &mut self.row);
        if !is_row {
            self.fail("a name that stands for nothing");
        }
        is_row
    }

    /// Compares what the row gave with its answer; `is_row` says whether the row could be read.
    pub fn compare(&mut self, is_row: bool, answer: &Buffer) {
        if !is_row || answer.lacks() || self.row.lacks() || self.wanted.lacks() {
            return self.fail("no row");
        }
        if answer.as_slice() != self.wanted.as_slice() {
            self.fail(answer.text());
            let (told, wanted) = (&mut self.told, self.wanted.text());
            say!(told; "and not {wanted}\n");
        }
    }

    fn fail_unseen(&mut self) {
        let mut calls = Buffer::open(self.alloc);
        calls.say("no row has the calls");
        for call in &self.unseen {
            calls.say(" ");
            calls.say(call.as_str());
        }
        self.fail(calls.text());
    }

    /// Ends the rows: what is told then has how many there are, and how many failures.
    pub fn end(&mut self) {
        self.told.clear();
        self.end_block();
        if self.rows == 0 || self.told.lacks() {
            self.fail("no rows");
        }
        if !self.unseen.is_empty() {
            self.fail_unseen();
        }
        let (told, rows, failed) = (&mut self.told, self.rows, self.failed);
        say!(told; "{rows} rows, {failed} failed\n");
    }
}

// What stands before ` = ` and after it.
fn parts_of(line: &str) -> Option<(&str, &str)> {
    match line.split_once(" = ") {
        Some(parts) => Some(parts),
        None => Some((line.strip_suffix(" =")?, "")),
    }
}

// How many letters and digits a text begins with.
fn name_len(text: &str) -> usize {
    let mut len = 0usize;
    for byte in text.as_bytes() {
        if !byte.is_ascii_alphanumeric() {
            break;
        }
        len = len.saturating_add(1);
    }
    len
}

// What a name stands for.
fn meaning<'n>(names: &'n [(String, String)], name: &str) -> Option<&'n str> {
    for (known, text) in names {
        if known.as_str() == name {
            return Some(text.as_str());
        }
    }
    None
}

// Appends what a name and the text after it stand for; whether there is such a name.
fn put_name(names: &[(String, String)], text: &str, out: &mut Buffer) -> bool {
    let len = name_len(text);
    match meaning(names, text.get(..len).unwrap_or("")) {
        Some(meaning) => {
            out.say(meaning);
            out.say(text.get(len..).unwrap_or(""));
            true
        }
        None => false,
    }
}

// Appends a text with what its names stand for; whether there are such names.
fn put_named(names: &[(String, String)], text: &str, out: &mut Buffer) -> bool {
    let mut parts = text.split('$');
    out.say(parts.next().unwrap_or(""));
    for part in parts {
        if !put_name(names, part, out) {
            return false;
        }
    }
    true
}
