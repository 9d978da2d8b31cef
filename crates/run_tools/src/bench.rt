// What the rows of a program share.
use crate::faults::{Faults, NONE};
use crate::left::{Left, Outside};
use row_lines::{Buffer, Holding, World};
use std::alloc::{AllocError, Global};
use std::mem;

/// The files of data, the input and the files that a row says, what a run is compared with, the last run, and the answer of the row.
#[derive(Drop)]
pub struct Bench<'a, W> {
    pub rt: &'a W,
    pub alloc: Global,
    shelf: Vec<(String, Buffer)>,
    pub open: Holding,
    pub made: Buffer,
    pub(crate) before: Buffer,
    pub input: Buffer,
    pub files: Vec<Buffer>,
    pub other: Buffer,
    pub left: Left,
    pub answer: Buffer,
}

impl<'a, W: World> Bench<'a, W> {
    /// Nothing of any row.
    pub fn open(rt: &'a W, alloc: Global) -> Result<Bench<'a, W>, AllocError> {
        Ok(Bench {
            rt,
            alloc,
            shelf: Vec::new(alloc),
            open: Holding::of(alloc, "-")?,
            made: Buffer::open(alloc),
            before: Buffer::open(alloc),
            input: Buffer::open(alloc),
            files: Vec::new(alloc),
            other: Buffer::open(alloc),
            left: Left::open(alloc),
            answer: Buffer::open(alloc),
        })
    }

    /// Takes a file of data.
    pub fn shelve(&mut self, name: &str, file: Buffer) -> Result<(), AllocError> {
        let name = String::from_str(self.alloc, name)?;
        self.shelf.push((name, file))?;
        Ok(())
    }

    /// The file of data with this name.
    pub fn file(&self, name: &str) -> Option<&Buffer> {
        for (known, file) in &self.shelf {
            if known.as_str() == name && !file.lacks() {
                return Some(file);
            }
        }
        None
    }

    /// Takes what was made as a further file.
    pub fn add_file(&mut self) {
        let file = mem::replace(&mut self.made, Buffer::open(self.alloc));
        if self.files.push(file).is_err() {
            self.made.note(Err(AllocError));
        }
    }

    /// Takes this as the one file.
    pub fn set_file(&mut self, bytes: &[u8]) {
        self.made.clear();
        self.made.put(bytes);
        self.files.clear();
        self.add_file();
    }

    /// Whether memory was wanting for what a row says or for a run.
    pub fn lacks(&self) -> bool {
        let files = self.files.iter().any(|file| file.lacks());
        let given = files || self.input.lacks() || self.other.lacks();
        given || self.made.lacks() || self.left.lacks()
    }

    /// Runs these words over the input and the files, over this gate.
    pub fn run_held(&mut self, words: &str, faults: Faults, gate: &Holding) {
        let outside = Outside {
            words,
            input: self.input.as_slice(),
            files: &self.files,
            faults,
            gate,
        };
        self.left.run(self.rt, &outside);
    }

    /// Runs these words over the input and the files.
    pub fn run(&mut self, words: &str, faults: Faults) {
        let outside = Outside {
            words,
            input: self.input.as_slice(),
            files: &self.files,
            faults,
            gate: &self.open,
        };
        self.left.run(self.rt, &outside);
    }

    /// Runs these words over this input, with no files.
    pub fn run_over(&mut self, words: &str, input: &[u8]) {
        let outside = Outside {
            words,
            input,
            files: &[],
            faults: NONE,
            gate: &self.open,
        };
        self.left.run(self.rt, &outside);
    }
}
