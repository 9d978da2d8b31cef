// The files of the host as an opener.
ghost use Rattle.std.specs.Prelude.{◌≡◌, List, ℕ, None, Option};

use crate::streams::ReaderSource;
use si_causes::{Failed, Opener};
use std::fs;
use std::io::Read;
use std::marker::Send;
use std::rt::Files;

/// An opener of the files of a runtime, by their paths: each that cannot be opened is a fault, which is counted and answered. It tells
/// neither its files nor the paths that it was asked for.
#[derive(Drop)]
pub struct Opening<'a, R: Files> {
    rt: &'a R,
    faults: u64,
    read_faults: u64,
}

impl<'a, R: Files> Opening<'a, R> {
    /// An opener that has had no fault.
    pub fn open(rt: &'a R) -> Opening<'a, R> {
        Opening {
            rt,
            faults: 0,
            read_faults: 0,
        }
    }
}

impl<'a, R: Files> Opener for Opening<'a, R>
where
    R::File: Read + Drop + Send,
{
    type From = ReaderSource<R::File>;

    ghost faults = { λ o. o.faults };

    ghost read_faults = { λ o. o.read_faults };

    ghost tried = { λ _. None };

    ghost files = { λ _. None };

    fn open(&mut self, path: &str) -> Result<ReaderSource<R::File>, Failed> {
        match fs::open(self.rt, path) {
            Ok(file) => Ok(ReaderSource::open(file)),
            Err(_) => {
                self.faults = self.faults.saturating_add(1);
                Err(Failed)
            }
        }
    }

    fn close(&mut self, from: ReaderSource<R::File>) {
        if from.has_failed() {
            self.read_faults = self.read_faults.saturating_add(1);
        }
    }
}
