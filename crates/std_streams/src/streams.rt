// Readers and writers of std as sources and sinks.
ghost use Rattle.std.specs.Prelude.{◌≡◌, ◌≤◌, ◌<◌, ◌↔◌, IsTrue, refl};

use si_causes::{Failed, Sink, Source};
use std::io::{Read, Write};

/// A source over a reader: each error of the reader is a fault, which is counted and answered.
#[derive(Drop)]
pub struct ReaderSource<R: Read> {
    inner: R,
    faults: u64,
}

impl<R: Read> ReaderSource<R> {
    /// A source that has had no fault.
    pub fn open(inner: R) -> ReaderSource<R>
        ensures { result.faults ≡ 0 }
    {
        ReaderSource { inner, faults: 0 }
    }

    // Whether a read has failed.
    pub(crate) fn has_failed(&self) -> bool
        ensures { IsTrue result ↔ 0 < self.now.faults }
    {
        0 < self.faults
    }
}

impl<R: Read + Drop> Source for ReaderSource<R> {
    ghost left = { λ s. R.remaining s.inner };

    ghost faults = { λ s. s.faults };

    ghost same = { λ _ _. Unit {0} };

    ghost same_at_once = { λ _. tt };

    ghost same_later = { λ _ _ _ _ _. tt };

    fn read(&mut self, into: &mut [u8]) -> Result<usize, Failed> {
        match self.inner.read(into) {
            Ok(count) => Ok(count),
            Err(_) => {
                self.faults = self.faults.saturating_add(1);
                Err(Failed)
            }
        }
    }
}

/// A sink over a writer: each error of the writer, and each piece of which it takes nothing, is a fault, which is counted and
/// answered.
#[derive(Drop)]
pub struct WriterSink<W: Write> {
    inner: W,
    faults: u64,
}

impl<W: Write> WriterSink<W> {
    /// A sink that has had no fault.
    pub fn open(inner: W) -> WriterSink<W> {
        WriterSink { inner, faults: 0 }
    }
}

impl<W: Write> Sink for WriterSink<W> {
    ghost written = { λ s. W.contents s.inner };

    ghost faults = { λ s. s.faults };

    ghost same = { λ _ _. Unit {0} };

    ghost same_at_once = { λ _. tt };

    ghost same_later = { λ _ _ _ _ _. tt };

    fn write(&mut self, from: &[u8]) -> Result<usize, Failed> {
        match self.inner.write(from) {
            Ok(count) => {
                if count == 0 && !from.is_empty() {
                    self.faults = self.faults.saturating_add(1);
                    return Err(Failed);
                }
                Ok(count)
            }
            Err(_) => {
                self.faults = self.faults.saturating_add(1);
                Err(Failed)
            }
        }
    }
}
