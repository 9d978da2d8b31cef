// An opener of files in memory, for tests.
ghost use Rattle.std.specs.Prelude.{◌≡◌, ◌++◌, ◌∷◌, [], map, Some, option_map, option_copied, find, String, Vec, ℕ, string_bytes, IfOk, IfSome, IsErr, OnOk, true};
ghost use Rattle.std.specs.Str.{bytes_eq};
ghost use Rattle.std.specs.declared.alloc.Global.{Global};
ghost use Rattle.si_causes.specs.Causes.{HasCause};
ghost use Rattle.si_causes.specs.Memory.{no_calls, fails_next, fails_in, source_over, opened, after_call};
ghost use Rattle.si_causes.specs.Opening.{GivesFile, Tries, TakesBack, file_at};
ghost use Rattle.si_causes.specs.Files.{files_of, paths_of};

use crate::causes::Failed;
use crate::memory::{Counts, MemSource};
use crate::opener::Opener;
use std::alloc::{AllocError, Global};
use std::marker::Model;

/// An opener of files in memory. The openings named by `fail_at`, counted from 0, fail, and so do one of a path that
/// it does not have and one that finds no memory. `read_fail` names one read that fails: the number of its
/// opening and its place among that source's reads, both counted from 0.
#[derive(Drop)]
pub struct MemOpener {
    alloc: Global,
    files: Vec<(String, Vec<u8>)>,
    tried: Option<Vec<String>>,
    read_fail: Option<(u64, u64)>,
    calls: Counts,
    read_faults: u64,
}

impl Model for MemOpener {
    ghost use Rattle.si_causes.specs.Memory.{Archive};
    ghost use Rattle.si_causes.specs.Files.{files_of, paths_of};

    ghost Value = { Archive };

    ghost view = { λ o. record {
      files = files_of o.files.items;
      tried = paths_of o.tried;
      read_fail = o.read_fail;
      calls = o.calls;
      read_faults = o.read_faults;
    } };
}

impl MemOpener {
    /// An opener over these files, each a path and its bytes, that has not been asked yet. It takes no memory.
    pub fn open_with(
        alloc: Global,
        files: Vec<(String, Vec<u8>)>,
        fail_at: Vec<u64>,
        read_fail: Option<(u64, u64)>,
    ) -> MemOpener
        ensures { result ≡ record {
          files = files_of files.items;
          tried = Some [];
          read_fail = read_fail;
          calls = no_calls fail_at.items;
          read_faults = 0;
        } }
    {
        MemOpener {
            alloc,
            files,
            tried: Some(Vec::new(alloc)),
            read_fail,
            calls: Counts::new(fail_at),
            read_faults: 0,
        }
    }
}

impl Opener for MemOpener {
    type From = MemSource;

    ghost faults = { λ o. o.calls.faults };

    ghost read_faults = { λ o. o.read_faults };

    ghost tried = { λ o. o.tried };

    ghost files = { λ o. Some o.files };

    /// A source that moves at most 65,536 bytes in a call. Where there is no memory for the path, the opening
    /// fails, and the paths asked for are told no more.
    fn open(&mut self, path: &str) -> Result<MemSource, Failed>
        ensures cause { HasCause self.old.calls.faults self.new.calls.faults result }
        ensures tried { Tries self.old.tried self.new.tried path.now }
        ensures fresh { IfOk result (λ from. from.calls.faults ≡ 0) }
        ensures content { IfOk result (λ from. GivesFile (Some self.old.files) path.now (Some from.left)) }
        ensures opened { IfOk result (λ from. opened self.old path.now ≡ Some from) }
        ensures fails { fails_next self.old.calls ≡ true → IsErr result }
        ensures after { self.new ≡ record self.old { tried = self.new.tried; calls = after_call self.old.calls result } }
    {
        let noted = note(self.alloc, &mut self.tried, path);
        let call = self.calls.number();
        self.calls.call()?;
        let opened = match noted {
            Ok(()) => supply(self.alloc, &self.files, path, self.read_fail, call),
            Err(_) => None,
        };
        match opened {
            Some(source) => Ok(source),
            None => Err(self.calls.fault()),
        }
    }

    fn close(&mut self, from: MemSource)
        ensures read_faults { TakesBack from.calls.faults self.old.read_faults self.new.read_faults }
        ensures after { self.new ≡ record self.old { read_faults = self.new.read_faults } }
    {
        if from.has_failed() {
            self.read_faults = self.read_faults.saturating_add(1);
        }
    }
}

// One path more was asked for. Where it finds no memory the paths are told no more.
fn note(alloc: Global, tried: &mut Option<Vec<String>>, path: &str) -> Result<(), AllocError>
    ensures { Tries (paths_of tried.old) (paths_of tried.new) path.now }
{
    let Some(paths) = tried else {
        return Ok(());
    };
    let noted = add(alloc, paths, path);
    if noted.is_err() {
        *tried = None;
    }
    noted
}

fn add(alloc: Global, paths: &mut Vec<String>, path: &str) -> Result<(), AllocError>
    ensures { OnOk result (map string_bytes paths.new.items ≡ map string_bytes paths.old.items ++ path.now ∷ []) }
{
    paths.push(String::from_str(alloc, path)?)?;
    Ok(())
}

// The source over the first file with this path, where there is one and memory for its bytes.
fn supply(
    alloc: Global,
    files: &[(String, Vec<u8>)],
    path: &str,
    read_fail: Option<(u64, u64)>,
    call: u64,
) -> Option<MemSource>
    ensures { IfSome result (λ source. option_map (source_over (fails_in read_fail call)) (file_at path.now (files_of files.now)) ≡ Some source) }
{
    let bytes = bytes_at(files, path)?;
    let bytes = Vec::from_slice(alloc, bytes).ok()?;
    let fail_at = failing_reads(alloc, read_fail, call).ok()?;
    Some(MemSource::open(bytes, 65536, fail_at))
}

// The first file with this path.
fn file_of<'a>(files: &'a [(String, Vec<u8>)], path: &str) -> Option<&'a (String, Vec<u8>)>
    ensures { option_copied result ≡ find (λ (file : String Global × Vec ℕ Global). bytes_eq (string_bytes file.0) path.now) files.now }
{
    files.iter().find(
        |file: &&(String, Vec<u8>)| -> bool
            ensures { result ≡ bytes_eq (string_bytes file.now.now.0) path.entry.now }
        { file.0.as_str() == path },
    )
}

// The bytes of the first file with this path.
fn bytes_at<'a>(files: &'a [(String, Vec<u8>)], path: &str) -> Option<&'a [u8]>
    ensures { option_copied result ≡ file_at path.now (files_of files.now) }
{
    match file_of(files, path) {
        Some(file) => Some(&file.1),
        None => None,
    }
}

// The reads that fail of the source that this opening gives.
fn failing_reads(
    alloc: Global,
    read_fail: Option<(u64, u64)>,
    call: u64,
) -> Result<Vec<u64>, AllocError>
    ensures { IfOk result (λ reads. reads.items ≡ fails_in read_fail call) }
{
    let mut reads = Vec::new(alloc);
    if let Some((opening, read)) = read_fail {
        if opening == call {
            reads.push(read)?;
        }
    }
    Ok(reads)
}
