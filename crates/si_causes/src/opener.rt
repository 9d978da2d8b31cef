// What opens paths.
ghost use Rattle.std.specs.Prelude.{◌≡◌, List, ℕ, IfOk, Option};
ghost use Rattle.si_causes.specs.Causes.{HasCause};
ghost use Rattle.si_causes.specs.Opening.{Files, GivesFile, Tries, TakesBack};

use crate::causes::{Failed, Source};
use std::marker::Send;

/// What opens paths.
///
/// Contracts may speak of its count of openings that failed (`faults`), of its count of sources that had failed
/// when they were closed (`read_faults`), and, where it tells them, of the paths asked for (`tried`) and of its
/// files (`files`). Neither count falls.
pub trait Opener {
    type From: Source + Send;

    /// How often an opening has failed.
    ghost faults: { Self → ℕ };

    /// How many of the sources that were closed had failed.
    ghost read_faults: { Self → ℕ };

    /// The paths asked for, where the opener tells them.
    ghost tried: { Self → Option (List (List ℕ)) };

    /// The files, each a path and its bytes, where the opener tells them.
    ghost files: { Self → Option Files };

    /// Opens a path. `Failed` comes only where the count of faults rose in the call (or stands at its last value,
    /// 2^64 - 1). The source has no fault yet, and where the files are told it has that file's bytes to come.
    fn open(&mut self, path: &str) -> Result<Self::From, Failed>
        ensures cause { HasCause (faults self.old) (faults self.new) result }
        ensures read_faults { read_faults self.new ≡ read_faults self.old }
        ensures tried { Tries (tried self.old) (tried self.new) path.now }
        ensures files { files self.new ≡ files self.old }
        ensures fresh { IfOk result (λ from. Self.From.faults from ≡ 0) }
        ensures content { IfOk result (λ from. GivesFile (files self.old) path.now (Self.From.left from)) };

    /// Takes a source back. The count of read faults rises exactly where the source has failed.
    fn close(&mut self, from: Self::From)
        ensures read_faults { TakesBack (Self.From.faults from) (read_faults self.old) (read_faults self.new) }
        ensures faults { faults self.new ≡ faults self.old }
        ensures tried { tried self.new ≡ tried self.old }
        ensures files { files self.new ≡ files self.old };
}
