// The texts of the two feeds, as files.
ghost use Rattle.std.specs.Prelude.{◌≡◌, ◌≤◌, ℕ, List, Option, None, Some, IfOk, IfSome};
ghost use Rattle.si_causes.specs.Causes.{HasCause};
ghost use Rattle.si_causes.specs.Opening.{Files, GivesFile, TakesBack, Tries, file_at};
ghost use Rattle.si_workload.specs.Texts.{feed_text};
ghost use Rattle.epg_soak.specs.Files.{files_of};

use si_causes::{Failed, NeverFails, Opener};
use si_workload::made_feed;
use std::alloc::{AllocError, Global};

/// The texts of feeds 1 and 2, under the paths `1` and `2`.
#[derive(Drop)]
pub(crate) struct FeedTexts {
    alloc: Global,
    first: Vec<u8>,
    second: Vec<u8>,
    faults: u64,
}

impl FeedTexts {
    /// Those of the load with this number.
    pub(crate) fn of_load(alloc: Global, number: u64) -> Result<FeedTexts, AllocError>
        requires { number ≤ 999999999 }
        ensures { IfOk result (λ texts. (texts.first.items ≡ feed_text number 1) × (texts.second.items ≡ feed_text number 2)) }
    {
        Ok(FeedTexts {
            alloc,
            first: made_feed(alloc, number, 1)?,
            second: made_feed(alloc, number, 2)?,
            faults: 0,
        })
    }

    // A copy of the text with this path, where it has one and there is memory for it.
    fn copy_of(&self, path: &str) -> Option<Vec<u8>>
        ensures { IfSome result (λ text. file_at path.now (files_of self.now) ≡ Some text.items) }
    {
        if path == "1" {
            Vec::from_slice(self.alloc, &self.first).ok()
        } else if path == "2" {
            Vec::from_slice(self.alloc, &self.second).ok()
        } else {
            None
        }
    }
}

impl Opener for FeedTexts {
    type From = NeverFails;

    ghost faults = { λ o. o.faults };

    ghost read_faults = { λ _. 0 };

    ghost tried = { λ _. None };

    ghost files = { λ o. Some (files_of o) };

    /// An opening fails for want of memory, or where the path is neither.
    fn open(&mut self, path: &str) -> Result<NeverFails, Failed>
        ensures cause { HasCause self.old.faults self.new.faults result }
        ensures files { files_of self.new ≡ files_of self.old }
        ensures content { IfOk result (λ from. GivesFile (Some (files_of self.old)) path.now (Some from)) }
    {
        match self.copy_of(path) {
            Some(text) => Ok(NeverFails::open(text)),
            None => {
                self.faults = self.faults.saturating_add(1);
                Err(Failed)
            }
        }
    }

    fn close(&mut self, from: NeverFails)
        ensures { self.new ≡ self.old }
    {}
}
