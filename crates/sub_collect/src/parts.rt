// What is held of a key, though it may not be whole.
ghost use Rattle.std.specs.Prelude.{◌≡◌, ◌∷◌, [], List, Option, option_map, unwrap_or, IfOk};
ghost use Rattle.section_codec.specs.Tables.{is_eit};
ghost use Rattle.sub_collect.specs.Runs.{Counted, run_of};
ghost use Rattle.sub_collect.specs.Marks.{Taken};
ghost use Rattle.sub_collect.specs.Collectors.{CollectorStandsOver, StandsForRun, IsKeptOf, AreOfKey, body_in, last_in};
ghost use Rattle.sub_collect.specs.Slots.{kept_by, kept_run};
ghost use Rattle.sub_collect.specs.Parts.{held, part_of, AreKeysOver, WholeIsHeld};
ghost use Rattle.sub_collect.specs.PartSlots.{content_of, known_by, held_by};
ghost use Rattle.sub_collect.specs.declared.completed.Completed.{Completed};

use crate::collector::{Collector, KeySlot};
use crate::needed::known_numbers;
use crate::run::Run;
use section_codec::{Key, NumberedBodies, NumberedBody, is_eit};
use si_base::Items;
use std::alloc::{AllocError, Global};

/// What is held of a key: the content of its latest completion, which stays in the collector, or
/// else a copy of what its run holds.
#[derive(Drop)]
pub enum Part<'a> {
    Whole(&'a [NumberedBody]),
    Held(NumberedBodies),
}

impl Part<'_> {
    /// Its sections, in ascending order of their numbers.
    pub fn sections(&self) -> &[NumberedBody]
        ensures { result.now ≡ content_of self.now }
    {
        match self {
            Part::Whole(sections) => sections,
            Part::Held(sections) => sections.as_slice(),
        }
    }
}

impl Collector {
    /// What is held of a key: the content of its latest completion, or, where it never had one, the
    /// latest body of each number that is needed and that the run of the key holds (EN 300 468, 5.1.1
    /// and 5.2.4). A newer version with sections missing never hides an older one that was heard
    /// whole, and sections of two versions are never put together. Of a key without a section it is
    /// empty. Only what is not whole is copied.
    pub fn part(&self, alloc: Global, key: Key) -> Result<Part<'_>, AllocError>
        ensures { (past : List Taken) → CollectorStandsOver past self.now
            → IfOk result (λ part. content_of part ≡ part_of key past) }
    {
        match self.slots.get(&key) {
            Some(slot) => slot.part(alloc, key),
            None => Ok(Part::Whole(&[])),
        }
    }

    /// The keys that had a section, in their order, each once. A key whose sections a mark forgot
    /// stays among them.
    pub fn keys_in_order(&self, alloc: Global) -> Result<Vec<Key>, AllocError>
        ensures { (past : List Taken) → CollectorStandsOver past self.now
            → IfOk result (λ keys. AreKeysOver past keys.items) }
    {
        let mut keys = Vec::with_capacity(alloc, self.slots.len())?;
        for (key, _) in self.slots.iter() {
            keys.push(*key)?;
        }
        Ok(keys)
    }
}

impl KeySlot {
    // What is held of the key.
    fn part(&self, alloc: Global, key: Key) -> Result<Part<'_>, AllocError>
        ensures { (heard : List Counted) (latest : Option Completed)
            → IsKeptOf heard latest (kept_by self.now) → AreOfKey key heard latest
            → IfOk result (λ part. content_of part
            ≡ unwrap_or (option_map (λ d. d.sections) latest) (held (run_of heard))) }
    {
        match &self.latest {
            Some(done) => Ok(Part::Whole(done.sections.as_slice())),
            None => Ok(Part::Held(self.run.held(alloc, is_eit(key.table))?)),
        }
    }
}

impl Run {
    // A copy of what the run holds of the needed numbers, in a table with segments or without.
    fn held(&self, alloc: Global, segmented: bool) -> Result<NumberedBodies, AllocError>
        ensures { IfOk result (λ sections. sections ≡ held_by (λ n. body_in n self.now.held.entries)
            (known_by segmented (last_in self.now.lasts) self.now.last)) }
    {
        let numbers = known_numbers(alloc, segmented, &self.lasts, self.last)?;
        self.held_of(alloc, numbers.as_slice())
    }

    // A copy of the body that is held of each of these numbers, where one is.
    fn held_of(&self, alloc: Global, numbers: &[u8]) -> Result<NumberedBodies, AllocError>
        ensures { IfOk result (λ sections. sections ≡ held_by (λ n. body_in n self.now.held.entries) numbers.now) }
    {
        let mut sections = Vec::with_capacity(alloc, numbers.len())?;
        for i in 0..numbers.len() {
            let number = numbers[i];
            if let Some(held) = self.held.get(&number) {
                let body = Items::of(Vec::from_slice(alloc, held.as_slice())?);
                sections.push(NumberedBody { number, body })?;
            }
        }
        Ok(Items::of(sections))
    }
}

/// What a run has whole, it holds: where all needed sections are there, what is held is the content
/// that they complete.
pub fn whole_is_held()
    ensures { WholeIsHeld }
{}
