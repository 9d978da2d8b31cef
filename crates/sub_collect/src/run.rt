// The present run of a key: its sections of one version.
ghost use Rattle.std.specs.Prelude.{◌≡◌, ◌<◌, ◌≤◌, ◌+◌, ◌∷◌, ◌++◌, ◌==◌, ◌&&◌, [], List, ℕ, Option, Some, None, option_map, option_copied, IfOk, OnOk, OnErr, true, false};
ghost use Rattle.section_codec.specs.Tables.{is_eit};
ghost use Rattle.section_codec.specs.Contents.{numbers_from};
ghost use Rattle.section_codec.specs.Segments.{segment_of};
ghost use Rattle.sub_collect.specs.Runs.{Counted, counted, segment_last_of, whole};
ghost use Rattle.sub_collect.specs.Completions.{done_at};
ghost use Rattle.sub_collect.specs.Collectors.{StandsForRun, IsFront, body_in, last_in, cleared};
ghost use Rattle.sub_collect.specs.Slots.{kept_run, held_with, told_with, needed_by, is_body, same_last, content_by, whole_by};

use crate::completed::Completed;
use crate::needed::needed_numbers;
use section_codec::{Key, LongHeader, NumberedBodies, NumberedBody, is_eit, segment_last};
use si_base::{Bytes, Items};
use std::alloc::{AllocError, Global};
use std::collections::BTreeMap;

// The version of the run, the last_section_number of its latest section, the latest body of each number that
// it holds, how many numbers it holds from 0 on, and of each segment the last number that its latest section tells.
#[derive(Drop)]
pub struct Run {
    pub version: u8,
    pub last: u8,
    pub held: BTreeMap<u8, Bytes>,
    pub front: u16,
    pub lasts: [Option<u8>; 32],
}

impl Run {
    // A run of no section. It takes no memory.
    pub fn open(alloc: Global, version: u8) -> Run
        ensures version { result.version ≡ version }
        ensures stands { StandsForRun [] (kept_run result) }
    {
        Run {
            version,
            last: 0,
            held: BTreeMap::new(alloc),
            front: 0,
            lasts: [None; 32],
        }
    }

    // Forgets its sections. It takes no memory.
    pub fn clear(&mut self)
        ensures { kept_run self.new ≡ cleared (kept_run self.old) }
    {
        self.held.clear();
        self.last = 0;
        self.front = 0;
        self.lasts = [None; 32];
    }

    // Puts one section more of the version of the run, and gives what it completes. Where memory is wanting,
    // the run stays as it was.
    pub fn put(
        &mut self,
        alloc: Global,
        key: Key,
        header: &LongHeader,
        body: Bytes,
    ) -> Result<Option<Completed>, AllocError>
        requires { header.now.version ≡ self.old.version }
        ensures version { self.new.version ≡ self.old.version }
        ensures done { IfOk result (λ done. (run : List Counted) → StandsForRun run (kept_run self.old)
            → done ≡ option_map (done_at (counted key header.now body)) (whole (run ++ counted key header.now body ∷ []))) }
        ensures stands { OnOk result ((run : List Counted) → StandsForRun run (kept_run self.old)
            → StandsForRun (run ++ counted key header.now body ∷ []) (kept_run self.new)) }
        ensures memory { OnErr result (kept_run self.new ≡ kept_run self.old) }
    {
        // Without segments the bodies are walked only where no number is missing. Nothing changes before all memory
        // is had.
        let told = last_told_by(key, header, body.as_slice());
        let front = self.front_with(header.number);
        let done = if is_eit(key.table) || u16::from(header.last) < front {
            self.whole_with(alloc, key, header, body.as_slice(), told)?
        } else {
            None
        };
        self.held.insert(header.number, body)?;
        self.front = front;
        self.last = header.last;
        self.lasts[usize::from(header.number / 8)] = told;
        Ok(done)
    }

    // Whether a section of the version of the run has the last_section_number and the body that are kept, and tells
    // the last number of its segment that is kept.
    pub fn repeats(&self, key: Key, header: &LongHeader, body: &[u8]) -> bool
        ensures { result ≡ (self.now.last == header.now.last && same_last (last_in self.now.lasts (segment_of header.now.number)) (segment_last_of (counted key header.now body.now))
            && is_body (body_in header.now.number self.now.held.entries) body.now) }
    {
        self.last == header.last
            && same_last(
                self.lasts[usize::from(header.number / 8)],
                last_told_by(key, header, body),
            )
            && self.has_body(header.number, body)
    }

    // Whether this body is held of a number.
    fn has_body(&self, number: u8, body: &[u8]) -> bool
        ensures { result ≡ is_body (body_in number self.now.held.entries) body.now }
    {
        match self.held.get(&number) {
            Some(held) => held.as_slice() == body,
            None => false,
        }
    }

    // How many numbers from 0 on are held once this number is. Each number is passed once in a run.
    fn front_with(&self, number: u8) -> u16
        ensures { IsFront (λ n. body_in n self.now.held.entries) self.now.front → (body : List ℕ)
            → IsFront (held_with (λ n. body_in n self.now.held.entries) number body) result }
    {
        if u16::from(number) != self.front {
            return self.front;
        }
        let mut front = self.front + 1;
        while front < 256 && self.held.contains_key(&(front as u8)) {
            front += 1;
        }
        front
    }

    // What the run completes once a section is put, which tells this last number of its segment: a copy of each body,
    // or None where one is missing.
    fn whole_with(
        &self,
        alloc: Global,
        key: Key,
        header: &LongHeader,
        body: &[u8],
        told: Option<u8>,
    ) -> Result<Option<Completed>, AllocError>
        ensures { IfOk result (λ done. done ≡ option_map (done_at (counted key header.now body.now))
            (whole_by (held_with (λ n. body_in n self.now.held.entries) header.now.number body.now)
            (needed_by (is_eit key.table) (told_with (last_in self.now.lasts) header.now.number told) header.now.last))) }
    {
        let mut lasts = self.lasts;
        lasts[usize::from(header.number / 8)] = told;
        let Some(needed) = needed_numbers(alloc, is_eit(key.table), &lasts, header.last)? else {
            return Ok(None);
        };
        if self.misses(needed.as_slice(), header.number) {
            return Ok(None);
        }
        match self.bodies_with(alloc, needed.as_slice(), header.number, body)? {
            Some(sections) => Ok(Some(Completed {
                key,
                version: header.version,
                sections,
            })),
            None => Ok(None),
        }
    }

    // Whether one of these numbers is missing once this number is put. The first that is missing ends the walk.
    fn misses(&self, numbers: &[u8], put: u8) -> bool
        ensures { (body : List ℕ) → result ≡ true → content_by (held_with (λ n. body_in n self.now.held.entries) put body) numbers.now ≡ None }
    {
        for i in 0..numbers.len() {
            if numbers[i] != put && !self.held.contains_key(&numbers[i]) {
                return true;
            }
        }
        false
    }

    // Of each of these numbers a copy of the body that is held of it once this body is put under that one, or None
    // where one is missing.
    fn bodies_with(
        &self,
        alloc: Global,
        numbers: &[u8],
        put: u8,
        body: &[u8],
    ) -> Result<Option<NumberedBodies>, AllocError>
        ensures { IfOk result (λ sections. sections ≡ content_by (held_with (λ n. body_in n self.now.held.entries) put body.now) numbers.now) }
    {
        let mut sections = Vec::with_capacity(alloc, numbers.len())?;
        for i in 0..numbers.len() {
            let number = numbers[i];
            let Some(held) = self.body_with(number, put, body) else {
                return Ok(None);
            };
            let body = Items::of(Vec::from_slice(alloc, held)?);
            sections.push(NumberedBody { number, body })?;
        }
        Ok(Some(Items::of(sections)))
    }

    // The body that is held of a number once this body is put under that one.
    fn body_with<'a>(&'a self, number: u8, put: u8, body: &'a [u8]) -> Option<&'a [u8]>
        ensures { option_map (λ b. b.now) result ≡ held_with (λ n. body_in n self.now.held.entries) put body.now number }
    {
        if number == put {
            return Some(body);
        }
        match self.held.get(&number) {
            Some(held) => Some(held.as_slice()),
            None => None,
        }
    }
}

// The last number of its own segment that a section of an event information table tells; those of other tables
// tell none.
fn last_told_by(key: Key, header: &LongHeader, body: &[u8]) -> Option<u8>
    ensures { result ≡ segment_last_of (counted key header.now body.now) }
{
    if is_eit(key.table) {
        segment_last(header, body)
    } else {
        None
    }
}

// Whether two sections tell the same.
fn same_last(a: Option<u8>, b: Option<u8>) -> bool
    ensures { result ≡ same_last a b }
{
    match (a, b) {
        (Some(a), Some(b)) => a == b,
        (None, None) => true,
        _ => false,
    }
}
