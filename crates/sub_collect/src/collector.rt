// Completions, kept by key.
ghost use Rattle.std.specs.Prelude.{◌≡◌, ◌≤◌, ◌<◌, ◌+◌, ◌++◌, ◌∷◌, ◌↔◌, ℕ, [], List, map, Option, Some, None, Err, option_map, option_copied, IfOk, OnOk, OnErr, IsTrue, IfSome, MatchOption, ◌==◌, false, true};
ghost use Rattle.std.specs.Option.{option_or};
ghost use Rattle.std.specs.Ordering.{is_gt};
ghost use Rattle.std.specs.Map.{keys_of};
ghost use Rattle.section_codec.specs.declared.table.Key.{Key};
ghost use Rattle.section_codec.specs.KeyOrder.{is_key, key_cmp};
ghost use Rattle.sub_collect.specs.Runs.{Counted, counted, run_of};
ghost use Rattle.sub_collect.specs.Completions.{completion, shown_after};
ghost use Rattle.sub_collect.specs.Marks.{Taken, Taken.Took, Taken.Forgot, Taken.ForgotAll, latest_over, shown_over, run_over, sections_taken};
ghost use Rattle.sub_collect.specs.KeyCounts.{key_count, HaveTooManyKeys};
ghost use Rattle.sub_collect.specs.Collectors.{CollectorStandsFor, CollectorStandsOver, EachStandsFor, IsKeptOf, AreOfKey, IsHeldIn, IsRepeated, IsRepeatedOf, kept_in, forgotten, forgotten_if};
ghost use Rattle.sub_collect.specs.KeyWalk.{HasNoKeyAfter, IsNextKey, BeginsAfter};
ghost use Rattle.sub_collect.specs.Slots.{kept_by, shown, latest_with_done};
ghost use Rattle.sub_collect.specs.declared.completed.Completed.{Completed};

use crate::completed::Completed;
use crate::run::Run;
use section_codec::{Key, LongHeader};
use si_base::Bytes;
use std::alloc::{AllocError, Global};
use std::collections::BTreeMap;
use std::marker::Model;
use std::ops::Bound;

/// Why a section is not taken: a collector keeps sections of at most 65,536 keys, and this one would bring a key more; or memory was
/// wanting.
#[derive(Clone, Copy, PartialEq, Eq)]
pub enum TakeStop {
    TooMany,
    Memory,
}

// The most keys that have a section.
const MOST_KEYS: usize = 65_536;

/// What was heard of sub-tables. It stands for the counted sections that were taken, in the order in which
/// they ended, and the marks between them: it keeps, of each key, the latest bodies of the present run and
/// the latest completion. Contracts see it as these, in the order of the keys. It keeps its allocator.
#[derive(Drop)]
pub struct Collector {
    alloc: Global,
    pub(crate) slots: BTreeMap<Key, KeySlot>,
}

impl Model for Collector {
    ghost use Rattle.std.specs.BTreeMap.{IsOrdered};
    ghost use Rattle.section_codec.specs.KeyOrder.{key_cmp};
    ghost use Rattle.sub_collect.specs.Collectors.{KeysHeard};
    ghost use Rattle.sub_collect.specs.Slots.{shown};

    ghost Value = { KeysHeard };

    ghost view = { λ c. shown c.slots.entries };

    ghost invariant = { λ c. IsOrdered key_cmp c.slots };
}

// What is kept of a key: its present run, and its latest completion.
#[derive(Drop)]
pub struct KeySlot {
    pub run: Run,
    pub latest: Option<Completed>,
}

impl Collector {
    /// A collector that has heard nothing. It takes no memory.
    pub fn open(alloc: Global) -> Collector
        ensures none { result ≡ [] }
        ensures stands { CollectorStandsFor [] result }
    {
        Collector {
            alloc,
            slots: BTreeMap::new(alloc),
        }
    }

    /// Counts one section more of a key, and gives its version_number exactly where it shows a completion:
    /// where the run of the key, which is its sections since it last had another version_number, holds every
    /// number that it needs, and the version or the content that it has whole differs from the key's latest
    /// completion, or the key had none (ISO/IEC 13818-1, 2.4.4; EN 300 468, 5.1.1). It needs the numbers from 0 to
    /// this section's last_section_number; of a table with event information, of each segment up to that of
    /// last_section_number those up to the segment_last_section_number that the segment's latest section tells
    /// (EN 300 468, 5.2.4). The content has for each number the body that was heard last. `TooMany` comes exactly where no
    /// section of this key was taken before and 65,536 keys have one. After an `Err` the collector is as it was, and the
    /// section does not count.
    pub fn take(
        &mut self,
        key: Key,
        header: &LongHeader,
        body: Bytes,
    ) -> Result<Option<u8>, TakeStop>
        ensures shown { IfOk result (λ shown. (past : List Taken) → CollectorStandsOver past self.old
            → shown ≡ option_map (λ d. d.version) (shown_over past (counted key header.now body))) }
        ensures stands { OnOk result ((past : List Taken) → CollectorStandsOver past self.old
            → CollectorStandsOver (past ++ Took (counted key header.now body) ∷ []) self.new) }
        ensures too_many { (past : List Taken) → CollectorStandsOver past self.old
            → (result ≡ Err TakeStop.TooMany)
            ↔ HaveTooManyKeys (sections_taken past ++ counted key header.now body ∷ []) }
        ensures unchanged { OnErr result (self.new ≡ self.old) }
    {
        if self.lacks_room(key) {
            return Err(TakeStop::TooMany);
        }
        match self.count(key, header, body) {
            Ok(shown) => Ok(shown),
            Err(_) => Err(TakeStop::Memory),
        }
    }

    /// How many keys have a section. It takes no memory.
    pub fn keys(&self) -> usize
        ensures { (past : List Taken) → CollectorStandsOver past self.now
            → result ≡ key_count (sections_taken past) }
    {
        self.slots.len()
    }

    // Whether a section of this key would bring a key too many.
    fn lacks_room(&self, key: Key) -> bool
        ensures { (past : List Taken) (s : Counted) → s.key ≡ key → CollectorStandsOver past self.now
            → IsTrue result ↔ HaveTooManyKeys (sections_taken past ++ s ∷ []) }
    {
        self.slots.len() >= MOST_KEYS && !self.slots.contains_key(&key)
    }

    // Counts one section more of a key, whether there is room for the key or not.
    fn count(
        &mut self,
        key: Key,
        header: &LongHeader,
        body: Bytes,
    ) -> Result<Option<u8>, AllocError>
        ensures shown { IfOk result (λ shown. (past : List Taken) → EachStandsFor past self.old
            → shown ≡ option_map (λ d. d.version) (shown_over past (counted key header.now body))) }
        ensures stands { OnOk result ((past : List Taken) → EachStandsFor past self.old
            → EachStandsFor (past ++ Took (counted key header.now body) ∷ []) self.new) }
        ensures memory { OnErr result (self.new ≡ self.old) }
    {
        match self.slots.get_mut(&key) {
            Some(slot) => slot.take(self.alloc, key, header, body),
            None => {
                let mut slot = KeySlot::open(self.alloc, header.version);
                let shown = slot.take(self.alloc, key, header, body)?;
                self.slots.insert(key, slot)?;
                Ok(shown)
            }
        }
    }

    /// Whether a section of a key is held already: the run of the key has its version_number, its last_section_number,
    /// the last number of its segment that it tells, and its body under its number. To count it once more shows nothing,
    /// and the collector stands for it too. It takes no memory.
    pub fn repeats(&self, key: Key, header: &LongHeader, body: &[u8]) -> bool
        ensures held { (past : List Taken) → CollectorStandsOver past self.now
            → IsTrue result ↔ IsHeldIn (run_over key past) (counted key header.now body.now) }
        ensures repeated { result ≡ true → IsRepeated self.now (counted key header.now body.now) }
    {
        match self.slots.get(&key) {
            Some(slot) => slot.repeats(key, header, body),
            None => false,
        }
    }

    /// The latest completion of a key, or None where it never had one.
    pub fn latest(&self, key: Key) -> Option<&Completed>
        ensures latest { (past : List Taken) → CollectorStandsOver past self.now
            → option_copied result ≡ latest_over key past }
    {
        match self.slots.get(&key) {
            Some(slot) => slot.latest.as_ref(),
            None => None,
        }
    }

    /// Adds a mark of a PID: from here on the keys of the PID have no section, until one is taken. Their
    /// completions stay, and they still count as keys that have a section. It takes no memory, and its time
    /// is that of the keys of this PID.
    pub fn forget(&mut self, pid: u16)
        ensures kept { (k : Key) → kept_in k self.new
            ≡ forgotten_if (k.pid == pid) (kept_in k self.old) }
        ensures stands { (past : List Taken) → CollectorStandsOver past self.old
            → CollectorStandsOver (past ++ Forgot pid ∷ []) self.new }
    {
        let mut last = None;
        while let Some(key) = self.next_key(pid, last) {
            self.forget_key(key);
            last = Some(key);
        }
    }

    /// Adds a mark of every PID: from here on no key has a section, until one is taken. The completions of all
    /// keys stay, and they still count as keys that have a section. It takes no memory, and its time is that
    /// of all keys.
    pub fn forget_all(&mut self)
        ensures kept { (k : Key) → kept_in k self.new ≡ option_map forgotten (kept_in k self.old) }
        ensures stands { (past : List Taken) → CollectorStandsOver past self.old
            → CollectorStandsOver (past ++ ForgotAll ∷ []) self.new }
    {
        self.slots.retain(
            |_: &Key, slot: &mut KeySlot| -> bool
                ensures stays { result ≡ true }
                ensures forgets { kept_by slot.new ≡ forgotten (kept_by slot.old) }
            {
                slot.forget();
                true
            },
        );
    }

    // The first key of a PID after the last one that was met, or of all its keys. It takes no memory.
    fn next_key(&self, pid: u16, last: Option<Key>) -> Option<Key>
        requires { IfSome last (λ key. key.pid ≡ pid) }
        ensures { MatchOption result (HasNoKeyAfter pid last self.now) (IsNextKey pid last self.now) }
    {
        let start = start_after(pid, last);
        let (key, _) = self.slots.range((start, Bound::Unbounded)).next()?;
        if key.pid == pid { Some(*key) } else { None }
    }

    // Forgets the sections of a key. It takes no memory.
    fn forget_key(&mut self, key: Key)
        ensures kept { (k : Key) → kept_in k self.new ≡ forgotten_if (is_key key k) (kept_in k self.old) }
        ensures keys { keys_of self.new ≡ keys_of self.old }
    {
        if let Some(slot) = self.slots.get_mut(&key) {
            slot.forget();
        }
    }
}

// Where a range begins that has the keys of a PID after the last one that was met, or all its keys.
fn start_after(pid: u16, last: Option<Key>) -> Bound<Key>
    requires { IfSome last (λ key. key.pid ≡ pid) }
    ensures { BeginsAfter pid last result }
{
    match last {
        Some(key) => Bound::Excluded(key),
        None => Bound::Included(first_key(pid)),
    }
}

// The least key that a PID can have.
fn first_key(pid: u16) -> Key
    ensures pid { result.pid ≡ pid }
    ensures first { (k : Key) → k.pid ≡ pid → is_gt (key_cmp result k) ≡ false }
{
    Key {
        pid,
        table: 0,
        ext: 0,
        stream: 0,
        network: 0,
    }
}

impl KeySlot {
    // A slot of a key without a section. It takes no memory.
    fn open(alloc: Global, version: u8) -> KeySlot
        ensures stands { IsKeptOf [] None (kept_by result) }
    {
        KeySlot {
            run: Run::open(alloc, version),
            latest: None,
        }
    }

    // Forgets the sections of the key, and keeps its completion. It takes no memory.
    fn forget(&mut self)
        ensures { kept_by self.new ≡ forgotten (kept_by self.old) }
    {
        self.run.clear();
    }

    // Counts one section more of the key. A carousel repeats its sections for ever: what is held already
    // costs one comparison.
    fn take(
        &mut self,
        alloc: Global,
        key: Key,
        header: &LongHeader,
        body: Bytes,
    ) -> Result<Option<u8>, AllocError>
        ensures shown { IfOk result (λ shown. (heard : List Counted) (latest : Option Completed)
            → IsKeptOf heard latest (kept_by self.old) → AreOfKey key heard latest
            → let more = heard ++ counted key header.now body ∷ [] in
            shown ≡ option_map (λ d. d.version) (shown_after latest (completion more))) }
        ensures stands { OnOk result ((heard : List Counted) (latest : Option Completed)
            → IsKeptOf heard latest (kept_by self.old) → AreOfKey key heard latest
            → let more = heard ++ counted key header.now body ∷ [] in
            IsKeptOf more (option_or (completion more) latest) (kept_by self.new)) }
        ensures memory { OnErr result (kept_by self.new ≡ kept_by self.old) }
    {
        if self.repeats(key, header, body.as_slice()) {
            return Ok(None);
        }
        if self.run.version != header.version {
            let mut run = Run::open(alloc, header.version);
            let done = run.put(alloc, key, header, body)?;
            self.run = run;
            return Ok(show(&mut self.latest, done));
        }
        let done = self.run.put(alloc, key, header, body)?;
        Ok(show(&mut self.latest, done))
    }

    // Whether a section of the key is held already.
    fn repeats(&self, key: Key, header: &LongHeader, body: &[u8]) -> bool
        ensures held { (heard : List Counted) (latest : Option Completed)
            → IsKeptOf heard latest (kept_by self.now)
            → IsTrue result ↔ IsHeldIn (run_of heard) (counted key header.now body.now) }
        ensures repeated { result ≡ true
            → IsRepeatedOf (kept_by self.now) (counted key header.now body.now) }
    {
        self.run.version == header.version && self.run.repeats(key, header, body)
    }
}

// Keeps a completion, where there is one that differs from the latest, and gives its version.
fn show(latest: &mut Option<Completed>, done: Option<Completed>) -> Option<u8>
    ensures shown { result ≡ option_map (λ d. d.version) (shown_after latest.old done) }
    ensures latest { latest.new ≡ latest_with_done latest.old done }
{
    let done = done?;
    if let Some(before) = latest
        && before.is_repeated_by(&done)
    {
        return None;
    }
    let version = done.version;
    *latest = Some(done);
    Some(version)
}
