// Versions, kept by key.
ghost use Rattle.std.specs.Prelude.{◌≡◌, ◌≢◌, ◌<◌, ◌+◌, ◌%◌, ◌++◌, ◌∷◌, ℕ, [], List, map, length, Option, Some, None, option_map, option_copied, IsSome, IfOk, OnOk, OnErr, All, if◌then◌else◌};
ghost use Rattle.std.specs.BTreeMap.{get, IsOrdered};
ghost use Rattle.section_codec.specs.KeyOrder.{is_key, key_cmp};
ghost use Rattle.version_book.specs.Airings.{AiredTables, CycleForm};
ghost use Rattle.section_codec.specs.SubTables.{KeysDiffer};
ghost use Rattle.section_codec.specs.declared.table.Key.{Key};
ghost use Rattle.version_book.specs.Book.{BookStandsFor, AreKeyVersionsOf, aired, versions_of, given_in, given_entry, given_entries};
ghost use Rattle.version_book.specs.Slots.{kept_by, held_at, kept_at, with_kept, shown, next_version, changed_content, version_given, content_given, HasSlot, given_after};

use crate::content::copy;
use crate::key_version::{KeyVersion, KeyVersions};
use crate::last_version::{LastVersion, LastVersions};
use section_codec::{Key, NumberedBodies, NumberedBody, SubTable, Tables, same_content};
use si_base::{Bytes, Items};
use std::alloc::{AllocError, Global};
use std::collections::BTreeMap;
use std::marker::Model;

/// The versions of sub-tables. It stands for the airings that were assigned: it keeps, of each key that
/// an airing ever carried, the version and the content that the key was last given. Contracts see it as
/// these, in the order of the keys. It keeps its allocator.
#[derive(Drop)]
pub struct VersionBook {
    alloc: Global,
    slots: LastVersions,
}

impl Model for VersionBook {
    ghost use Rattle.section_codec.specs.KeyOrder.{key_cmp};
    ghost use Rattle.std.specs.BTreeMap.{IsOrdered};
    ghost use Rattle.version_book.specs.Book.{GivenVersions};
    ghost use Rattle.version_book.specs.Slots.{shown};

    ghost Value = { GivenVersions };

    ghost view = { λ b. shown b.slots.entries };

    ghost invariant = { λ b. IsOrdered key_cmp b.slots };
}

impl VersionBook {
    /// A book that stands for no airing. It takes no memory.
    pub fn open(alloc: Global) -> VersionBook
        ensures none { result ≡ [] }
        ensures stands { BookStandsFor [] result }
    {
        VersionBook {
            alloc,
            slots: BTreeMap::new(alloc),
        }
    }

    /// A book that goes on from these keys, whose versions are below 32: it stands for each airing
    /// list that leaves just them, each with this version and this content. A key that stands among
    /// them again has what it has first. AllocError comes where memory is wanting.
    pub fn of(alloc: Global, kept: KeyVersions) -> Result<VersionBook, AllocError>
        requires { All (λ k. k.version < 32) kept }
        ensures keeps { IfOk result (λ book.
            (k : Key) → given_in k book ≡ given_in k (given_entries kept)) }
        ensures stands { IfOk result (λ book.
            (past : List AiredTables) → BookStandsFor past (given_entries kept)
            → BookStandsFor past book) }
    {
        let mut slots = BTreeMap::new(alloc);
        let mut list = kept.into_vec();
        while let Some(last) = list.pop() {
            keep(&mut slots, last)?;
        }
        Ok(VersionBook { alloc, slots })
    }

    /// Each key that an airing carried, or that was handed in by `of`, with its last version and
    /// content, in ascending order of keys: from these `of` goes on. AllocError comes where memory
    /// is wanting.
    pub fn kept(&self) -> Result<KeyVersions, AllocError>
        ensures { IfOk result (λ kept. AreKeyVersionsOf self.now kept) }
    {
        let mut kept = Items::new(self.alloc);
        for (key, slot) in self.slots.iter() {
            copy_slot(self.alloc, &mut kept, *key, slot)?;
        }
        Ok(kept)
    }

    /// Airs these sub-tables: the version_number of each of them, in order (ISO/IEC 13818-1, 2.4.4.5;
    /// EN 300 468, 5.1.1). A key that was never aired before gets 0. A key whose content equals the
    /// content that it was last aired with keeps its version, and otherwise gets its last version plus
    /// 1, modulo 32. A key that is missing keeps what it had. No two sub-tables may have one key. Where
    /// memory is wanting, the book stays as it was.
    pub fn assign(&mut self, tables: &Tables) -> Result<Bytes, AllocError>
        requires { KeysDiffer tables.now.list }
        ensures versions { IfOk result (λ versions. (past : List AiredTables) (moment : ℕ) (form : CycleForm) → BookStandsFor past self.old
            → versions ≡ versions_of past tables.now.list moment form) }
        ensures stands { OnOk result ((past : List AiredTables) (moment : ℕ) (form : CycleForm) → BookStandsFor past self.old
            → BookStandsFor (past ++ aired tables.now.list moment form ∷ []) self.new) }
        ensures small { IfOk result (λ versions. All (λ v. v < 32) versions) }
        ensures each { IfOk result (λ versions. length versions ≡ length tables.now.list) }
        ensures memory { OnErr result (self.new ≡ self.old) }
    {
        let tables = tables.list.as_slice();
        let Plan { versions, changes } = planned(self.alloc, &mut self.slots, tables)?;
        settle(&mut self.slots, tables, &versions, changes);
        Ok(Items::of(versions))
    }
}

// What is held of a key.
fn held_of(slots: &LastVersions, key: Key) -> Option<&LastVersion>
    ensures { option_copied result ≡ held_at slots.now key }
{
    match slots.get(&key) {
        Some(Some(held)) => Some(held),
        _ => None,
    }
}

// The version of the next content of a key, and the content to be held where it is not the last one.
fn next(
    alloc: Global,
    held: Option<&LastVersion>,
    content: &[NumberedBody],
) -> Result<(u8, Option<NumberedBodies>), AllocError>
    ensures version { IfOk result (λ next. next.0 ≡ next_version (option_map kept_by (option_copied held.entry)) content.now) }
    ensures change { IfOk result (λ next. next.1 ≡ changed_content (option_map kept_by (option_copied held.entry)) content.now) }
    ensures small { IfOk result (λ next. next.0 < 32) }
{
    match held {
        Some(held) if same_content(held.content.as_slice(), content) => Ok((held.version, None)),
        Some(held) => Ok(((held.version + 1) % 32, Some(copy(alloc, content)?))),
        None => Ok((0, Some(copy(alloc, content)?))),
    }
}

// Appends a copy of what a slot holds, if it holds something.
fn copy_slot(
    alloc: Global,
    kept: &mut KeyVersions,
    key: Key,
    slot: &Option<LastVersion>,
) -> Result<(), AllocError>
    ensures entries { OnOk result (given_entries kept.new ≡ given_entries kept.old ++ with_kept key slot.now []) }
    ensures small { OnOk result (All (λ k. k.version < 32) kept.old → All (λ k. k.version < 32) kept.new) }
{
    if let Some(held) = slot {
        let version = held.version;
        let sections = copy(alloc, held.content.as_slice())?;
        kept.push(KeyVersion {
            key,
            version,
            sections,
        })?;
    }
    Ok(())
}

// Keeps a version and a content of a key, in place of what was kept of it.
fn keep(slots: &mut LastVersions, kept: KeyVersion) -> Result<(), AllocError>
    requires ordered { IsOrdered key_cmp slots.old }
    requires small { kept.version < 32 }
    ensures kept { OnOk result ((q : Key) → kept_at slots.new q
        ≡ (if is_key q kept.key then Some (given_entry kept).1 else kept_at slots.old q)) }
    ensures ordered { IsOrdered key_cmp slots.new }
{
    let KeyVersion {
        key,
        version,
        sections,
    } = kept;
    let held = LastVersion {
        version,
        content: sections,
    };
    slots.insert(key, Some(held))?;
    Ok(())
}

// Makes a slot for a key that has none.
fn make_slot(slots: &mut LastVersions, key: Key) -> Result<(), AllocError>
    requires { IsOrdered key_cmp slots.old }
    ensures made { OnOk result (IsSome (get key_cmp slots.new key)) }
    ensures stay { (q : Key) → IsSome (get key_cmp slots.old q) → IsSome (get key_cmp slots.new q) }
    ensures held { (q : Key) → held_at slots.new q ≡ held_at slots.old q }
    ensures shown { shown slots.new.entries ≡ shown slots.old.entries }
    ensures ordered { IsOrdered key_cmp slots.new }
{
    if !slots.contains_key(&key) {
        slots.insert(key, None)?;
    }
    Ok(())
}

// Fills the slot of a key. It takes no memory.
fn fill(slots: &mut LastVersions, key: Key, held: LastVersion)
    requires { IsSome (get key_cmp slots.old key) }
    ensures put { (q : Key) → get key_cmp slots.new q ≡ (if is_key key q then Some (Some held) else get key_cmp slots.old q) }
    ensures ordered { IsOrdered key_cmp slots.new }
{
    if let Some(slot) = slots.get_mut(&key) {
        *slot = Some(held);
    }
}

// The versions of sub-tables, and the contents to be held where they are not the last ones.
#[derive(Drop)]
struct Plan {
    versions: Vec<u8>,
    changes: Vec<Option<NumberedBodies>>,
}

// Plans what sub-tables are given, and makes their slots. It takes all the memory that giving wants.
fn planned(alloc: Global, slots: &mut LastVersions, tables: &[SubTable]) -> Result<Plan, AllocError>
    requires { IsOrdered key_cmp slots.old }
    ensures versions { IfOk result (λ plan. plan.versions.items ≡ map (version_given slots.old) tables.now) }
    ensures changes { IfOk result (λ plan. plan.changes.items ≡ map (content_given slots.old) tables.now) }
    ensures small { IfOk result (λ plan. All (λ v. v < 32) plan.versions.items) }
    ensures made { OnOk result (All (HasSlot slots.new) tables.now) }
    ensures held { (q : Key) → held_at slots.new q ≡ held_at slots.old q }
    ensures shown { shown slots.new.entries ≡ shown slots.old.entries }
    ensures ordered { IsOrdered key_cmp slots.new }
{
    let mut versions = Vec::with_capacity(alloc, tables.len())?;
    let mut changes = Vec::with_capacity(alloc, tables.len())?;
    for table in tables {
        let held = held_of(slots, table.key);
        let (version, change) = next(alloc, held, table.sections.as_slice())?;
        versions.push(version)?;
        changes.push(change)?;
        make_slot(slots, table.key)?;
    }
    Ok(Plan { versions, changes })
}

// Gives sub-tables what was planned. It takes no memory.
fn settle(
    slots: &mut LastVersions,
    tables: &[SubTable],
    versions: &[u8],
    mut changes: Vec<Option<NumberedBodies>>,
)
    requires differ { KeysDiffer tables.now }
    requires made { All (HasSlot slots.old) tables.now }
    requires versions { versions.now ≡ map (version_given slots.old) tables.now }
    requires small { All (λ v. v < 32) versions.now }
    requires changes { changes.items ≡ map (content_given slots.old) tables.now }
    requires ordered { IsOrdered key_cmp slots.old }
    ensures kept { (q : Key) → kept_at slots.new q ≡ given_after (kept_at slots.old) tables.now q }
    ensures ordered { IsOrdered key_cmp slots.new }
{
    while let Some(change) = changes.pop() {
        let at = changes.len();
        if let Some(content) = change {
            let version = versions[at];
            fill(slots, tables[at].key, LastVersion { version, content });
        }
    }
}
