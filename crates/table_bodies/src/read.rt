// Loops of entries.
ghost use Rattle.std.specs.Prelude.{◌≡◌, ◌<◌, List, Option, ℕ, length, is_some, IfOk};
ghost use Rattle.guide_model.specs.declared.descriptor.RawDesc.{RawDesc};
ghost use Rattle.table_bodies.specs.Entries.{entries_in, value_in};

use crate::entry::{RawEntry, split_entry};
use guide_model::RawDescs;
use si_base::Items;
use std::alloc::{AllocError, Global};

/// A kind of entries: how many bytes their fields have, and what value an entry is read as. An entry may be refused.
pub trait EntryKind {
    /// What an entry is read as.
    type Value: Drop;

    /// How many bytes the fields of an entry have.
    const SIZE: usize;

    /// How many bytes the fields of an entry have.
    ghost SIZE: { ℕ };

    /// The value of fields and of descriptors; none where the fields have none.
    ghost value_of: { List ℕ → List RawDesc → Option Self.Value };

    /// What an entry with these descriptors is read as, or `None` where it is refused.
    fn read(
        alloc: Global,
        entry: &RawEntry,
        descs: RawDescs,
    ) -> Result<Option<Self::Value>, AllocError>
        requires { length entry.now.fields ≡ SIZE }
        ensures { IfOk result (λ value. value ≡ value_of entry.now.fields descs) };

    /// Whether an entry is not refused, whatever its descriptors. It takes no memory.
    fn is_read(entry: &RawEntry) -> bool
        requires { length entry.now.fields ≡ SIZE }
        ensures { (descs : List RawDesc) → result ≡ is_some (value_of entry.now.fields descs) };

    ghost is_narrow: { SIZE < 4096 };
}

/// The values of the entries that these bytes are, one after the other, or `None` exactly where they end within one, its descriptors
/// are no list, or it is refused.
pub fn read_entries<K: EntryKind>(
    alloc: Global,
    bytes: &[u8],
) -> Result<Option<Items<K::Value>>, AllocError>
    ensures { IfOk result (λ read. read ≡ entries_in K.SIZE K.value_of bytes.now) }
{
    let mut values = Vec::new(alloc);
    let mut rest = bytes;
    while !rest.is_empty() {
        let Some((entry, behind)) = split_entry(K::SIZE, rest) else {
            return Ok(None);
        };
        let Some(descs) = entry.descriptors(alloc)? else {
            return Ok(None);
        };
        let Some(value) = K::read(alloc, &entry, descs)? else {
            return Ok(None);
        };
        values.push(value)?;
        rest = behind;
    }
    Ok(Some(Items::of(values)))
}

/// Whether these bytes are entries, one after the other, as `read_entries` reads them. It takes no memory.
pub fn are_entries<K: EntryKind>(bytes: &[u8]) -> bool
    ensures { result ≡ is_some (entries_in K.SIZE K.value_of bytes.now) }
{
    let mut rest = bytes;
    while !rest.is_empty() {
        let Some((entry, behind)) = split_entry(K::SIZE, rest) else {
            return false;
        };
        if !has_value::<K>(&entry) {
            return false;
        }
        rest = behind;
    }
    true
}

// Whether an entry has a value.
fn has_value<K: EntryKind>(entry: &RawEntry) -> bool
    requires { length entry.now.fields ≡ K.SIZE }
    ensures { result ≡ is_some (value_in K.value_of entry.now) }
{
    K::is_read(entry) && entry.has_descriptors()
}
