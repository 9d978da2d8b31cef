// Laws of the written and the read forms.
ghost use Rattle.table_bodies.specs.Laws.{EntriesAreRead};

use crate::read::EntryKind;

/// Bytes are read as values exactly where they are entries, one after the other, whose descriptors are lists and that are read as
/// these values.
pub fn entries_are_read<K: EntryKind>()
    ensures { EntriesAreRead K.SIZE K.value_of }
{}
