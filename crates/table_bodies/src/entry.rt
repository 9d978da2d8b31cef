// An entry at the front of bytes.
ghost use Rattle.std.specs.Prelude.{◌≡◌, ◌+◌, ◌<◌, length, slice_index, is_some, option_map, IfOk, IfSome};
ghost use Rattle.si_base.specs.Fields.{two_at};
ghost use Rattle.table_bodies.specs.Entries.{EntryParts, descriptors_in, split_in};

use descriptors::read_descriptors;
use guide_model::RawDescs;
use std::alloc::{AllocError, Global};
use std::marker::Model;

/// An entry as it stands in a loop: its fields and its descriptors, which are not read yet. Contracts see it as `EntryParts`.
#[derive(Drop)]
pub struct RawEntry<'a> {
    fields: &'a [u8],
    descriptors: &'a [u8],
}

impl<'a> Model for RawEntry<'a> {
    ghost use Rattle.table_bodies.specs.Entries.{EntryParts};

    ghost Value = { EntryParts };

    ghost view = { λ e. record { fields = e.fields.now; descriptors = e.descriptors.now } };
}

impl<'a> RawEntry<'a> {
    /// The byte of its fields at a place.
    pub fn byte(&self, place: usize) -> u8
        requires { place < length self.now.fields }
        ensures { result ≡ slice_index self.now.fields place }
    {
        self.fields[place]
    }

    /// The 16 bits of its fields from a place on, counted in bytes.
    pub fn two(&self, place: usize) -> u16
        requires { place + 1 < length self.now.fields }
        ensures { result ≡ two_at place self.now.fields }
    {
        u16::from_be_bytes([self.fields[place], self.fields[place + 1]])
    }

    /// Its descriptors, or `None` exactly where one runs past their end.
    pub fn descriptors(&self, alloc: Global) -> Result<Option<RawDescs>, AllocError>
        ensures { IfOk result (λ read. read ≡ descriptors_in self.now.descriptors) }
    {
        descriptors_of(alloc, self.descriptors)
    }

    /// Whether its descriptors are a list, of which none runs past their end. It takes no memory.
    pub fn has_descriptors(&self) -> bool
        ensures { result ≡ is_some (descriptors_in self.now.descriptors) }
    {
        are_descriptors(self.descriptors)
    }
}

// The descriptors that bytes are.
fn descriptors_of(alloc: Global, bytes: &[u8]) -> Result<Option<RawDescs>, AllocError>
    ensures { IfOk result (λ read. read ≡ descriptors_in bytes.now) }
{
    read_descriptors(alloc, bytes)
}

// Whether bytes are descriptors.
fn are_descriptors(bytes: &[u8]) -> bool
    ensures { result ≡ is_some (descriptors_in bytes.now) }
{
    let mut rest = bytes;
    while let [_tag, len, behind @ ..] = rest {
        let len = usize::from(*len);
        if behind.len() < len {
            return false;
        }
        rest = &behind[len..];
    }
    rest.is_empty()
}

/// The entry at the front of these bytes whose fields have `size` bytes, and what follows it; `None` exactly where the bytes end
/// within it. The four bits before its length may have any value. It takes no memory.
pub fn split_entry(size: usize, bytes: &[u8]) -> Option<(RawEntry<'_>, &[u8])>
    requires { size < 4096 }
    ensures parts { option_map (λ parts. (parts.0, parts.1.now)) result ≡ split_in size bytes.now }
    ensures fields { IfSome result (λ parts. length parts.0.fields ≡ size) }
    ensures less { IfSome result (λ parts. length parts.1.now < length bytes.now) }
{
    if bytes.len() < size + 2 {
        return None;
    }
    let (fields, behind) = bytes.split_at(size);
    let (length, behind) = behind.split_at(2);
    let len = usize::from(u16::from_be_bytes([length[0], length[1]]) % 4096);
    if behind.len() < len {
        return None;
    }
    let (descriptors, rest) = behind.split_at(len);
    let entry = RawEntry {
        fields,
        descriptors,
    };
    Some((entry, rest))
}
