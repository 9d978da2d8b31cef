// The first descriptor of a kind.
ghost use Rattle.std.specs.Prelude.{◌≡◌, List, Bool, Option, ℕ, IfOk, OnOk};
ghost use Rattle.descriptors.specs.First.{first_in, said_by, without_first};

use guide_model::RawDesc;
use std::alloc::{AllocError, Global};

/// A kind of descriptors: its descriptor_tag, what a body is read as, and whether that shows a body whole.
pub trait DescriptorKind {
    /// What a body is read as.
    type Value: Drop;

    /// descriptor_tag.
    const TAG: u8;

    /// descriptor_tag.
    ghost TAG: { ℕ };

    /// The value of a body; none where it does not fit.
    ghost value_of: { List ℕ → Option Self.Value };

    /// Whether the value of a body shows all of it.
    ghost shows: { List ℕ → Bool };

    /// The value of a body, or `None` exactly where it does not fit.
    fn read(alloc: Global, body: &[u8]) -> Result<Option<Self::Value>, AllocError>
        ensures { IfOk result (λ value. value ≡ value_of body.now) };

    /// Whether the value of a body shows all of it. It takes no memory.
    fn is_whole(body: &[u8]) -> bool
        ensures { result ≡ shows body.now };
}

// What a descriptor says, if it is of this kind and its body fits.
fn said_by<K: DescriptorKind>(alloc: Global, desc: &RawDesc) -> Result<Option<K::Value>, AllocError>
    ensures { IfOk result (λ value. value ≡ said_by K.TAG K.value_of desc.now) }
{
    if desc.tag == K::TAG {
        K::read(alloc, desc.body.as_slice())
    } else {
        Ok(None)
    }
}

/// What the first descriptor of this kind says whose body fits. It is taken out of the list where its value shows all
/// of it. Want of memory changes nothing.
pub fn take_first<K: DescriptorKind>(
    alloc: Global,
    descs: &mut Vec<RawDesc>,
) -> Result<Option<K::Value>, AllocError>
    ensures value { IfOk result (λ value. value ≡ first_in K.TAG K.value_of descs.old.items) }
    ensures rest { OnOk result (descs.new.items ≡ without_first K.TAG K.value_of K.shows descs.old.items) }
{
    for place in 0..descs.len() {
        if let Some(value) = said_by::<K>(alloc, &descs[place])? {
            if K::is_whole(descs[place].body.as_slice()) {
                descs.remove(place);
            }
            return Ok(Some(value));
        }
    }
    Ok(None)
}
