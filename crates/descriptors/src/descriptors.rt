// Descriptors, one after the other.
ghost use Rattle.std.specs.Prelude.{◌≡◌, ◌≤◌, ◌++◌, List, IfOk, IfSome, IfNone, OnOk};
ghost use Rattle.std.specs.List.{All};
ghost use Rattle.si_base.specs.Room.{Appended, HasRoom};
ghost use Rattle.guide_model.specs.Descriptors.{FitsDescriptor, descriptors_size};
ghost use Rattle.guide_model.specs.declared.descriptor.RawDesc.{RawDesc};
ghost use Rattle.descriptors.specs.Descriptors.{AreDescriptors, descriptor_bytes, descriptors_bytes};

use guide_model::{RawDesc, RawDescs};
use si_base::{Items, put};
use std::alloc::{AllocError, Global};

/// The descriptors that these bytes are, in order, or `None` exactly where a descriptor_length runs past the end or
/// is missing (EN 300 468, 6.1).
pub fn read_descriptors(alloc: Global, bytes: &[u8]) -> Result<Option<RawDescs>, AllocError>
    ensures some { IfOk result (λ read. IfSome read (λ descs. AreDescriptors bytes.now descs)) }
    ensures none { IfOk result (λ read. IfNone read ((descs : List RawDesc) → ¬ AreDescriptors bytes.now descs)) }
{
    let mut descs = Vec::new(alloc);
    let mut rest = bytes;
    while let [tag, len, behind @ ..] = rest {
        let len = *len as usize;
        if behind.len() < len {
            return Ok(None);
        }
        let (body, after) = behind.split_at(len);
        let body = Items::of(Vec::from_slice(alloc, body)?);
        descs.push(RawDesc { tag: *tag, body })?;
        rest = after;
    }
    if !rest.is_empty() {
        return Ok(None);
    }
    Ok(Some(Items::of(descs)))
}

/// Appends descriptors in their order (EN 300 468, 6.1). Each needs a body of at most 255 bytes, so that its length fits its field.
/// Want of memory may leave a part of them.
pub fn write_descriptors(descs: &[RawDesc], out: &mut Vec<u8>) -> Result<(), AllocError>
    requires { All FitsDescriptor descs.now }
    ensures { OnOk result (out.new.items ≡ out.old.items ++ descriptors_bytes descs.now) }
{
    for desc in descs {
        write_descriptor(desc, out)?;
    }
    Ok(())
}

// Appends a descriptor; want of memory may leave a part of it.
fn write_descriptor(desc: &RawDesc, out: &mut Vec<u8>) -> Result<(), AllocError>
    requires { FitsDescriptor desc.now }
    ensures { OnOk result (out.new.items ≡ out.old.items ++ descriptor_bytes desc.now) }
{
    out.extend_from_slice(&[desc.tag, desc.body.len() as u8])?;
    out.extend_from_slice(desc.body.as_slice())
}

/// Appends descriptors to a buffer that has room for them.
pub(crate) fn put_descriptors(descs: &[RawDesc], out: &mut Vec<u8>)
    requires bodies { All FitsDescriptor descs.now }
    requires room { HasRoom out.old (descriptors_size descs.now) }
    ensures { Appended out.old out.new (descriptors_bytes descs.now) }
{
    for desc in descs {
        put(out, &[desc.tag, desc.body.len() as u8]);
        put(out, desc.body.as_slice());
    }
}

/// How many bytes descriptors have. It needs a loop of descriptors that fits its length of 12 bits, and takes no memory.
pub fn descriptors_len(descs: &[RawDesc]) -> usize
    requires { descriptors_size descs.now ≤ 4095 }
    ensures { result ≡ descriptors_size descs.now }
{
    let mut len = 0;
    for desc in descs {
        len += 2 + desc.body.len();
    }
    len
}
