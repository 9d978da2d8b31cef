// Further descriptors as a text.
ghost use Rattle.std.specs.Prelude.{◌≡◌, IfOk};
ghost use Rattle.input_lines.specs.Groups.{descriptor_of, descriptor_in, descriptors_in};

use guide_model::{RawDesc, RawDescs};
use hex::FromHexError;
use si_base::Items;
use std::alloc::{AllocError, Global};

// The descriptor that bytes are, where they are just one.
fn descriptor_of(alloc: Global, bytes: &[u8]) -> Result<Option<RawDesc>, AllocError>
    ensures { IfOk result (λ found. found ≡ descriptor_of bytes.now) }
{
    let [tag, size, body @ ..] = bytes else {
        return Ok(None);
    };
    if body.len() != *size as usize {
        return Ok(None);
    }
    Ok(Some(RawDesc {
        tag: *tag,
        body: Items::of(Vec::from_slice(alloc, body)?),
    }))
}

// The descriptor of a group of hexadecimal digits.
fn descriptor_in(alloc: Global, group: &str) -> Result<Option<RawDesc>, AllocError>
    ensures { IfOk result (λ found. found ≡ descriptor_in group.now) }
{
    match hex::decode(alloc, group.as_bytes()) {
        Ok(bytes) => descriptor_of(alloc, bytes.as_slice()),
        Err(FromHexError::OutOfMemory) => Err(AllocError),
        Err(_) => Ok(None),
    }
}

/// The descriptors of a field: groups with one space between, each an even number of hexadecimal digits of either case that
/// spell a descriptor_tag, a descriptor_length and just so many bytes (ISO/IEC 13818-1, 2.6). `None` comes exactly where
/// the field is no such list.
pub fn descriptors_in(alloc: Global, field: &str) -> Result<Option<RawDescs>, AllocError>
    ensures { IfOk result (λ found. found ≡ descriptors_in field.now) }
{
    let mut descriptors = RawDescs::new(alloc);
    for group in field.split(' ') {
        let Some(descriptor) = descriptor_in(alloc, group)? else {
            return Ok(None);
        };
        descriptors.push(descriptor)?;
    }
    Ok(Some(descriptors))
}
