// Descriptors as text.
ghost use Rattle.std.specs.Prelude.{◌≡◌, ◌++◌, IfOk, OnOk, string_bytes};
ghost use Rattle.guide_model.specs.Descriptors.{descriptor_text, descriptors_text};

use crate::RawDesc;
use std::alloc::{AllocError, Global};

// A whole descriptor in hexadecimal digits.
fn digits_of(alloc: Global, desc: &RawDesc) -> Result<String, AllocError>
    ensures { IfOk result (λ digits. string_bytes digits ≡ descriptor_text desc.now) }
{
    let mut bytes = Vec::new(alloc);
    bytes.push(desc.tag)?;
    bytes.push((desc.body.len() % 256) as u8)?;
    bytes.extend_from_slice(desc.body.as_slice())?;
    hex::encode(alloc, &bytes)
}

/// Appends a whole descriptor, each of its bytes as two hexadecimal digits in lower case: descriptor_tag, descriptor_length
/// and its body (EN 300 468, 6.1).
pub fn put_descriptor(alloc: Global, out: &mut Vec<u8>, desc: &RawDesc) -> Result<(), AllocError>
    ensures { OnOk result (out.new.items ≡ out.old.items ++ descriptor_text desc.now) }
{
    let digits = digits_of(alloc, desc)?;
    out.extend_from_slice(digits.as_bytes())
}

/// Appends descriptors with single spaces between, each as [`put_descriptor`] appends it. Of none it appends nothing.
pub fn put_descriptors(
    alloc: Global,
    out: &mut Vec<u8>,
    descs: &[RawDesc],
) -> Result<(), AllocError>
    ensures { OnOk result (out.new.items ≡ out.old.items ++ descriptors_text descs.now) }
{
    let Some((first, rest)) = descs.split_first() else {
        return Ok(());
    };
    put_descriptor(alloc, out, first)?;
    for desc in rest {
        out.extend_from_slice(b" ")?;
        put_descriptor(alloc, out, desc)?;
    }
    Ok(())
}
