// The lines of further descriptors.
ghost use Rattle.std.specs.Prelude.{◌≡◌, ◌++◌, OnOk, flat_map};
ghost use Rattle.guide_text.specs.Guides.{descriptor_line, details_text};

use guide_model::RawDesc;
use std::alloc::{AllocError, Global};

// Appends the line of a descriptor, which begins with this word.
fn put_descriptor(
    alloc: Global,
    out: &mut Vec<u8>,
    word: &[u8],
    desc: &RawDesc,
) -> Result<(), AllocError>
    ensures { OnOk result (out.new.items ≡ out.old.items ++ descriptor_line word.now desc.now) }
{
    out.extend_from_slice(word)?;
    out.extend_from_slice(b"\t")?;
    guide_model::put_descriptor(alloc, out, desc)?;
    out.extend_from_slice(b"\n")
}

// Appends the lines of descriptors, which begin with this word.
fn put_descriptors(
    alloc: Global,
    out: &mut Vec<u8>,
    word: &[u8],
    descs: &[RawDesc],
) -> Result<(), AllocError>
    ensures { OnOk result (out.new.items ≡ out.old.items ++ flat_map (descriptor_line word.now) descs.now) }
{
    for desc in descs {
        put_descriptor(alloc, out, word, desc)?;
    }
    Ok(())
}

/// Appends with details a line for each of these descriptors, which begins with this word; without details nothing.
pub fn put_details(
    alloc: Global,
    out: &mut Vec<u8>,
    details: bool,
    word: &[u8],
    descs: &[RawDesc],
) -> Result<(), AllocError>
    ensures { OnOk result (out.new.items ≡ out.old.items ++ details_text details word.now descs.now) }
{
    if details {
        put_descriptors(alloc, out, word, descs)
    } else {
        Ok(())
    }
}
