// network_name_descriptor.
ghost use Rattle.std.specs.Prelude.{◌≡◌, ◌≤◌, ◌++◌, length, Some, IfOk, OnOk, OnErr};
ghost use Rattle.guide_model.specs.Decoding.{shown_bytes};
ghost use Rattle.descriptors.specs.NetworkName.{network_name, network_name_in};

use crate::Coded;
use guide_model::{Shown, decode_text};
use si_base::put;
use std::alloc::{AllocError, Global};

/// descriptor_tag of a network_name_descriptor.
const TAG: u8 = 0x40;

/// Appends a network_name_descriptor (EN 300 468, 6.2.27). It needs a name of at most 255 bytes, so that the length fits its field.
/// Want of memory leaves `out` unchanged.
pub fn write_network_name(name: &Shown, out: &mut Vec<u8>) -> Result<(), AllocError>
    requires { length (shown_bytes name.now) ≤ 255 }
    ensures written { OnOk result (out.new.items ≡ out.old.items ++ network_name name.now) }
    ensures memory { OnErr result (out.new.items ≡ out.old.items) }
{
    let name = Coded::of_shown(name);
    out.reserve(2 + name.len())?;
    put(out, &[TAG]);
    name.put_with_length(out);
    Ok(())
}

/// The name of the body of a network_name_descriptor. Any body has one (EN 300 468, 6.2.27).
pub fn read_network_name(alloc: Global, body: &[u8]) -> Result<Option<Shown>, AllocError>
    ensures { IfOk result (λ read. read ≡ Some (network_name_in body.now)) }
{
    Ok(Some(decode_text(alloc, body)?))
}
