// service_descriptor.
ghost use Rattle.std.specs.Prelude.{◌≡◌, ◌+◌, ◌≤◌, ◌++◌, length, IfOk, OnOk, OnErr};
ghost use Rattle.guide_model.specs.Decoding.{shown_bytes};
ghost use Rattle.descriptors.specs.Service.{service_descriptor, service_in, service_written};

use crate::{Coded, behind_length, split_length};
use guide_model::{Shown, decode_text};
use si_base::put;
use std::alloc::{AllocError, Global};

/// What a service_descriptor holds: service_type, the provider of the service and its name (EN 300 468, 6.2.33).
#[derive(Drop)]
pub struct ServiceText {
    pub kind: u8,
    pub provider: Shown,
    pub name: Shown,
}

/// descriptor_tag of a service_descriptor.
const TAG: u8 = 0x48;

/// Appends a service_descriptor (EN 300 468, 6.2.33). It needs texts whose bytes are at most 252 together, so that the length fits its
/// field. Want of memory leaves `out` unchanged.
pub fn write_service(service: &ServiceText, out: &mut Vec<u8>) -> Result<(), AllocError>
    requires { length (shown_bytes service.now.provider) + length (shown_bytes service.now.name) ≤ 252 }
    ensures written { OnOk result (out.new.items ≡ out.old.items ++ service_descriptor service.now) }
    ensures memory { OnErr result (out.new.items ≡ out.old.items) }
{
    write_service_fields(service.kind, &service.provider, &service.name, out)
}

/// Appends the service_descriptor of a service_type, a provider and a name, with the needs and the memory of [`write_service`].
pub fn write_service_fields(
    kind: u8,
    provider: &Shown,
    name: &Shown,
    out: &mut Vec<u8>,
) -> Result<(), AllocError>
    requires { length (shown_bytes provider.now) + length (shown_bytes name.now) ≤ 252 }
    ensures written { OnOk result (out.new.items ≡ out.old.items ++ service_written kind provider.now name.now) }
    ensures memory { OnErr result (out.new.items ≡ out.old.items) }
{
    let provider = Coded::of_shown(provider);
    let name = Coded::of_shown(name);
    let len = 3 + provider.len() + name.len();
    out.reserve(2 + len)?;
    put(out, &[TAG, len as u8, kind]);
    provider.put_with_length(out);
    name.put_with_length(out);
    Ok(())
}

/// What the body of a service_descriptor says, or `None` exactly where a length runs past the end or bytes are left over
/// (EN 300 468, 6.2.33).
pub fn read_service(alloc: Global, body: &[u8]) -> Result<Option<ServiceText>, AllocError>
    ensures { IfOk result (λ read. read ≡ service_in body.now) }
{
    let [kind, behind @ ..] = body else {
        return Ok(None);
    };
    let Some((provider, behind)) = split_length(behind) else {
        return Ok(None);
    };
    let Some(name) = behind_length(behind) else {
        return Ok(None);
    };
    Ok(Some(ServiceText {
        kind: *kind,
        provider: decode_text(alloc, provider)?,
        name: decode_text(alloc, name)?,
    }))
}
