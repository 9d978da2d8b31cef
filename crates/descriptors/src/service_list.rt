// service_list_descriptor.
ghost use Rattle.std.specs.Prelude.{◌≡◌, ◌*◌, ◌≤◌, ◌++◌, length, IfOk, OnOk, OnErr, ◌+◌};
ghost use Rattle.si_base.specs.Room.{Appended, HasRoom};
ghost use Rattle.descriptors.specs.ServiceList.{service_list, service_list_in};

use si_base::{Copies, Items, put};
use std::alloc::{AllocError, Global};

/// A service and its service_type (EN 300 468, 6.2.33).
#[derive(Clone, Copy, PartialEq, Eq)]
pub struct ServiceKind {
    pub service: u16,
    pub kind: u8,
}

/// Services in the order in which they stand.
pub type ServiceKinds = Items<ServiceKind>;

impl Copies for ServiceKind {
    fn copy(&self) -> Result<ServiceKind, AllocError> {
        Ok(*self)
    }
}

/// descriptor_tag of a service_list_descriptor.
const TAG: u8 = 0x41;

/// Appends a service_list_descriptor (EN 300 468, 6.2.35). It needs at most 85 services, so that the length fits its field. Want of
/// memory leaves `out` unchanged.
pub fn write_service_list(services: &[ServiceKind], out: &mut Vec<u8>) -> Result<(), AllocError>
    requires { 3 * length services.now ≤ 255 }
    ensures written { OnOk result (out.new.items ≡ out.old.items ++ service_list services.now) }
    ensures memory { OnErr result (out.new.items ≡ out.old.items) }
{
    out.reserve(2 + 3 * services.len())?;
    put_service_list(services, out);
    Ok(())
}

// Appends it to a buffer that has room for it.
fn put_service_list(services: &[ServiceKind], out: &mut Vec<u8>)
    requires length { 3 * length services.now ≤ 255 }
    requires room { HasRoom out.old (2 + 3 * length services.now) }
    ensures { Appended out.old out.new (service_list services.now) }
{
    put(out, &[TAG, 3 * services.len() as u8]);
    for service in services {
        put(out, &service.service.to_be_bytes());
        put(out, &[service.kind]);
    }
}

/// The services of the body of a service_list_descriptor, or `None` exactly where it ends within an entry (EN 300 468, 6.2.35).
pub fn read_service_list(alloc: Global, body: &[u8]) -> Result<Option<ServiceKinds>, AllocError>
    ensures { IfOk result (λ read. read ≡ service_list_in body.now) }
{
    let mut services = Vec::with_capacity(alloc, body.len() / 3)?;
    let mut rest = body;
    while let [high, low, kind, behind @ ..] = rest {
        services.push(ServiceKind {
            service: 256 * u16::from(*high) + u16::from(*low),
            kind: *kind,
        })?;
        rest = behind;
    }
    if !rest.is_empty() {
        return Ok(None);
    }
    Ok(Some(Items::of(services)))
}
