// The service description table.
ghost use Rattle.std.specs.Prelude.{◌≡◌, ◌++◌, length, is_some, IfOk, OnOk};
ghost use Rattle.std.specs.List.{All, flat_map};
ghost use Rattle.std.proofs.Common.{lit<};
ghost use Rattle.table_bodies.specs.Sdt.{FitsService, flag_bit, further_of_service, sdt_body, sdt_in, service_bytes, sdt_service_in, text_in};

use crate::{EntryKind, RawEntry, are_entries, read_entries};
use descriptors::descriptor_kinds::Service;
use descriptors::{
    ServiceText, descriptors_len, no_text, take_first, write_descriptors, write_service_fields,
};
use guide_model::{RawDesc, RawDescs, Shown};
use si_base::{Bytes, Items};
use std::alloc::{AllocError, Global};

/// A service as it is described: service_id, whether event information of its schedule and of its present and following events is
/// sent, service_type (`kind`), the provider of the service, its name, and its further descriptors (EN 300 468, 5.2.3 and 6.2.33).
#[derive(Drop)]
pub struct SdtService {
    pub service: u16,
    pub schedule: bool,
    pub present: bool,
    pub kind: u8,
    pub provider: Shown,
    pub name: Shown,
    pub descriptors: RawDescs,
}

/// Services in the order in which they stand.
pub type SdtServices = Items<SdtService>;

/// What a section of the service description table holds: original_network_id and services.
#[derive(Drop)]
pub struct Sdt {
    pub original: u16,
    pub services: SdtServices,
}

/// The body of a section of the service description table (EN 300 468, 5.2.3). Each service is running (running_status 4), is not
/// scrambled (free_CA_mode 0), and has a service_descriptor. Its further descriptors follow that, in their order.
///
/// It needs services whose texts have at most 252 bytes together, bodies of at most 255 bytes, and further descriptors of a service of
/// at most 3,838 bytes together, so that each length fits its field.
pub fn write_sdt(alloc: Global, sdt: &Sdt) -> Result<Bytes, AllocError>
    requires { All FitsService sdt.now.services }
    ensures { IfOk result (λ body. body ≡ sdt_body sdt.now) }
{
    let mut out = Vec::new(alloc);
    out.extend_from_slice(&sdt.original.to_be_bytes())?;
    out.push(0xFF)?;
    put_services(sdt.services.as_slice(), &mut out)?;
    Ok(Items::of(out))
}

/// How many bytes a service adds to the body of a section: 10, those of its texts and those of its further descriptors. It has the
/// needs of [`write_sdt`], and takes no memory.
pub fn service_len(service: &SdtService) -> usize
    requires { FitsService service.now }
    ensures { result ≡ length (service_bytes service.now) }
{
    10 + service.provider.coded_len()
        + service.name.coded_len()
        + descriptors_len(service.descriptors.as_slice())
}

// Appends the entries of services; want of memory may leave a part of them.
fn put_services(services: &[SdtService], out: &mut Vec<u8>) -> Result<(), AllocError>
    requires { All FitsService services.now }
    ensures { OnOk result (out.new.items ≡ out.old.items ++ flat_map service_bytes services.now) }
{
    for service in services {
        put_service(service, out)?;
    }
    Ok(())
}

// Appends the entry of a service; want of memory may leave a part of it.
fn put_service(service: &SdtService, out: &mut Vec<u8>) -> Result<(), AllocError>
    requires { FitsService service.now }
    ensures { OnOk result (out.new.items ≡ out.old.items ++ service_bytes service.now) }
{
    let flags = 0xFC + 2 * flag_bit(service.schedule) + flag_bit(service.present);
    let len = (service_len(service) - 5) as u16;
    out.extend_from_slice(&service.service.to_be_bytes())?;
    out.push(flags)?;
    out.extend_from_slice(&(0x8000 + len).to_be_bytes())?;
    write_service_fields(service.kind, &service.provider, &service.name, out)?;
    write_descriptors(service.descriptors.as_slice(), out)
}

// The bit of a flag.
fn flag_bit(flag: bool) -> u8
    ensures { result ≡ flag_bit flag }
{
    if flag { 1 } else { 0 }
}

/// What the body of a section of the service description table says, or `None` exactly where it has fewer than 3 bytes, ends within an
/// entry, a descriptor runs past the end of its loop, or bytes are left over. Reserved bits, running_status and free_CA_mode may have
/// any value (EN 300 468, 5.2.3).
///
/// Type, provider and name of a service are those of its first service_descriptor whose body fits; without one they are 0 and empty.
/// All other descriptors are further ones.
pub fn read_sdt(alloc: Global, body: &[u8]) -> Result<Option<Sdt>, AllocError>
    ensures { IfOk result (λ read. read ≡ sdt_in body.now) }
{
    let [high, low, _reserved, entries @ ..] = body else {
        return Ok(None);
    };
    let Some(services) = read_entries::<ServiceEntries>(alloc, entries)? else {
        return Ok(None);
    };
    Ok(Some(Sdt {
        original: 256 * u16::from(*high) + u16::from(*low),
        services,
    }))
}

/// Whether these bytes are the body of a section of the service description table, as `read_sdt` reads it (EN 300 468, 5.2.3). It takes
/// no memory.
pub fn is_sdt_body(body: &[u8]) -> bool
    ensures { result ≡ is_some (sdt_in body.now) }
{
    3 <= body.len() && are_entries::<ServiceEntries>(&body[3..])
}

// The entries of services.
struct ServiceEntries;

impl EntryKind for ServiceEntries {
    type Value = SdtService;

    const SIZE: usize = 3;

    ghost SIZE = { 3 };

    ghost value_of = { sdt_service_in };

    fn read(
        alloc: Global,
        entry: &RawEntry,
        descs: RawDescs,
    ) -> Result<Option<SdtService>, AllocError> {
        let flags = entry.byte(2);
        let mut further = descs.into_vec();
        let text = take_text(alloc, &mut further)?;
        Ok(Some(SdtService {
            service: entry.two(0),
            schedule: flags / 2 % 2 == 1,
            present: flags % 2 == 1,
            kind: text.kind,
            provider: text.provider,
            name: text.name,
            descriptors: Items::of(further),
        }))
    }

    fn is_read(_entry: &RawEntry) -> bool {
        true
    }

    ghost is_narrow = { lit< tt };
}

// The type and the texts of the first service_descriptor that fits; the other descriptors stay.
fn take_text(alloc: Global, descs: &mut Vec<RawDesc>) -> Result<ServiceText, AllocError>
    ensures text { IfOk result (λ text. text ≡ text_in descs.old.items) }
    ensures further { OnOk result (descs.new.items ≡ further_of_service descs.old.items) }
{
    if let Some(text) = take_first::<Service>(alloc, descs)? {
        return Ok(text);
    }
    Ok(ServiceText {
        kind: 0,
        provider: no_text(alloc)?,
        name: no_text(alloc)?,
    })
}
