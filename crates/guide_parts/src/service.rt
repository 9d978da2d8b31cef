// The lines of a service of which parts were heard.
ghost use Rattle.std.specs.Prelude.{◌≡◌, ◌++◌, ◌∷◌, OnOk, decimal, flat_map};
ghost use Rattle.guide_text.specs.Fields.{shown_text, optional};
ghost use Rattle.guide_parts.specs.PartTexts.{part_service_line, part_service_text};

use crate::PartService;
use guide_text::{
    put_components, put_decimal, put_events, put_field, put_optional, put_service_details,
    put_shown, put_some_event,
};
use std::alloc::{AllocError, Global};

// Appends a service_type, or an empty field.
fn put_kind(alloc: Global, out: &mut Vec<u8>, kind: Option<u8>) -> Result<(), AllocError>
    ensures { OnOk result (out.new.items ≡ out.old.items ++ 9 ∷ optional decimal kind) }
{
    match kind {
        Some(kind) => put_decimal(alloc, out, u64::from(kind)),
        None => put_field(out, b""),
    }
}

// Appends the names of its provider and its own.
fn put_names(alloc: Global, out: &mut Vec<u8>, service: &PartService) -> Result<(), AllocError>
    ensures { OnOk result (out.new.items ≡ out.old.items
        ++ 9 ∷ (shown_text service.entry.now.provider ++ 9 ∷ shown_text service.entry.now.name)) }
{
    put_shown(alloc, out, &service.provider)?;
    put_shown(alloc, out, &service.name)
}

// Appends the PIDs of its PMT and its PCR.
fn put_pids(alloc: Global, out: &mut Vec<u8>, service: &PartService) -> Result<(), AllocError>
    ensures { OnOk result (out.new.items ≡ out.old.items
        ++ 9 ∷ (optional decimal service.entry.now.pmt_pid ++ 9 ∷ optional decimal service.entry.now.pcr_pid)) }
{
    put_optional(alloc, out, service.pmt_pid)?;
    put_optional(alloc, out, service.pcr_pid)
}

// Appends the line of a service.
fn put_service_line(
    alloc: Global,
    out: &mut Vec<u8>,
    service: &PartService,
) -> Result<(), AllocError>
    ensures { OnOk result (out.new.items ≡ out.old.items ++ part_service_line service.entry.now) }
{
    out.extend_from_slice(b"service")?;
    put_decimal(alloc, out, u64::from(service.service))?;
    put_kind(alloc, out, service.kind)?;
    put_names(alloc, out, service)?;
    put_pids(alloc, out, service)?;
    out.extend_from_slice(b"\n")
}

// Appends the lines of a service: its own, and those of its further descriptors, of its components and of its events.
fn put_part_service(
    alloc: Global,
    out: &mut Vec<u8>,
    details: bool,
    service: &PartService,
) -> Result<(), AllocError>
    ensures { OnOk result (out.new.items ≡ out.old.items ++ part_service_text details service.entry.now) }
{
    let further = service.descriptors.as_slice();
    put_service_line(alloc, out, service)?;
    put_service_details(
        alloc,
        out,
        details,
        further,
        service.program_descriptors.as_slice(),
    )?;
    put_components(alloc, out, details, service.components.as_slice())?;
    put_some_event(alloc, out, details, b"now", &service.now)?;
    put_some_event(alloc, out, details, b"next", &service.next)?;
    put_events(alloc, out, details, b"event", service.events.as_slice())
}

// Appends the lines of services.
pub(crate) fn put_part_services(
    alloc: Global,
    out: &mut Vec<u8>,
    details: bool,
    services: &[PartService],
) -> Result<(), AllocError>
    ensures { OnOk result (out.new.items ≡ out.old.items ++ flat_map (part_service_text details) services.now) }
{
    for service in services {
        put_part_service(alloc, out, details, service)?;
    }
    Ok(())
}
