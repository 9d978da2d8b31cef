// The lines of a service.
ghost use Rattle.std.specs.Prelude.{◌≡◌, ◌++◌, ◌∷◌, OnOk, decimal, flat_map};
ghost use Rattle.guide_text.specs.Fields.{shown_text, optional};
ghost use Rattle.guide_text.specs.Guides.{component_line, component_text, service_details, service_line, service_text};

use crate::details::put_details;
use crate::event::{put_events, put_some_event};
use crate::field::{put_decimal, put_optional, put_optional_code, put_shown};
use guide_model::{RawDesc, ScreenComponent, ScreenService};
use std::alloc::{AllocError, Global};

// Appends the line of a component.
fn put_component_line(
    alloc: Global,
    out: &mut Vec<u8>,
    component: &ScreenComponent,
) -> Result<(), AllocError>
    ensures { OnOk result (out.new.items ≡ out.old.items ++ component_line component.now) }
{
    out.extend_from_slice(b"component")?;
    put_decimal(alloc, out, u64::from(component.stream_type))?;
    put_decimal(alloc, out, u64::from(component.pid))?;
    put_optional_code(alloc, out, component.language)?;
    out.extend_from_slice(b"\n")
}

// Appends the lines of a component: its own, and with details those of its further descriptors.
fn put_component(
    alloc: Global,
    out: &mut Vec<u8>,
    details: bool,
    component: &ScreenComponent,
) -> Result<(), AllocError>
    ensures { OnOk result (out.new.items ≡ out.old.items ++ component_text details component.now) }
{
    put_component_line(alloc, out, component)?;
    put_details(
        alloc,
        out,
        details,
        b"descriptor",
        component.descriptors.as_slice(),
    )
}

/// Appends the lines of components, with details or without.
pub fn put_components(
    alloc: Global,
    out: &mut Vec<u8>,
    details: bool,
    components: &[ScreenComponent],
) -> Result<(), AllocError>
    ensures { OnOk result (out.new.items ≡ out.old.items ++ flat_map (component_text details) components.now) }
{
    for component in components {
        put_component(alloc, out, details, component)?;
    }
    Ok(())
}

/// Appends with details the lines of the further descriptors of a service in the SDT, and of those of its program, whose lines begin
/// with `program`.
pub fn put_service_details(
    alloc: Global,
    out: &mut Vec<u8>,
    details: bool,
    descs: &[RawDesc],
    program: &[RawDesc],
) -> Result<(), AllocError>
    ensures { OnOk result (out.new.items ≡ out.old.items ++ service_details details descs.now program.now) }
{
    put_details(alloc, out, details, b"descriptor", descs)?;
    put_details(alloc, out, details, b"program", program)
}

// Appends the names of its provider and its own.
fn put_names(alloc: Global, out: &mut Vec<u8>, service: &ScreenService) -> Result<(), AllocError>
    ensures { OnOk result (out.new.items ≡ out.old.items
        ++ 9 ∷ (shown_text service.entry.now.provider ++ 9 ∷ shown_text service.entry.now.name)) }
{
    put_shown(alloc, out, &service.provider)?;
    put_shown(alloc, out, &service.name)
}

// Appends the PIDs of its PMT and its PCR.
fn put_pids(alloc: Global, out: &mut Vec<u8>, service: &ScreenService) -> Result<(), AllocError>
    ensures { OnOk result (out.new.items ≡ out.old.items
        ++ 9 ∷ (optional decimal service.entry.now.pmt_pid ++ 9 ∷ optional decimal service.entry.now.pcr_pid)) }
{
    put_optional(alloc, out, service.pmt_pid)?;
    put_optional(alloc, out, service.pcr_pid)
}

// Appends the line of a service.
fn put_service_line(
    alloc: Global,
    out: &mut Vec<u8>,
    service: &ScreenService,
) -> Result<(), AllocError>
    ensures { OnOk result (out.new.items ≡ out.old.items ++ service_line service.entry.now) }
{
    out.extend_from_slice(b"service")?;
    put_decimal(alloc, out, u64::from(service.service))?;
    put_decimal(alloc, out, u64::from(service.kind))?;
    put_names(alloc, out, service)?;
    put_pids(alloc, out, service)?;
    out.extend_from_slice(b"\n")
}

// Appends the lines of a service: its own, and those of its further descriptors, of its components and of its events.
fn put_service(
    alloc: Global,
    out: &mut Vec<u8>,
    details: bool,
    service: &ScreenService,
) -> Result<(), AllocError>
    ensures { OnOk result (out.new.items ≡ out.old.items ++ service_text details service.entry.now) }
{
    let further = service.descriptors.as_slice();
    put_service_line(alloc, out, service)?;
    put_service_details(
        alloc,
        out,
        details,
        further,
        service.program_descriptors.as_slice(),
    )?;
    put_components(alloc, out, details, service.components.as_slice())?;
    put_some_event(alloc, out, details, b"now", &service.now)?;
    put_some_event(alloc, out, details, b"next", &service.next)?;
    put_events(alloc, out, details, b"event", service.events.as_slice())
}

/// Appends the lines of services.
pub(crate) fn put_services(
    alloc: Global,
    out: &mut Vec<u8>,
    details: bool,
    services: &[ScreenService],
) -> Result<(), AllocError>
    ensures { OnOk result (out.new.items ≡ out.old.items ++ flat_map (service_text details) services.now) }
{
    for service in services {
        put_service(alloc, out, details, service)?;
    }
    Ok(())
}
