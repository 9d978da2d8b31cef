// The lines of other streams.
ghost use Rattle.std.specs.Prelude.{◌≡◌, ◌++◌, OnOk, flat_map};
ghost use Rattle.guide_text.specs.Guides.{other_line, remote_line, remote_text, other_text};

use crate::cable::put_optional_cable;
use crate::details::put_details;
use crate::event::{put_events, put_some_event};
use crate::field::{put_decimal, put_shown};
use guide_model::{ScreenOther, ScreenRemote};
use std::alloc::{AllocError, Global};

// Appends the line of another stream.
fn put_other_line(alloc: Global, out: &mut Vec<u8>, other: &ScreenOther) -> Result<(), AllocError>
    ensures { OnOk result (out.new.items ≡ out.old.items ++ other_line other.entry.now) }
{
    out.extend_from_slice(b"other")?;
    put_decimal(alloc, out, u64::from(other.stream))?;
    put_decimal(alloc, out, u64::from(other.original))?;
    put_optional_cable(alloc, out, other.cable)?;
    out.extend_from_slice(b"\n")
}

// Appends the line of a service of another stream.
fn put_remote_line(
    alloc: Global,
    out: &mut Vec<u8>,
    service: &ScreenRemote,
) -> Result<(), AllocError>
    ensures { OnOk result (out.new.items ≡ out.old.items ++ remote_line service.entry.now) }
{
    out.extend_from_slice(b"remote")?;
    put_decimal(alloc, out, u64::from(service.service))?;
    put_decimal(alloc, out, u64::from(service.kind))?;
    put_shown(alloc, out, &service.provider)?;
    put_shown(alloc, out, &service.name)?;
    out.extend_from_slice(b"\n")
}

// Appends the lines of a service of another stream: its own, and those of its events.
fn put_remote(
    alloc: Global,
    out: &mut Vec<u8>,
    details: bool,
    service: &ScreenRemote,
) -> Result<(), AllocError>
    ensures { OnOk result (out.new.items ≡ out.old.items ++ remote_text details service.entry.now) }
{
    let further = service.descriptors.as_slice();
    put_remote_line(alloc, out, service)?;
    put_details(alloc, out, details, b"descriptor", further)?;
    put_some_event(alloc, out, details, b"now", &service.now)?;
    put_some_event(alloc, out, details, b"next", &service.next)?;
    put_events(alloc, out, details, b"event", service.events.as_slice())
}

// Appends the lines of services of another stream.
fn put_remotes(
    alloc: Global,
    out: &mut Vec<u8>,
    details: bool,
    services: &[ScreenRemote],
) -> Result<(), AllocError>
    ensures { OnOk result (out.new.items ≡ out.old.items ++ flat_map (remote_text details) services.now) }
{
    for service in services {
        put_remote(alloc, out, details, service)?;
    }
    Ok(())
}

// Appends the lines of another stream: its own, and those of its further descriptors and of its services.
fn put_other(
    alloc: Global,
    out: &mut Vec<u8>,
    details: bool,
    other: &ScreenOther,
) -> Result<(), AllocError>
    ensures { OnOk result (out.new.items ≡ out.old.items ++ other_text details other.entry.now) }
{
    let further = other.descriptors.as_slice();
    put_other_line(alloc, out, other)?;
    put_details(alloc, out, details, b"descriptor", further)?;
    put_remotes(alloc, out, details, other.services.as_slice())
}

/// Appends the lines of other streams, with details or without.
pub fn put_others(
    alloc: Global,
    out: &mut Vec<u8>,
    details: bool,
    others: &[ScreenOther],
) -> Result<(), AllocError>
    ensures { OnOk result (out.new.items ≡ out.old.items ++ flat_map (other_text details) others.now) }
{
    for other in others {
        put_other(alloc, out, details, other)?;
    }
    Ok(())
}
