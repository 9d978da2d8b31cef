// The lines of a whole screen.
ghost use Rattle.std.specs.Prelude.{◌≡◌, ◌++◌, OnOk};
ghost use Rattle.guide_text.specs.Fields.{optional};
ghost use Rattle.guide_text.specs.Guides.{clock_line, network_line, network_text, stream_line, stream_text, cable_line, screen_text};

use crate::cable::put_cable_numbers;
use crate::details::put_details;
use crate::field::{put_decimal, put_moment, put_shown};
use crate::local::put_offsets;
use crate::others::put_others;
use crate::service::put_services;
use guide_model::{Cable, Screen};
use si_time::Moment;
use std::alloc::{AllocError, Global};

/// Appends the line of the last moment that was heard.
pub fn put_clock(out: &mut Vec<u8>, clock: Moment) -> Result<(), AllocError>
    ensures { OnOk result (out.new.items ≡ out.old.items ++ clock_line clock.0) }
{
    out.extend_from_slice(b"clock")?;
    put_moment(out, clock)?;
    out.extend_from_slice(b"\n")
}

// Appends the line of the network.
fn put_network_line(alloc: Global, out: &mut Vec<u8>, screen: &Screen) -> Result<(), AllocError>
    ensures { OnOk result (out.new.items ≡ out.old.items ++ network_line screen.now) }
{
    out.extend_from_slice(b"network")?;
    put_decimal(alloc, out, u64::from(screen.network))?;
    put_shown(alloc, out, &screen.network_name)?;
    out.extend_from_slice(b"\n")
}

// Appends the lines of the network: its own, and with details those of its further descriptors.
fn put_network(
    alloc: Global,
    out: &mut Vec<u8>,
    details: bool,
    screen: &Screen,
) -> Result<(), AllocError>
    ensures { OnOk result (out.new.items ≡ out.old.items ++ network_text details screen.now) }
{
    let further = screen.network_descriptors.as_slice();
    put_network_line(alloc, out, screen)?;
    put_details(alloc, out, details, b"descriptor", further)
}

// Appends the line of the stream.
fn put_stream_line(alloc: Global, out: &mut Vec<u8>, screen: &Screen) -> Result<(), AllocError>
    ensures { OnOk result (out.new.items ≡ out.old.items ++ stream_line screen.now) }
{
    out.extend_from_slice(b"stream")?;
    put_decimal(alloc, out, u64::from(screen.stream))?;
    put_decimal(alloc, out, u64::from(screen.original))?;
    out.extend_from_slice(b"\n")
}

// Appends the line of how the stream is sent by cable.
fn put_cable(alloc: Global, out: &mut Vec<u8>, cable: Cable) -> Result<(), AllocError>
    ensures { OnOk result (out.new.items ≡ out.old.items ++ cable_line cable) }
{
    out.extend_from_slice(b"cable")?;
    put_cable_numbers(alloc, out, cable)?;
    out.extend_from_slice(b"\n")
}

/// Appends the line of how the stream is sent by cable, where it is told.
pub fn put_some_cable(
    alloc: Global,
    out: &mut Vec<u8>,
    cable: Option<Cable>,
) -> Result<(), AllocError>
    ensures { OnOk result (out.new.items ≡ out.old.items ++ optional cable_line cable) }
{
    match cable {
        Some(cable) => put_cable(alloc, out, cable),
        None => Ok(()),
    }
}

// Appends the lines of the stream: its own, how it is sent by cable, and with details those of its further descriptors.
fn put_stream(
    alloc: Global,
    out: &mut Vec<u8>,
    details: bool,
    screen: &Screen,
) -> Result<(), AllocError>
    ensures { OnOk result (out.new.items ≡ out.old.items ++ stream_text details screen.now) }
{
    let further = screen.stream_descriptors.as_slice();
    put_stream_line(alloc, out, screen)?;
    put_some_cable(alloc, out, screen.cable)?;
    put_details(alloc, out, details, b"descriptor", further)
}

/// Appends the lines of a screen, with details or without.
pub(crate) fn put_screen(
    alloc: Global,
    out: &mut Vec<u8>,
    details: bool,
    screen: &Screen,
) -> Result<(), AllocError>
    ensures { OnOk result (out.new.items ≡ out.old.items ++ screen_text details screen.now) }
{
    put_clock(out, screen.clock)?;
    put_offsets(alloc, out, screen.clock, screen.offsets.as_slice())?;
    put_network(alloc, out, details, screen)?;
    put_stream(alloc, out, details, screen)?;
    put_services(alloc, out, details, screen.services.as_slice())?;
    put_others(alloc, out, details, screen.others.as_slice())
}
