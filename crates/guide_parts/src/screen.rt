// The lines of a screen of parts.
ghost use Rattle.std.specs.Prelude.{◌≡◌, ◌++◌, OnOk};
ghost use Rattle.guide_text.specs.Fields.{optional};
ghost use Rattle.guide_parts.specs.PartTexts.{clock_lines, part_network_line, part_network_text, part_stream_line, part_stream_text, part_screen_text};

use crate::service::put_part_services;
use crate::{PartNetwork, PartScreen};
use guide_model::Offset;
use guide_text::{
    put_clock, put_decimal, put_details, put_offsets, put_optional, put_others, put_shown,
    put_some_cable,
};
use si_time::Moment;
use std::alloc::{AllocError, Global};

// Appends the lines of the last moment and of local times, where there is a moment.
fn put_clock_lines(
    alloc: Global,
    out: &mut Vec<u8>,
    offsets: &[Offset],
    clock: Option<Moment>,
) -> Result<(), AllocError>
    ensures { OnOk result (out.new.items ≡ out.old.items ++ optional (clock_lines offsets.now) clock) }
{
    let Some(clock) = clock else {
        return Ok(());
    };
    put_clock(out, clock)?;
    put_offsets(alloc, out, clock, offsets)
}

// Appends the line of the network.
fn put_network_line(
    alloc: Global,
    out: &mut Vec<u8>,
    network: &PartNetwork,
) -> Result<(), AllocError>
    ensures { OnOk result (out.new.items ≡ out.old.items ++ part_network_line network.now) }
{
    out.extend_from_slice(b"network")?;
    put_decimal(alloc, out, u64::from(network.id))?;
    put_shown(alloc, out, &network.name)?;
    out.extend_from_slice(b"\n")
}

// Appends the lines of the network, where it was heard: its own, and with details those of its further descriptors.
fn put_network(
    alloc: Global,
    out: &mut Vec<u8>,
    details: bool,
    network: &Option<PartNetwork>,
) -> Result<(), AllocError>
    ensures { OnOk result (out.new.items ≡ out.old.items ++ optional (part_network_text details) network.now) }
{
    let Some(network) = network else {
        return Ok(());
    };
    let further = network.descriptors.as_slice();
    put_network_line(alloc, out, network)?;
    put_details(alloc, out, details, b"descriptor", further)
}

// Appends the line of the stream, where its transport_stream_id is known.
fn put_stream_line(
    alloc: Global,
    out: &mut Vec<u8>,
    stream: Option<u16>,
    original: Option<u16>,
) -> Result<(), AllocError>
    ensures { OnOk result (out.new.items ≡ out.old.items ++ optional (part_stream_line original) stream) }
{
    let Some(stream) = stream else {
        return Ok(());
    };
    out.extend_from_slice(b"stream")?;
    put_decimal(alloc, out, u64::from(stream))?;
    put_optional(alloc, out, original)?;
    out.extend_from_slice(b"\n")
}

// Appends the lines of the stream: its own, how it is sent by cable, and with details those of its further descriptors.
fn put_stream(
    alloc: Global,
    out: &mut Vec<u8>,
    details: bool,
    screen: &PartScreen,
) -> Result<(), AllocError>
    ensures { OnOk result (out.new.items ≡ out.old.items ++ part_stream_text details screen.now) }
{
    let further = screen.stream_descriptors.as_slice();
    put_stream_line(alloc, out, screen.stream, screen.original)?;
    put_some_cable(alloc, out, screen.cable)?;
    put_details(alloc, out, details, b"descriptor", further)
}

// Appends the lines of a screen of parts.
pub(crate) fn put_part_screen(
    alloc: Global,
    out: &mut Vec<u8>,
    details: bool,
    screen: &PartScreen,
) -> Result<(), AllocError>
    ensures { OnOk result (out.new.items ≡ out.old.items ++ part_screen_text details screen.now) }
{
    put_clock_lines(alloc, out, screen.offsets.as_slice(), screen.clock)?;
    put_network(alloc, out, details, &screen.network)?;
    put_stream(alloc, out, details, screen)?;
    put_part_services(alloc, out, details, screen.services.as_slice())?;
    put_others(alloc, out, details, screen.others.as_slice())
}
