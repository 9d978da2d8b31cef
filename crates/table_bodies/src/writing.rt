// Event information as it is written.
ghost use Rattle.std.specs.Prelude.{◌≡◌, ◌<◌, ◌≤◌, ◌++◌, length, IfOk, OnOk};
ghost use Rattle.std.specs.List.{All, flat_map};
ghost use Rattle.table_bodies.specs.Eit.{eit_body, head_bytes, written_bytes, IsCodable};

use crate::eit::EitHead;
use descriptors::{event_len, write_event_descriptors};
use guide_model::Event;
use si_base::{Bytes, Items};
use si_time::{duration_bcd, to_bcd};
use std::alloc::{AllocError, Global};

/// The bytes of a body before its entries (EN 300 468, 5.2.4).
const HEAD: usize = 6;

/// The body of a section of event information: its head, and for each event the entry with this running_status and
/// free_CA_mode 0 (EN 300 468, 5.2.4). It needs a running_status below 8 and events within the limits of their coded form.
/// Memory is taken once, as much as the body has.
pub fn write_eit(
    alloc: Global,
    head: &EitHead,
    status: u8,
    events: &[Event],
) -> Result<Bytes, AllocError>
    requires status { status < 8 }
    requires events { All IsCodable events.now }
    ensures { IfOk result (λ body. body ≡ eit_body head.now status events.now) }
{
    let mut out = Vec::with_capacity(alloc, body_len(events))?;
    write_head(head, &mut out)?;
    write_entries(status, events, &mut out)?;
    Ok(Items::of(out))
}

// The size of the body of these events, or the greatest number. It takes no memory.
fn body_len(events: &[Event]) -> usize
    requires { All IsCodable events.now }
{
    let mut len: usize = HEAD;
    for event in events {
        len = len.saturating_add(event_len(event) as usize);
    }
    len
}

// Appends the head; want of memory may leave a part of it.
fn write_head(head: &EitHead, out: &mut Vec<u8>) -> Result<(), AllocError>
    ensures { OnOk result (out.new.items ≡ out.old.items ++ head_bytes head.now) }
{
    out.extend_from_slice(&head.stream.to_be_bytes())?;
    out.extend_from_slice(&head.original.to_be_bytes())?;
    out.extend_from_slice(&[head.segment_last, head.last_table])
}

// Appends the entries of events; want of memory may leave a part of them.
fn write_entries(status: u8, events: &[Event], out: &mut Vec<u8>) -> Result<(), AllocError>
    requires status { status < 8 }
    requires events { All IsCodable events.now }
    ensures { OnOk result (out.new.items ≡ out.old.items ++ flat_map (written_bytes status) events.now) }
{
    for event in events {
        write_entry(status, event, out)?;
    }
    Ok(())
}

// Appends the entry of an event; want of memory may leave a part of it.
fn write_entry(status: u8, event: &Event, out: &mut Vec<u8>) -> Result<(), AllocError>
    requires status { status < 8 }
    requires codable { IsCodable event.now }
    ensures { OnOk result (out.new.items ≡ out.old.items ++ written_bytes status event.now) }
{
    let flags = 8192 * u16::from(status) + (event_len(event) - 12) as u16;
    out.extend_from_slice(&event.id.to_be_bytes())?;
    out.extend_from_slice(&to_bcd(event.start))?;
    out.extend_from_slice(&duration_bcd(event.seconds))?;
    out.extend_from_slice(&flags.to_be_bytes())?;
    write_event_descriptors(event, out)
}
