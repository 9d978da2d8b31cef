// Sections joined over packets. What is open of a section is kept in a buffer, which becomes the section.
ghost use Rattle.std.specs.Prelude.{◌≡◌, ◌≢◌, ◌≤◌, ◌<◌, ◌++◌, ◌∷◌, [], length, take, map, Some, false, true, unwrap_or, IsSome, IfNone, IfSome, IfOk, OnOk, OnErr};
ghost use Rattle.ts_demux.specs.Hearing.{begun, is_whole};
ghost use Rattle.ts_demux.specs.Sections.{on_pid};
ghost use Rattle.ts_demux.specs.Steps.{IsOpen, left_open, finished_with, given_from_start, given_by, still_open, open_from_start, open_further, open_behind};
ghost use Rattle.ts_packets.specs.Packets.{Piece};

use crate::headers::{Reach, measure};
use crate::section::{RawSection, RawSections};
use si_base::{Bytes, Items};
use std::alloc::{AllocError, Global};
use std::mem;

// Takes a payload: the sections that it ends, where this one is open before it and goes on only if the packet follows.
// Want of memory changes nothing.
pub(crate) fn take_payload(
    alloc: Global,
    pid: u16,
    section: &mut Option<Bytes>,
    follows: bool,
    start: bool,
    payload: &[u8],
) -> Result<RawSections, AllocError>
    requires open { IsOpen section.old }
    ensures given { IfOk result (λ sections. sections ≡ map (on_pid pid) (given_by (still_open follows section.old) (record { start = start; payload = payload.now }))) }
    ensures kept { OnOk result (section.new ≡ open_behind (still_open follows section.old) (record { start = start; payload = payload.now })) }
    ensures memory { OnErr result (section.new ≡ section.old) }
{
    if follows {
        return join_payload(alloc, pid, section, start, payload);
    }
    let mut anew = None;
    let sections = join_payload(alloc, pid, &mut anew, start, payload)?;
    *section = anew;
    Ok(sections)
}

// The same of a packet that follows.
fn join_payload(
    alloc: Global,
    pid: u16,
    section: &mut Option<Bytes>,
    start: bool,
    payload: &[u8],
) -> Result<RawSections, AllocError>
    requires open { IsOpen section.old }
    ensures given { IfOk result (λ sections. sections ≡ map (on_pid pid) (given_by section.old (record { start = start; payload = payload.now }))) }
    ensures kept { OnOk result (section.new ≡ open_behind section.old (record { start = start; payload = payload.now })) }
    ensures memory { OnErr result (section.new ≡ section.old) }
{
    if start {
        begin_behind_pointer(alloc, pid, section, payload)
    } else {
        go_on(alloc, pid, section, payload)
    }
}

// A payload in which a section begins.
fn begin_behind_pointer(
    alloc: Global,
    pid: u16,
    section: &mut Option<Bytes>,
    payload: &[u8],
) -> Result<RawSections, AllocError>
    requires open { IsOpen section.old }
    ensures given { IfOk result (λ sections. sections ≡ map (on_pid pid) (given_from_start section.old payload.now)) }
    ensures kept { OnOk result (section.new ≡ open_from_start payload.now) }
    ensures memory { OnErr result (section.new ≡ section.old) }
{
    let Some((pointer, bytes)) = payload.split_first() else {
        *section = None;
        return Ok(Items::new(alloc));
    };
    let pointer = usize::from(*pointer);
    if pointer > bytes.len() {
        *section = None;
        return Ok(Items::new(alloc));
    }
    let (passed, here) = bytes.split_at(pointer);
    begin_at_target(alloc, pid, section, passed, here)
}

// What the pointer passes over may end the section; behind it sections begin.
fn begin_at_target(
    alloc: Global,
    pid: u16,
    section: &mut Option<Bytes>,
    passed: &[u8],
    here: &[u8],
) -> Result<RawSections, AllocError>
    requires open { IsOpen section.old }
    ensures given { IfOk result (λ sections. sections ≡ map (on_pid pid) (finished_with section.old passed.now ++ begun (length here.now) here.now [])) }
    ensures kept { OnOk result (section.new ≡ left_open (length here.now) here.now) }
    ensures memory { OnErr result (section.new ≡ section.old) }
{
    match missing_in(section, passed) {
        Some(rest) => end_and_begin(alloc, pid, section, rest, here),
        None => begin_anew(alloc, pid, section, here),
    }
}

// A payload that goes on with a section.
fn go_on(
    alloc: Global,
    pid: u16,
    section: &mut Option<Bytes>,
    payload: &[u8],
) -> Result<RawSections, AllocError>
    requires open { IsOpen section.old }
    ensures given { IfOk result (λ sections. sections ≡ map (on_pid pid) (finished_with section.old payload.now)) }
    ensures kept { OnOk result (section.new ≡ open_further section.old payload.now) }
    ensures memory { OnErr result (section.new ≡ section.old) }
{
    let Some(bytes) = &*section else {
        return Ok(Items::new(alloc));
    };
    match measure(bytes.as_slice(), payload) {
        Reach::Ends(size) => {
            let (rest, _) = payload.split_at(size - bytes.len());
            return end_and_begin(alloc, pid, section, rest, &[]);
        }
        Reach::TooLong => *section = None,
        Reach::Open(_) => extend(section, payload)?,
    }
    Ok(Items::new(alloc))
}

// The front of these bytes that ends the section, where they end it.
fn missing_in<'a>(section: &Option<Bytes>, more: &'a [u8]) -> Option<&'a [u8]>
    requires open { IsOpen section.now }
    ensures none { IfNone result (finished_with section.now more.now ≡ []) }
    ensures some { IfSome result (λ _. IsSome section.now) }
    ensures rest { IfSome result (λ rest. finished_with section.now more.now ≡ (unwrap_or section.now [] ++ rest.now) ∷ []) }
    ensures left { IfSome result (λ rest. open_further section.now more.now ≡ None) }
{
    let Some(bytes) = section else {
        return None;
    };
    match measure(bytes.as_slice(), more) {
        Reach::Ends(size) => {
            let (rest, _) = more.split_at(size - bytes.len());
            Some(rest)
        }
        _ => None,
    }
}

// Ends the section with these bytes, and begins those that stand behind them in the packet.
fn end_and_begin(
    alloc: Global,
    pid: u16,
    section: &mut Option<Bytes>,
    rest: &[u8],
    here: &[u8],
) -> Result<RawSections, AllocError>
    requires some { IsSome section.old }
    ensures given { IfOk result (λ sections. sections ≡ map (on_pid pid) ((unwrap_or section.old [] ++ rest.now) ∷ begun (length here.now) here.now [])) }
    ensures kept { OnOk result (section.new ≡ left_open (length here.now) here.now) }
    ensures memory { OnErr result (section.new ≡ section.old) }
{
    // all memory is taken before the section leaves its place
    let mut sections = Vec::new(alloc);
    sections.push(RawSection {
        pid,
        bytes: Items::new(alloc),
    })?;
    let left = begin(alloc, pid, here, &mut sections)?;
    extend(section, rest)?;
    if let Some(bytes) = mem::replace(section, left) {
        sections[0].bytes = bytes;
    }
    Ok(Items::of(sections))
}

fn extend(section: &mut Option<Bytes>, rest: &[u8]) -> Result<(), AllocError>
    requires some { IsSome section.old }
    ensures ok { OnOk result (section.new ≡ Some (unwrap_or section.old [] ++ rest.now)) }
    ensures memory { OnErr result (section.new ≡ section.old) }
{
    match section {
        Some(bytes) => bytes.items.extend_from_slice(rest),
        None => Ok(()),
    }
}

// Drops the section, and begins those that stand in these bytes of a packet.
fn begin_anew(
    alloc: Global,
    pid: u16,
    section: &mut Option<Bytes>,
    here: &[u8],
) -> Result<RawSections, AllocError>
    ensures given { IfOk result (λ sections. sections ≡ map (on_pid pid) (begun (length here.now) here.now [])) }
    ensures kept { OnOk result (section.new ≡ left_open (length here.now) here.now) }
    ensures memory { OnErr result (section.new ≡ section.old) }
{
    let mut sections = Vec::new(alloc);
    let left = begin(alloc, pid, here, &mut sections)?;
    *section = left;
    Ok(Items::of(sections))
}

// Adds the sections that stand whole in these bytes of a packet, one behind the other, and gives the front of the one
// that is open behind the packet, with room for the whole of it.
fn begin(
    alloc: Global,
    pid: u16,
    here: &[u8],
    sections: &mut Vec<RawSection>,
) -> Result<Option<Bytes>, AllocError>
    ensures given { OnOk result (sections.new.items ≡ sections.old.items ++ map (on_pid pid) (begun (length here.now) here.now [])) }
    ensures left { IfOk result (λ left. left ≡ left_open (length here.now) here.now) }
{
    let mut bytes = here;
    'sections: while !bytes.is_empty() {
        if bytes[0] == 0xFF {
            return Ok(None);
        }
        match measure(bytes, &[]) {
            Reach::TooLong => return Ok(None),
            Reach::Open(size) => return Ok(Some(first_part(alloc, bytes, size)?)),
            Reach::Ends(size) => {
                let (section, behind) = bytes.split_at(size);
                add_whole(alloc, pid, section, sections)?;
                bytes = behind;
            }
        }
    }
    Ok(None)
}

// A buffer with these bytes and room for so many.
fn first_part(alloc: Global, bytes: &[u8], size: usize) -> Result<Bytes, AllocError>
    ensures { IfOk result (λ part. part ≡ bytes.now) }
{
    let mut part = Vec::with_capacity(alloc, size)?;
    part.extend_from_slice(bytes)?;
    Ok(Items::of(part))
}

// Adds a section that stands whole in a packet.
fn add_whole(
    alloc: Global,
    pid: u16,
    section: &[u8],
    sections: &mut Vec<RawSection>,
) -> Result<(), AllocError>
    ensures { OnOk result (sections.new.items ≡ sections.old.items ++ on_pid pid section.now ∷ []) }
{
    let bytes = Items::of(Vec::from_slice(alloc, section)?);
    sections.push(RawSection { pid, bytes })?;
    Ok(())
}
