// What contents say: a section by its number, and all sections in order.
ghost use Rattle.std.specs.Prelude.{◌≡◌, ◌++◌, [], option_map, unwrap_or, IfOk, OnOk};
ghost use Rattle.section_codec.specs.Contents.{part_in};
ghost use Rattle.guide_screen.specs.Reading.{programs_in, streams_in, services_in, events_in, value_in};
ghost use Rattle.table_bodies.specs.Pmt.{pmt_in};
ghost use Rattle.table_bodies.specs.Nit.{nit_in};
ghost use Rattle.table_bodies.specs.Sdt.{sdt_in};
ghost use Rattle.table_bodies.specs.Eit.{eit_in};
ghost use Rattle.guide_screen.specs.Needs.{last_table};
ghost use Rattle.guide_screen.specs.Screen.{first_of, event_at, network_name, network_descriptors};

use guide_model::{RawDescs, ScreenEvent, ScreenEvents, Shown, Txt};
use section_codec::NumberedBody;
use si_base::Items;
use std::alloc::{AllocError, Global};
use table_bodies::{
    HeardPmt, NitStream, NitStreams, PatEntry, SdtService, SdtServices, read_eit, read_nit,
    read_pat, read_pmt, read_sdt,
};

// The body of the section with this number.
fn part_in(content: &[NumberedBody], number: u8) -> Option<&[u8]>
    ensures { option_map (λ body. body.now) result ≡ part_in number content.now }
{
    for section in content {
        if number == section.number {
            return Some(section.body.as_slice());
        }
    }
    None
}

/// What section 0 of a program map table says.
pub fn pmt_told(alloc: Global, content: &[NumberedBody]) -> Result<Option<HeardPmt>, AllocError>
    ensures { IfOk result (λ pmt. pmt ≡ value_in pmt_in 0 content.now) }
{
    match part_in(content, 0) {
        Some(body) => read_pmt(alloc, body),
        None => Ok(None),
    }
}

/// The name of the network, by section 0 of the network information table; empty where it says none.
pub fn network_name(alloc: Global, content: &[NumberedBody]) -> Result<Shown, AllocError>
    ensures { IfOk result (λ name. name ≡ network_name content.now) }
{
    if let Some(body) = part_in(content, 0)
        && let Some(nit) = read_nit(alloc, body)?
    {
        return Ok(nit.name);
    }
    Ok(Shown::Text(Txt::of_kept(alloc, "")?))
}

/// The further descriptors of the network, by section 0 of the network information table; none where it says none.
pub fn network_descriptors(alloc: Global, content: &[NumberedBody]) -> Result<RawDescs, AllocError>
    ensures { IfOk result (λ descs. descs ≡ network_descriptors content.now) }
{
    if let Some(body) = part_in(content, 0)
        && let Some(nit) = read_nit(alloc, body)?
    {
        return Ok(nit.descriptors);
    }
    Ok(RawDescs::new(alloc))
}

/// The first event of the section with this number.
pub fn event_at(
    alloc: Global,
    number: u8,
    content: &[NumberedBody],
) -> Result<Option<ScreenEvent>, AllocError>
    ensures { IfOk result (λ event. event ≡ event_at number content.now) }
{
    let Some(body) = part_in(content, number) else {
        return Ok(None);
    };
    match read_eit(alloc, body)? {
        Some(eit) => Ok(first_of(eit.events)),
        None => Ok(None),
    }
}

// The first of these events.
fn first_of(events: ScreenEvents) -> Option<ScreenEvent>
    ensures { result ≡ first_of events }
{
    events.into_vec().into_iter().next()
}

// The last_table_id of section 0 of the first table of a schedule, `most` at most; 0 where there is none.
pub(crate) fn last_table(content: &[NumberedBody], most: u8) -> u8
    ensures { result ≡ last_table most content.now }
{
    match part_in(content, 0) {
        Some(body) if 6 <= body.len() => { if body[5] < most { body[5] } else { most } }
        _ => 0,
    }
}

// ---- all sections

// Appends a list, where there is one.
fn append<T: Drop>(out: &mut Vec<T>, more: Option<Items<T>>) -> Result<(), AllocError>
    ensures { OnOk result (out.new.items ≡ out.old.items ++ unwrap_or more []) }
{
    match more {
        Some(more) => {
            let mut more = more.into_vec();
            out.append(&mut more)
        }
        None => Ok(()),
    }
}

/// The programs of a program association table.
pub fn programs_in(alloc: Global, content: &[NumberedBody]) -> Result<Vec<PatEntry>, AllocError>
    ensures { IfOk result (λ programs. programs.items ≡ programs_in content.now) }
{
    let mut programs = Vec::new(alloc);
    for section in content {
        append(&mut programs, read_pat(alloc, section.body.as_slice())?)?;
    }
    Ok(programs)
}

/// The streams of a network information table.
pub fn streams_in(alloc: Global, content: &[NumberedBody]) -> Result<Vec<NitStream>, AllocError>
    ensures { IfOk result (λ streams. streams.items ≡ streams_in content.now) }
{
    let mut streams = Vec::new(alloc);
    for section in content {
        append(
            &mut streams,
            streams_of_body(alloc, section.body.as_slice())?,
        )?;
    }
    Ok(streams)
}

fn streams_of_body(alloc: Global, body: &[u8]) -> Result<Option<NitStreams>, AllocError>
    ensures { IfOk result (λ streams. streams ≡ option_map (λ nit. nit.streams) (nit_in body.now)) }
{
    match read_nit(alloc, body)? {
        Some(nit) => Ok(Some(nit.streams)),
        None => Ok(None),
    }
}

/// The services of a service description table.
pub fn services_in(alloc: Global, content: &[NumberedBody]) -> Result<Vec<SdtService>, AllocError>
    ensures { IfOk result (λ services. services.items ≡ services_in content.now) }
{
    let mut services = Vec::new(alloc);
    for section in content {
        append(
            &mut services,
            services_of_body(alloc, section.body.as_slice())?,
        )?;
    }
    Ok(services)
}

fn services_of_body(alloc: Global, body: &[u8]) -> Result<Option<SdtServices>, AllocError>
    ensures { IfOk result (λ services. services ≡ option_map (λ sdt. sdt.services) (sdt_in body.now)) }
{
    match read_sdt(alloc, body)? {
        Some(sdt) => Ok(Some(sdt.services)),
        None => Ok(None),
    }
}

/// Appends the events of a table; want of memory may leave a part of them.
pub fn put_events(
    alloc: Global,
    content: &[NumberedBody],
    out: &mut Vec<ScreenEvent>,
) -> Result<(), AllocError>
    ensures { OnOk result (out.new.items ≡ out.old.items ++ events_in content.now) }
{
    for section in content {
        append(out, events_of_body(alloc, section.body.as_slice())?)?;
    }
    Ok(())
}

fn events_of_body(alloc: Global, body: &[u8]) -> Result<Option<ScreenEvents>, AllocError>
    ensures { IfOk result (λ events. events ≡ option_map (λ eit. eit.events) (eit_in body.now)) }
{
    match read_eit(alloc, body)? {
        Some(eit) => Ok(Some(eit.events)),
        None => Ok(None),
    }
}
