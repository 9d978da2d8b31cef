// The other streams of the network.
ghost use Rattle.std.specs.Prelude.{◌≡◌, ◌++◌, ◌∷◌, [], Option, map, IfOk, OnOk};
ghost use Rattle.section_codec.specs.declared.table.Key.{Key};
ghost use Rattle.section_codec.specs.Contents.{Content};
ghost use Rattle.guide_screen.specs.Holding.{KeepsContents};
ghost use Rattle.guide_screen.specs.Screen.{remote_service, remote_services, cable_in, descriptors_in, other_stream, is_other, other_streams};

use crate::content_values::event_at;
use crate::contents::{eit_key, sections_of};
use crate::schedule::schedule_of;
use crate::services::services_of;
use guide_model::{Cable, RawDescs, ScreenOther, ScreenOthers, ScreenRemote, ScreenRemotes};
use section_codec::Key;
use si_base::Items;
use std::alloc::{AllocError, Global};
use sub_collect::Collector;
use table_bodies::{NitStream, SdtService};

/// The cable of the first of these streams with these ids.
pub fn cable_in(streams: &[NitStream], stream: u16, original: u16) -> Option<Cable>
    ensures { result ≡ cable_in stream original streams.now }
{
    for entry in streams {
        if entry.stream == stream && entry.original == original {
            return entry.cable;
        }
    }
    None
}

/// A copy of the further descriptors of the first of these streams with these ids; none where there is no such stream.
pub fn descriptors_in(
    alloc: Global,
    streams: &[NitStream],
    stream: u16,
    original: u16,
) -> Result<RawDescs, AllocError>
    ensures { IfOk result (λ copy. copy ≡ descriptors_in stream original streams.now) }
{
    for entry in streams {
        if entry.stream == stream && entry.original == original {
            return entry.descriptors.copy();
        }
    }
    Ok(RawDescs::new(alloc))
}

// What is shown of a service of the stream that this SDT describes.
fn remote_service(
    alloc: Global,
    contents: &Collector,
    sdt: Key,
    service: SdtService,
) -> Result<ScreenRemote, AllocError>
    ensures { (content : Key → Option Content) → KeepsContents contents.now content
        → IfOk result (λ shown. shown ≡ remote_service content sdt service) }
{
    let id = service.service;
    let present = sections_of(contents, eit_key(sdt, 0x4F, id));
    let now = event_at(alloc, 0, present)?;
    let next = event_at(alloc, 1, present)?;
    let events = schedule_of(alloc, contents, sdt, id, 0x60, 0x6F)?;
    Ok(ScreenRemote {
        service: id,
        kind: service.kind,
        provider: service.provider,
        name: service.name,
        descriptors: service.descriptors,
        now,
        next,
        events,
    })
}

// What is shown of the services of the stream that this SDT describes.
fn remote_services(
    alloc: Global,
    contents: &Collector,
    sdt: Key,
) -> Result<ScreenRemotes, AllocError>
    ensures { (content : Key → Option Content) → KeepsContents contents.now content
        → IfOk result (λ shown. shown ≡ remote_services content sdt) }
{
    let services = services_of(alloc, contents, Some(sdt))?;
    let mut shown = Vec::with_capacity(alloc, services.len())?;
    for service in services {
        shown.push(remote_service(alloc, contents, sdt, service)?)?;
    }
    Ok(Items::of(shown))
}

/// What is shown of the stream that this SDT describes.
pub fn other_stream(
    alloc: Global,
    contents: &Collector,
    streams: &[NitStream],
    sdt: Key,
) -> Result<ScreenOther, AllocError>
    ensures { (content : Key → Option Content) → KeepsContents contents.now content
        → IfOk result (λ shown. shown ≡ other_stream content streams.now sdt) }
{
    Ok(ScreenOther {
        stream: sdt.ext,
        original: sdt.network,
        cable: cable_in(streams, sdt.ext, sdt.network),
        descriptors: descriptors_in(alloc, streams, sdt.ext, sdt.network)?,
        services: remote_services(alloc, contents, sdt)?,
    })
}

/// Whether this SDT describes another stream than the one with these ids.
pub fn is_other(stream: u16, original: u16, sdt: Key) -> bool
    ensures { result ≡ is_other stream original sdt }
{
    !(sdt.ext == stream && sdt.network == original)
}

// What is shown of the streams that these SDTs describe, without the one with these ids (EN 300 468, 5.2.3).
pub(crate) fn other_streams(
    alloc: Global,
    contents: &Collector,
    streams: &[NitStream],
    stream: u16,
    original: u16,
    sdts: &[Key],
) -> Result<ScreenOthers, AllocError>
    ensures { (content : Key → Option Content) → KeepsContents contents.now content
        → IfOk result (λ shown. shown ≡ other_streams content streams.now stream original sdts.now) }
{
    let mut shown = Vec::new(alloc);
    for sdt in sdts {
        if is_other(stream, original, *sdt) {
            shown.push(other_stream(alloc, contents, streams, *sdt)?)?;
        }
    }
    Ok(Items::of(shown))
}
