// The network information table.
ghost use Rattle.std.specs.Prelude.{◌≡◌, ◌<◌, ◌≤◌, ◌++◌, length, sum_by, is_some, option_map, IfOk, IfSome, OnOk};
ghost use Rattle.std.specs.List.{All, flat_map};
ghost use Rattle.std.proofs.Common.{lit<};
ghost use Rattle.guide_model.specs.Decoding.{shown_bytes};
ghost use Rattle.descriptors.specs.CableDelivery.{FitsCable};
ghost use Rattle.guide_model.specs.Descriptors.{FitsDescriptor};
ghost use Rattle.table_bodies.specs.Entries.{entry_bytes};
ghost use Rattle.descriptors.specs.ServiceList.{service_list_in};
ghost use Rattle.descriptors.specs.First.{always, without_first};
ghost use Rattle.table_bodies.specs.Nit.{FitsStream, HasNetworkRoom, cable_descriptors, cable_size, further_of_network, loop_in, name_of, network_entry, nit_body, nit_in, services_of, stream_bytes, stream_in, stream_size, stream_with};

use crate::{EntryKind, RawEntry, are_entries, read_entries, split_entry};
use descriptors::descriptor_kinds::{CableDelivery, NetworkName, ServiceList};
use descriptors::{
    ServiceKinds, descriptors_len, no_text, take_first, write_cable_delivery_system,
    write_descriptors, write_network_name, write_service_list,
};
use guide_model::{Cable, RawDesc, RawDescs, Shown};
use si_base::{Bytes, Items};
use std::alloc::{AllocError, Global};

/// A transport stream of a network: transport_stream_id and original_network_id, how it is sent by cable where that is said, its
/// services, and its further descriptors.
#[derive(Drop)]
pub struct NitStream {
    pub stream: u16,
    pub original: u16,
    pub cable: Option<Cable>,
    pub services: ServiceKinds,
    pub descriptors: RawDescs,
}

/// Streams in the order in which they stand.
pub type NitStreams = Items<NitStream>;

/// What a network information table holds: the name of the network, its further descriptors and its transport streams.
#[derive(Drop)]
pub struct Nit {
    pub name: Shown,
    pub descriptors: RawDescs,
    pub streams: NitStreams,
}

/// The body of a section of the network information table (EN 300 468, 5.2.1): a network_name_descriptor, and for each stream its
/// cable_delivery_system_descriptor where it has one and its service_list_descriptor. Further descriptors of the network follow its
/// name, and those of a stream its list, in their order.
///
/// It needs a name of at most 255 bytes, cables whose digits fit, at most 85 services a stream, bodies of at most 255 bytes, and
/// descriptors of the network and streams of less than 4,096 bytes together, so that each length fits its field.
pub fn write_nit(alloc: Global, nit: &Nit) -> Result<Bytes, AllocError>
    requires name { length (shown_bytes nit.now.name) ≤ 255 }
    requires bodies { All FitsDescriptor nit.now.descriptors }
    requires room { HasNetworkRoom nit.now }
    requires streams { All FitsStream nit.now.streams }
    requires within { sum_by stream_size nit.now.streams < 4096 }
    ensures { IfOk result (λ body. body ≡ nit_body nit.now) }
{
    let mut streams = Vec::new(alloc);
    put_streams(nit.streams.as_slice(), &mut streams)?;
    let mut out = Vec::new(alloc);
    put_network(nit, &mut out)?;
    out.extend_from_slice(&(0xF000 + streams.len() as u16).to_be_bytes())?;
    out.extend_from_slice(&streams)?;
    Ok(Items::of(out))
}

/// How many bytes the entry of a stream has. It has the needs of [`write_nit`], and takes no memory.
pub fn stream_len(stream: &NitStream) -> usize
    requires { FitsStream stream.now }
    ensures { result ≡ stream_size stream.now }
{
    8 + usize::from(cable_len(&stream.cable))
        + 3 * stream.services.len()
        + descriptors_len(stream.descriptors.as_slice())
}

// Appends the name and the further descriptors of the network behind their length; want of memory may leave a part of them.
fn put_network(nit: &Nit, out: &mut Vec<u8>) -> Result<(), AllocError>
    requires name { length (shown_bytes nit.now.name) ≤ 255 }
    requires bodies { All FitsDescriptor nit.now.descriptors }
    requires room { HasNetworkRoom nit.now }
    ensures { OnOk result (out.new.items ≡ out.old.items ++ entry_bytes (network_entry nit.now)) }
{
    let descs = nit.descriptors.as_slice();
    let len = 2 + nit.name.coded_len() as u16 + descriptors_len(descs) as u16;
    out.extend_from_slice(&(0xF000 + len).to_be_bytes())?;
    write_network_name(&nit.name, out)?;
    write_descriptors(descs, out)
}

// Appends the entries of streams; want of memory may leave a part of them.
fn put_streams(streams: &[NitStream], out: &mut Vec<u8>) -> Result<(), AllocError>
    requires { All FitsStream streams.now }
    ensures { OnOk result (out.new.items ≡ out.old.items ++ flat_map stream_bytes streams.now) }
{
    for stream in streams {
        put_stream(stream, out)?;
    }
    Ok(())
}

// Appends the entry of a stream; want of memory may leave a part of it.
fn put_stream(stream: &NitStream, out: &mut Vec<u8>) -> Result<(), AllocError>
    requires { FitsStream stream.now }
    ensures { OnOk result (out.new.items ≡ out.old.items ++ stream_bytes stream.now) }
{
    let descs = stream.descriptors.as_slice();
    let list = 2 + 3 * stream.services.len() as u16;
    let len = cable_len(&stream.cable) + list + descriptors_len(descs) as u16;
    out.extend_from_slice(&stream.stream.to_be_bytes())?;
    out.extend_from_slice(&stream.original.to_be_bytes())?;
    out.extend_from_slice(&(0xF000 + len).to_be_bytes())?;
    put_cable(&stream.cable, out)?;
    write_service_list(stream.services.as_slice(), out)?;
    write_descriptors(descs, out)
}

// The bytes of the descriptor of a cable.
fn cable_len(cable: &Option<Cable>) -> u16
    ensures value { result ≡ cable_size cable.now }
    ensures few { result ≤ 13 }
{
    match cable {
        None => 0,
        Some(_) => 13,
    }
}

// Appends the descriptor of a cable, where there is one; want of memory changes nothing.
fn put_cable(cable: &Option<Cable>, out: &mut Vec<u8>) -> Result<(), AllocError>
    requires { IfSome cable.now FitsCable }
    ensures { OnOk result (out.new.items ≡ out.old.items ++ cable_descriptors cable.now) }
{
    match cable {
        None => Ok(()),
        Some(cable) => write_cable_delivery_system(cable, out),
    }
}

/// What the body of a section of the network information table says, or `None` exactly where it ends within an entry, a length runs
/// past the end, a descriptor runs past the end of its loop, or bytes are left over. Reserved bits may have any value
/// (EN 300 468, 5.2.1).
///
/// The name is that of the first network_name_descriptor; without one it is empty. A stream has the cable of its first
/// cable_delivery_system_descriptor and the services of its first service_list_descriptor whose body fits; without a list it has none.
/// All other descriptors are further ones.
pub fn read_nit(alloc: Global, body: &[u8]) -> Result<Option<Nit>, AllocError>
    ensures { IfOk result (λ read. read ≡ nit_in body.now) }
{
    let Some((network, behind)) = split_entry(0, body) else {
        return Ok(None);
    };
    let Some(descs) = network.descriptors(alloc)? else {
        return Ok(None);
    };
    let Some(entries) = split_loop(behind) else {
        return Ok(None);
    };
    let Some(streams) = read_entries::<StreamEntries>(alloc, entries)? else {
        return Ok(None);
    };
    let mut further = descs.into_vec();
    let name = take_name(alloc, &mut further)?;
    Ok(Some(Nit {
        name,
        descriptors: Items::of(further),
        streams,
    }))
}

/// Whether these bytes are the body of a section of the network information table, as `read_nit` reads it (EN 300 468, 5.2.1). It takes
/// no memory.
pub fn is_nit_body(body: &[u8]) -> bool
    ensures { result ≡ is_some (nit_in body.now) }
{
    let Some((network, behind)) = split_entry(0, body) else {
        return false;
    };
    match split_loop(behind) {
        Some(streams) => network.has_descriptors() && are_entries::<StreamEntries>(streams),
        None => false,
    }
}

// The bytes after a length of 12 bits; none where they are not as many as it says.
fn split_loop(bytes: &[u8]) -> Option<&[u8]>
    ensures { option_map (λ entries. entries.now) result ≡ loop_in bytes.now }
{
    let [high, low, entries @ ..] = bytes else {
        return None;
    };
    let length = 256 * u16::from(*high) + u16::from(*low);
    if entries.len() != (length % 4096) as usize {
        return None;
    }
    Some(entries)
}

// The entries of streams.
struct StreamEntries;

impl EntryKind for StreamEntries {
    type Value = NitStream;

    const SIZE: usize = 4;

    ghost SIZE = { 4 };

    ghost value_of = { stream_in };

    fn read(
        alloc: Global,
        entry: &RawEntry,
        descs: RawDescs,
    ) -> Result<Option<NitStream>, AllocError> {
        let stream = entry.two(0);
        let original = entry.two(2);
        Ok(Some(stream_of(alloc, stream, original, descs)?))
    }

    fn is_read(_entry: &RawEntry) -> bool {
        true
    }

    ghost is_narrow = { lit< tt };
}

// What descriptors say of a stream.
fn stream_of(
    alloc: Global,
    stream: u16,
    original: u16,
    descs: RawDescs,
) -> Result<NitStream, AllocError>
    ensures { IfOk result (λ said. said ≡ stream_with stream original descs) }
{
    let mut further = descs.into_vec();
    let cable = take_first::<CableDelivery>(alloc, &mut further)?;
    let services = take_services(alloc, &mut further)?;
    Ok(NitStream {
        stream,
        original,
        cable,
        services,
        descriptors: Items::of(further),
    })
}

// The first name; the other descriptors stay.
fn take_name(alloc: Global, descs: &mut Vec<RawDesc>) -> Result<Shown, AllocError>
    ensures name { IfOk result (λ name. name ≡ name_of descs.old.items) }
    ensures further { OnOk result (descs.new.items ≡ further_of_network descs.old.items) }
{
    match take_first::<NetworkName>(alloc, descs)? {
        Some(name) => Ok(name),
        None => no_text(alloc),
    }
}

// The services of the first list that fits; the other descriptors stay.
fn take_services(alloc: Global, descs: &mut Vec<RawDesc>) -> Result<ServiceKinds, AllocError>
    ensures services { IfOk result (λ services. services ≡ services_of descs.old.items) }
    ensures further { OnOk result (descs.new.items ≡ without_first 0x41 service_list_in always descs.old.items) }
{
    match take_first::<ServiceList>(alloc, descs)? {
        Some(services) => Ok(services),
        None => Ok(ServiceKinds::new(alloc)),
    }
}
