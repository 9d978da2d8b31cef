// The multiplex that records make.
ghost use Rattle.std.specs.Prelude.{◌≡◌, ◌≤◌, ◌==◌, ◌&&◌, ◌||◌, ◌∷◌, ◌++◌, [], length, nat_lt, map, option_copied, position, take, drop, IfOk, OnOk};
ghost use Rattle.std.specs.Option.{unwrap_or};
ghost use Rattle.mux_model.specs.declared.mux.MuxService.{MuxService};
ghost use Rattle.mux_model.specs.declared.mux.Other.{Other};
ghost use Rattle.mux_model.specs.declared.mux.RemoteService.{RemoteService};
ghost use Rattle.mux_config.specs.Descriptions.{all_of, cable_of as the_cable, descriptors_at, said_at, is_same, with_descriptors as with_its_descriptors, ended, first, insert as inserted, is_network, is_stream, local_in, mux_with, network_in, part_in, quota_of as the_quota, rate_of as the_rate, said, service_in, services_of as the_services, start_of as the_start, stream_in, with_parts as with_its_parts, others_of as the_others, remote_of as the_remote, other_in, with_own as with_its_own, with_remotes as with_its_remotes};
ghost use Rattle.mux_lines.specs.declared.record.Place.TheVariants.{InNetwork, InStream, InOther, InService, InProgram};
ghost use Rattle.mux_model.specs.Order.{all_placed, placed};
ghost use Rattle.mux_model.specs.Sound.{comes_before, has_lower_id};
ghost use Rattle.mux_config.specs.Kinds.{put_other, put_remote, put_service};
ghost use Rattle.mux_config.specs.Reads.{Makes};
ghost use Rattle.std.specs.List.{cons_option};

use crate::fault::{MuxFault, Word};
use crate::kinds::{Kind, first_of};
use crate::stop::MuxStop;
use guide_model::{Cable, Component, Components, Offset, Offsets, RawDesc, RawDescs, Txt};
use mux_lines::{Numbered, Place, Record};
use mux_model::{Mux, MuxService, MuxServices, Other, Others, RemoteService, RemoteServices};
use si_base::{Copies, Items};
use si_time::Moment;
use std::alloc::{AllocError, Global};

/// The moment at which a desk starts, 1970-01-01T00:00:00Z, in seconds since Modified Julian Date 0.
const START: u64 = 3_506_716_800;
/// The packets between two repeats of the frequent tables.
const QUOTA: u32 = 200;

fn network_of(records: &[Numbered]) -> Result<Option<(u16, Txt)>, AllocError>
    ensures { IfOk result (λ found. found ≡ said network_in (first is_network records.now)) }
{
    match first_of(Kind::Networks, records) {
        Some(found) => match &found.says {
            Record::Network(id, name) => Ok(Some((*id, name.copy()?))),
            _ => Ok(None),
        },
        None => Ok(None),
    }
}

fn stream_of(records: &[Numbered]) -> Option<(u16, u16)>
    ensures { result ≡ said stream_in (first is_stream records.now) }
{
    match &first_of(Kind::Streams, records)?.says {
        Record::Stream(id, original) => Some((*id, *original)),
        _ => None,
    }
}

fn cable_of(records: &[Numbered]) -> Option<Cable>
    ensures { result ≡ the_cable records.now }
{
    match &first_of(Kind::Deliveries, records)?.says {
        Record::Delivery(cable) => Some(*cable),
        _ => None,
    }
}

fn start_of(records: &[Numbered]) -> Moment
    ensures { result ≡ the_start records.now }
{
    match first_of(Kind::Starts, records) {
        Some(found) => match &found.says {
            Record::Start(moment) => *moment,
            _ => Moment(START),
        },
        None => Moment(START),
    }
}

fn quota_of(records: &[Numbered]) -> u32
    ensures { result ≡ the_quota records.now }
{
    match first_of(Kind::Quotas, records) {
        Some(found) => match &found.says {
            Record::Quota(quota) => *quota,
            _ => QUOTA,
        },
        None => QUOTA,
    }
}

fn rate_of(records: &[Numbered]) -> Option<u32>
    ensures { result ≡ the_rate records.now }
{
    match &first_of(Kind::Rates, records)?.says {
        Record::Rate(rate) => Some(*rate),
        _ => None,
    }
}

// The component of a record, where it is one of this service.
fn part_of(service: u16, says: &Record) -> Option<&Component>
    ensures { option_copied result ≡ part_in service says.now }
{
    match says {
        Record::Part(id, component) => {
            if *id == service {
                Some(component)
            } else {
                None
            }
        }
        _ => None,
    }
}

// Whether two places are one.
fn is_same(a: Place, b: Place) -> bool
    ensures { result ≡ is_same a b }
{
    match a {
        Place::InNetwork => matches!(b, Place::InNetwork),
        Place::InStream => matches!(b, Place::InStream),
        Place::InOther(stream, original) => {
            matches!(b, Place::InOther(id, network) if id == stream && network == original)
        }
        Place::InService(id) => matches!(b, Place::InService(other) if other == id),
        Place::InProgram(id) => matches!(b, Place::InProgram(other) if other == id),
        Place::InComponent(id, pid) => {
            matches!(b, Place::InComponent(other, there) if other == id && there == pid)
        }
    }
}

// Appends copies of descriptors.
fn add_copies(descriptors: &mut RawDescs, more: &[RawDesc]) -> Result<(), AllocError>
    ensures { OnOk result (descriptors.new ≡ descriptors.old ++ more.now) }
{
    'more: for i in 0..more.len() {
        descriptors.push(more[i].copy()?)?;
    }
    Ok(())
}

// Appends the further descriptors of a record, where they are of this place.
fn take_descriptors(
    descriptors: &mut RawDescs,
    place: Place,
    says: &Record,
) -> Result<(), AllocError>
    ensures { OnOk result (descriptors.new ≡ descriptors.old ++ said_at place says.now) }
{
    if let Record::Further(there, more) = says {
        if is_same(*there, place) {
            add_copies(descriptors, more.as_slice())?;
        }
    }
    Ok(())
}

// The further descriptors of a place, in the order of lines.
fn descriptors_at(alloc: Global, records: &[Numbered], place: Place) -> Result<RawDescs, AllocError>
    ensures { IfOk result (λ descriptors. descriptors ≡ descriptors_at place records.now) }
{
    let mut descriptors = RawDescs::new(alloc);
    'records: for i in 0..records.len() {
        take_descriptors(&mut descriptors, place, &records[i].says)?;
    }
    Ok(descriptors)
}

// A component of a service with its further descriptors among the records.
fn with_descriptors(
    alloc: Global,
    records: &[Numbered],
    service: u16,
    component: &Component,
) -> Result<Component, AllocError>
    ensures { IfOk result (λ whole. whole ≡ with_its_descriptors records.now service component.now) }
{
    Ok(Component {
        stream_type: component.stream_type,
        pid: component.pid,
        language: component.language,
        descriptors: descriptors_at(alloc, records, Place::InComponent(service, component.pid))?,
    })
}

// The components of a service.
fn parts_of(alloc: Global, records: &[Numbered], service: u16) -> Result<Components, AllocError>
    ensures { IfOk result (λ parts. parts ≡ map (with_its_descriptors records.now service) (all_of (part_in service) records.now)) }
{
    let mut parts = Components::new(alloc);
    'records: for i in 0..records.len() {
        take_part(alloc, records, &mut parts, service, &records[i].says)?;
    }
    Ok(parts)
}

// Takes the component of a record, where it is one of this service, with its further descriptors.
fn take_part(
    alloc: Global,
    records: &[Numbered],
    parts: &mut Components,
    service: u16,
    says: &Record,
) -> Result<(), AllocError>
    ensures { OnOk result (parts.new ≡ parts.old ++ map (with_its_descriptors records.now service) (cons_option (part_in service says.now) [])) }
{
    if let Some(component) = part_of(service, says) {
        parts.push(with_descriptors(alloc, records, service, component)?)?;
    }
    Ok(())
}

// The offset of a record, where it is one.
fn offset_of(says: &Record) -> Option<Offset>
    ensures { result ≡ local_in says.now }
{
    match says {
        Record::Local(offset) => Some(*offset),
        _ => None,
    }
}

// The offsets.
fn offsets_of(alloc: Global, records: &[Numbered]) -> Result<Offsets, AllocError>
    ensures { IfOk result (λ offsets. offsets ≡ all_of local_in records.now) }
{
    let mut offsets = Offsets::new(alloc);
    'records: for i in 0..records.len() {
        take_offset(&mut offsets, &records[i].says)?;
    }
    Ok(offsets)
}

// Takes the offset of a record, where it is one.
fn take_offset(offsets: &mut Offsets, says: &Record) -> Result<(), AllocError>
    ensures { OnOk result (offsets.new ≡ offsets.old ++ cons_option (local_in says.now) []) }
{
    if let Some(offset) = offset_of(says) {
        offsets.push(offset)?;
    }
    Ok(())
}

// The further descriptors of a service in the SDT and of its program, and its components.
fn lists_of(
    alloc: Global,
    records: &[Numbered],
    service: u16,
) -> Result<(RawDescs, RawDescs, Components), AllocError>
    ensures { IfOk result (λ lists. lists ≡ (descriptors_at (InService service) records.now, descriptors_at (InProgram service) records.now, map (with_its_descriptors records.now service) (all_of (part_in service) records.now))) }
{
    let descriptors = descriptors_at(alloc, records, Place::InService(service))?;
    let of_program = descriptors_at(alloc, records, Place::InProgram(service))?;
    let components = parts_of(alloc, records, service)?;
    Ok((descriptors, of_program, components))
}

// A service with its components and its further descriptors among the records.
fn with_parts(
    alloc: Global,
    records: &[Numbered],
    service: &MuxService,
) -> Result<MuxService, AllocError>
    ensures { IfOk result (λ whole. whole ≡ with_its_parts records.now service.now) }
{
    let provider = service.provider.copy()?;
    let name = service.name.copy()?;
    let (descriptors, of_program, components) = lists_of(alloc, records, service.service)?;
    Ok(MuxService {
        service: service.service,
        feed: service.feed,
        kind: service.kind,
        pmt_pid: service.pmt_pid,
        pcr_pid: service.pcr_pid,
        provider,
        name,
        components,
        descriptors,
        program_descriptors: of_program,
    })
}

// The place of an id among services that ascend.
fn place(services: &[MuxService], id: u16) -> usize
    ensures bound { result ≤ length services.now }
    ensures place { (s : MuxService) → s.service ≡ id → inserted s services.now ≡ take result services.now ++ s ∷ drop result services.now }
{
    match first_above(services, id) {
        Some(at) => at,
        None => services.len(),
    }
}

// The first service with a higher id.
fn first_above(services: &[MuxService], id: u16) -> Option<usize>
    ensures { result ≡ position (λ (t : MuxService). nat_lt id t.service) services.now }
{
    services.iter().position(
        |t: &MuxService| -> bool
            ensures { result ≡ nat_lt id t.now.service }
        { id < t.service },
    )
}

// Puts a service at its place among services that ascend.
fn insert(services: &mut Vec<MuxService>, service: MuxService) -> Result<(), AllocError>
    ensures { OnOk result (services.new.items ≡ inserted service services.old.items) }
{
    let at = place(services, service.service);
    services.insert(at, service)?;
    Ok(())
}

// The services, in ascending order, each with its components.
fn services_of(alloc: Global, records: &[Numbered]) -> Result<MuxServices, AllocError>
    ensures { IfOk result (λ services. services ≡ the_services records.now) }
{
    let mut services = Vec::new(alloc);
    'records: for i in 0..records.len() {
        take_service(alloc, records, &mut services, &records[i].says)?;
    }
    Ok(Items::of(services))
}

// Puts the service of a record, where it is one, at its place, with its components.
fn take_service(
    alloc: Global,
    records: &[Numbered],
    services: &mut Vec<MuxService>,
    says: &Record,
) -> Result<(), AllocError>
    ensures { OnOk result (services.new.items ≡ put_service records.now services.old.items (service_in says.now)) }
{
    if let Record::Service(service) = says {
        let whole = with_parts(alloc, records, service)?;
        insert(services, whole)?;
    }
    Ok(())
}

// The service of a record, where it is one of this other stream.
fn remote_of(stream: u16, original: u16, says: &Record) -> Option<&RemoteService>
    ensures { option_copied result ≡ the_remote stream original says.now }
{
    match says {
        Record::Remote(id, network, service) => {
            if *id == stream && *network == original {
                Some(service)
            } else {
                None
            }
        }
        _ => None,
    }
}

// The place of a service among services that ascend.
fn remote_place(services: &[RemoteService], service: &RemoteService) -> usize
    ensures bound { result ≤ length services.now }
    ensures place { placed has_lower_id service.now services.now ≡ take result services.now ++ service.now ∷ drop result services.now }
{
    match first_remote_above(services, service.service) {
        Some(at) => at,
        None => services.len(),
    }
}

// The first service with a higher id.
fn first_remote_above(services: &[RemoteService], id: u16) -> Option<usize>
    ensures { result ≡ position (λ (t : RemoteService). nat_lt id t.service) services.now }
{
    services.iter().position(
        |t: &RemoteService| -> bool
            ensures { result ≡ nat_lt id t.now.service }
        { id < t.service },
    )
}

// A service of another stream with its further descriptors among the records.
fn with_own(
    alloc: Global,
    records: &[Numbered],
    service: &RemoteService,
) -> Result<RemoteService, AllocError>
    ensures { IfOk result (λ whole. whole ≡ with_its_own records.now service.now) }
{
    Ok(RemoteService {
        service: service.service,
        feed: service.feed,
        kind: service.kind,
        provider: service.provider.copy()?,
        name: service.name.copy()?,
        descriptors: descriptors_at(alloc, records, Place::InService(service.service))?,
    })
}

// Puts the service of a record at its place, with its further descriptors, where it is one of this other stream.
fn take_remote(
    alloc: Global,
    records: &[Numbered],
    services: &mut Vec<RemoteService>,
    ids: (u16, u16),
    says: &Record,
) -> Result<(), AllocError>
    ensures { OnOk result (services.new.items ≡ put_remote records.now services.old.items (the_remote ids.0 ids.1 says.now)) }
{
    if let Some(service) = remote_of(ids.0, ids.1, says) {
        let whole = with_own(alloc, records, service)?;
        let at = remote_place(services, &whole);
        services.insert(at, whole)?;
    }
    Ok(())
}

// The services of another stream, in ascending order, each with its further descriptors.
fn remotes_of(
    alloc: Global,
    records: &[Numbered],
    stream: u16,
    original: u16,
) -> Result<RemoteServices, AllocError>
    ensures { IfOk result (λ services. services ≡ map (with_its_own records.now) (all_placed has_lower_id (all_of (the_remote stream original) records.now) [])) }
{
    let mut services = Vec::new(alloc);
    'records: for i in 0..records.len() {
        take_remote(
            alloc,
            records,
            &mut services,
            (stream, original),
            &records[i].says,
        )?;
    }
    Ok(Items::of(services))
}

// The place of a stream among streams that ascend.
fn other_place(others: &[Other], other: &Other) -> usize
    ensures bound { result ≤ length others.now }
    ensures place { placed comes_before other.now others.now ≡ take result others.now ++ other.now ∷ drop result others.now }
{
    match first_other_above(others, other.stream, other.original) {
        Some(at) => at,
        None => others.len(),
    }
}

// The first stream that comes after the one with these ids.
fn first_other_above(others: &[Other], stream: u16, original: u16) -> Option<usize>
    ensures { result ≡ position (λ (o : Other). nat_lt stream o.stream || (stream == o.stream && nat_lt original o.original)) others.now }
{
    others.iter().position(
        |o: &Other| -> bool
            ensures { result ≡ (nat_lt stream o.now.stream || (stream == o.now.stream && nat_lt original o.now.original)) }
        { stream < o.stream || (stream == o.stream && original < o.original) },
    )
}

// Puts the other stream of a record, where it is one, at its place, with its services and its further descriptors.
fn take_other(
    alloc: Global,
    records: &[Numbered],
    others: &mut Vec<Other>,
    says: &Record,
) -> Result<(), AllocError>
    ensures { OnOk result (others.new.items ≡ put_other records.now others.old.items (other_in says.now)) }
{
    if let Record::Elsewhere(stream, original, cable) = says {
        let other = Other {
            stream: *stream,
            original: *original,
            cable: *cable,
            services: remotes_of(alloc, records, *stream, *original)?,
            descriptors: descriptors_at(alloc, records, Place::InOther(*stream, *original))?,
        };
        let at = other_place(others, &other);
        others.insert(at, other)?;
    }
    Ok(())
}

// The other streams, in ascending order, each with its services and its further descriptors.
fn others_of(alloc: Global, records: &[Numbered]) -> Result<Others, AllocError>
    ensures { IfOk result (λ others. others ≡ the_others records.now) }
{
    let mut others = Vec::new(alloc);
    'records: for i in 0..records.len() {
        take_other(alloc, records, &mut others, &records[i].says)?;
    }
    Ok(Items::of(others))
}

// The further descriptors of the network and of the stream, the offsets and the other streams.
fn rest_of(
    alloc: Global,
    records: &[Numbered],
) -> Result<(RawDescs, RawDescs, Offsets, Others), AllocError>
    ensures { IfOk result (λ rest. rest ≡ (descriptors_at InNetwork records.now, descriptors_at InStream records.now, all_of local_in records.now, the_others records.now)) }
{
    let of_network = descriptors_at(alloc, records, Place::InNetwork)?;
    let of_stream = descriptors_at(alloc, records, Place::InStream)?;
    let offsets = offsets_of(alloc, records)?;
    let others = others_of(alloc, records)?;
    Ok((of_network, of_stream, offsets, others))
}

// The multiplex of a network, a stream and the records, of which these are the services.
fn mux_with(
    alloc: Global,
    records: &[Numbered],
    network: (u16, Txt),
    stream: (u16, u16),
    services: MuxServices,
) -> Result<Mux, AllocError>
    requires { services ≡ the_services records.now }
    ensures { IfOk result (λ mux. mux ≡ mux_with network stream records.now) }
{
    let (of_network, of_stream, offsets, others) = rest_of(alloc, records)?;
    Ok(Mux {
        network: network.0,
        network_name: network.1,
        stream: stream.0,
        original: stream.1,
        cable: cable_of(records),
        start: start_of(records),
        quota: quota_of(records),
        rate: rate_of(records),
        offsets,
        services,
        others,
        network_descriptors: of_network,
        stream_descriptors: of_stream,
    })
}

/// The multiplex that these records make, or what is missing.
pub(crate) fn multiplex(alloc: Global, records: &[Numbered]) -> Result<Mux, MuxStop>
    ensures { Makes (ended records.now) result }
{
    let Some(network) = network_of(records)? else {
        return Err(MuxStop::Fault(MuxFault::Missing(Word::Network)));
    };
    let Some(stream) = stream_of(records) else {
        return Err(MuxStop::Fault(MuxFault::Missing(Word::Stream)));
    };
    let services = services_of(alloc, records)?;
    if services.is_empty() {
        return Err(MuxStop::Fault(MuxFault::Missing(Word::Service)));
    }
    Ok(mux_with(alloc, records, network, stream, services)?)
}
