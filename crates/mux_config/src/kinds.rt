// Kinds of records, and what a record repeats of those before it. A description has at most 1,189
// records beside those of further descriptors, and of these no more than sections have room for: so
// each is held against all before it.
ghost use Rattle.std.specs.Prelude.{◌≡◌, ◌||◌, not, nat_le, length, option_copied};
ghost use Rattle.std.specs.Option.{option_or, is_some};
ghost use Rattle.std.specs.List.{count_by, find, list_any};
ghost use Rattle.mux_lines.specs.declared.record.Numbered.{Numbered};
ghost use Rattle.mux_config.specs.Descriptions.{all_of, has_no_place, repeated_at, first_line, has_any_id, has_id, has_ids, has_pmt, has_pid, has_part, has_region, is_language_descriptor, is_other, is_spoken, is_stream, lacks_place, local_in, other_in, part_in, remote_in, service_in, spoken_at};
ghost use Rattle.mux_config.specs.Kinds.{is_of};

use guide_model::{Offset, RawDesc};
use mux_lines::{Numbered, Place, Record};

/// The most services of a multiplex, the most components of a service, the most offsets, the most
/// other streams, and the most services of those.
const MOST_SERVICES: usize = 64;

const MOST_PARTS: usize = 16;

const MOST_OFFSETS: usize = 16;

const MOST_OTHERS: usize = 15;

const MOST_REMOTES: usize = 64;

// A kind of records: those that come once; offsets of the region of one; services of whatever
// stream with an id; streams, the own one and others, with these ids; services whose PMT has a PID,
// and components that have it; those that hold a PID as a PMT or in a service; the component of a
// service with a PID, where it has a language; and all services, the components of one, all offsets, all other streams and all their services.
#[derive(Clone, Copy)]
pub(crate) enum Kind {
    Networks,
    Streams,
    Deliveries,
    Starts,
    Quotas,
    Rates,
    Regions(Offset),
    Ids(u16),
    Pairs(u16, u16),
    Pmts(u16),
    Pids(u16),
    Holders(u16, u16),
    Spoken(u16, u16),
    Services,
    Parts(u16),
    Offsets,
    Others,
    Remotes,
}

// Whether a record is of a kind.
pub(crate) fn is_of_kind(kind: Kind, says: &Record) -> bool
    ensures { result ≡ is_of kind says.now }
{
    match kind {
        Kind::Networks => matches!(says, Record::Network(_, _)),
        Kind::Streams => matches!(says, Record::Stream(_, _)),
        Kind::Deliveries => matches!(says, Record::Delivery(_)),
        Kind::Starts => matches!(says, Record::Start(_)),
        Kind::Quotas => matches!(says, Record::Quota(_)),
        Kind::Rates => matches!(says, Record::Rate(_)),
        Kind::Regions(offset) => has_region(offset, says),
        Kind::Ids(id) => has_any_id(id, says),
        Kind::Pairs(stream, original) => has_ids(stream, original, says),
        Kind::Pmts(pid) => has_pmt(pid, says),
        Kind::Pids(pid) => has_pid(pid, says),
        Kind::Holders(id, pid) => has_pmt(pid, says) || has_part(id, pid, says),
        Kind::Spoken(id, pid) => is_spoken(id, pid, says),
        Kind::Services => matches!(says, Record::Service(_)),
        Kind::Parts(id) => is_part_of(id, says),
        Kind::Offsets => matches!(says, Record::Local(_)),
        Kind::Others => matches!(says, Record::Elsewhere(_, _, _)),
        Kind::Remotes => matches!(says, Record::Remote(_, _, _)),
    }
}

fn has_region(offset: Offset, says: &Record) -> bool
    ensures { result ≡ has_region offset says.now }
{
    match says {
        Record::Local(other) => { other.country == offset.country && other.region == offset.region }
        _ => false,
    }
}

fn has_any_id(id: u16, says: &Record) -> bool
    ensures { result ≡ has_any_id id says.now }
{
    match says {
        Record::Service(service) => service.service == id,
        Record::Remote(_, _, service) => service.service == id,
        _ => false,
    }
}

fn has_ids(stream: u16, original: u16, says: &Record) -> bool
    ensures { result ≡ has_ids stream original says.now }
{
    match says {
        Record::Stream(id, network) => *id == stream && *network == original,
        Record::Elsewhere(id, network, _) => *id == stream && *network == original,
        _ => false,
    }
}

fn is_other(stream: u16, original: u16, says: &Record) -> bool
    ensures { result ≡ is_other stream original says.now }
{
    match says {
        Record::Elsewhere(id, network, _) => *id == stream && *network == original,
        _ => false,
    }
}

fn has_id(id: u16, says: &Record) -> bool
    ensures { result ≡ has_id id says.now }
{
    match says {
        Record::Service(service) => service.service == id,
        _ => false,
    }
}

fn has_pmt(pid: u16, says: &Record) -> bool
    ensures { result ≡ has_pmt pid says.now }
{
    match says {
        Record::Service(service) => service.pmt_pid == pid,
        _ => false,
    }
}

fn has_pid(pid: u16, says: &Record) -> bool
    ensures { result ≡ has_pid pid says.now }
{
    match says {
        Record::Part(_, component) => component.pid == pid,
        _ => false,
    }
}

// Whether a record is a component of this service.
fn is_part_of(id: u16, says: &Record) -> bool
    ensures { result ≡ is_some (part_in id says.now) }
{
    match says {
        Record::Part(service, _) => *service == id,
        _ => false,
    }
}

fn has_part(id: u16, pid: u16, says: &Record) -> bool
    ensures { result ≡ has_part id pid says.now }
{
    match says {
        Record::Part(service, component) => *service == id && component.pid == pid,
        _ => false,
    }
}

fn is_spoken(id: u16, pid: u16, says: &Record) -> bool
    ensures { result ≡ is_spoken id pid says.now }
{
    match says {
        Record::Part(service, component) => {
            *service == id && (component.pid == pid && component.language.is_some())
        }
        _ => false,
    }
}

/// The first record of a kind.
pub(crate) fn first_of(kind: Kind, records: &[Numbered]) -> Option<&Numbered>
    ensures { option_copied result ≡ find (λ (r : Numbered). is_of kind r.says) records.now }
{
    records.iter().find(
        |r: &&Numbered| -> bool
            ensures { result ≡ is_of kind r.now.now.says }
        { is_of_kind(kind, &r.says) },
    )
}

// The line of the first record of a kind.
fn first_line(kind: Kind, records: &[Numbered]) -> Option<u64>
    ensures { result ≡ first_line (is_of kind) records.now }
{
    match first_of(kind, records) {
        Some(found) => Some(found.line),
        None => None,
    }
}

// How many records are of a kind.
fn count_of(kind: Kind, records: &[Numbered]) -> usize
    ensures { result ≡ count_by (λ (r : Numbered). is_of kind r.says) records.now }
{
    records
        .iter()
        .filter(
            |r: &&Numbered| -> bool
                ensures { result ≡ is_of kind r.now.now.says }
            { is_of_kind(kind, &r.says) },
        )
        .count()
}

fn has_other(stream: u16, original: u16, records: &[Numbered]) -> bool
    ensures { result ≡ list_any (λ (r : Numbered). is_other stream original r.says) records.now }
{
    records.iter().any(|r| is_other(stream, original, &r.says))
}

fn has_any_service(id: u16, records: &[Numbered]) -> bool
    ensures { result ≡ list_any (λ (r : Numbered). has_any_id id r.says) records.now }
{
    records.iter().any(|r| has_any_id(id, &r.says))
}

fn has_service(id: u16, records: &[Numbered]) -> bool
    ensures { result ≡ list_any (λ (r : Numbered). has_id id r.says) records.now }
{
    records.iter().any(|r| has_id(id, &r.says))
}

fn has_component(id: u16, pid: u16, records: &[Numbered]) -> bool
    ensures { result ≡ list_any (λ (r : Numbered). has_part id pid r.says) records.now }
{
    records.iter().any(|r| has_part(id, pid, &r.says))
}

// Whether there is no stream, service or component with a place for further descriptors.
fn lacks_place(place: Place, records: &[Numbered]) -> bool
    ensures { result ≡ lacks_place records.now place }
{
    match place {
        Place::InNetwork => false,
        Place::InStream => false,
        Place::InOther(stream, original) => !has_other(stream, original, records),
        Place::InService(id) => !has_any_service(id, records),
        Place::InProgram(id) => !has_service(id, records),
        Place::InComponent(id, pid) => !has_component(id, pid, records),
    }
}

// Whether there is no service with this id, or it has as many components as it may have.
fn lacks_room(id: u16, records: &[Numbered]) -> bool
    ensures { result ≡ (not (list_any (λ (r : Numbered). has_id id r.says) records.now) || nat_le 16 (length (all_of (part_in id) records.now))) }
{
    if has_service(id, records) {
        MOST_PARTS <= count_of(Kind::Parts(id), records)
    } else {
        true
    }
}

// Whether there is no other stream with these ids, or other streams have as many services as they
// may have.
fn lacks_stream(stream: u16, original: u16, records: &[Numbered]) -> bool
    ensures { result ≡ (not (list_any (λ (r : Numbered). is_other stream original r.says) records.now) || nat_le 64 (length (all_of remote_in records.now))) }
{
    if has_other(stream, original, records) {
        MOST_REMOTES <= count_of(Kind::Remotes, records)
    } else {
        true
    }
}

/// Whether a record has no place after these.
pub(crate) fn has_no_place(records: &[Numbered], says: &Record) -> bool
    ensures { result ≡ has_no_place records.now says.now }
{
    match says {
        Record::Service(_) => MOST_SERVICES <= count_of(Kind::Services, records),
        Record::Part(id, _) => lacks_room(*id, records),
        Record::Local(_) => MOST_OFFSETS <= count_of(Kind::Offsets, records),
        Record::Elsewhere(_, _, _) => MOST_OTHERS <= count_of(Kind::Others, records),
        Record::Remote(stream, original, _) => lacks_stream(*stream, *original, records),
        Record::Further(place, _) => lacks_place(*place, records),
        _ => false,
    }
}

// The first line that has what a service with this id and this PMT PID repeats.
fn service_at(id: u16, pmt_pid: u16, records: &[Numbered]) -> Option<u64>
    ensures { result ≡ option_or (first_line (has_any_id id) records.now) (option_or (first_line (has_pmt pmt_pid) records.now) (first_line (has_pid pmt_pid) records.now)) }
{
    if let Some(line) = first_line(Kind::Ids(id), records) {
        return Some(line);
    }
    if let Some(line) = first_line(Kind::Pmts(pmt_pid), records) {
        return Some(line);
    }
    first_line(Kind::Pids(pmt_pid), records)
}

// The first line that has what the stream with these ids repeats.
fn stream_at(stream: u16, original: u16, records: &[Numbered]) -> Option<u64>
    ensures { result ≡ option_or (first_line is_stream records.now) (first_line (has_ids stream original) records.now) }
{
    if let Some(line) = first_line(Kind::Streams, records) {
        return Some(line);
    }
    first_line(Kind::Pairs(stream, original), records)
}

fn have_language(descriptors: &[RawDesc]) -> bool
    ensures { result ≡ list_any is_language_descriptor descriptors.now }
{
    descriptors.iter().any(
        |d: &RawDesc| -> bool
            ensures { result ≡ is_language_descriptor d.now }
        { d.tag == 0x0A },
    )
}

// The line of the component with a language, where descriptors of it are one.
fn spoken_at(place: Place, descriptors: &[RawDesc], records: &[Numbered]) -> Option<u64>
    ensures { result ≡ spoken_at records.now place descriptors.now }
{
    let Place::InComponent(id, pid) = place else {
        return None;
    };
    if have_language(descriptors) {
        first_line(Kind::Spoken(id, pid), records)
    } else {
        None
    }
}

/// The first line that has what a record repeats.
pub(crate) fn repeated_at(records: &[Numbered], says: &Record) -> Option<u64>
    ensures { result ≡ repeated_at records.now says.now }
{
    match says {
        Record::Network(_, _) => first_line(Kind::Networks, records),
        Record::Stream(stream, original) => stream_at(*stream, *original, records),
        Record::Delivery(_) => first_line(Kind::Deliveries, records),
        Record::Start(_) => first_line(Kind::Starts, records),
        Record::Quota(_) => first_line(Kind::Quotas, records),
        Record::Rate(_) => first_line(Kind::Rates, records),
        Record::Service(service) => service_at(service.service, service.pmt_pid, records),
        Record::Part(id, component) => first_line(Kind::Holders(*id, component.pid), records),
        Record::Local(offset) => first_line(Kind::Regions(*offset), records),
        Record::Elsewhere(stream, original, _) => {
            first_line(Kind::Pairs(*stream, *original), records)
        }
        Record::Remote(_, _, service) => first_line(Kind::Ids(service.service), records),
        Record::Further(place, more) => spoken_at(*place, more.as_slice(), records),
        Record::End => None,
    }
}
