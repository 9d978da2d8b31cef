// The room that records leave in a section: of the NIT with the entry of a stream, of the PMT of a service, and of the SDT with its entry.
ghost use Rattle.std.specs.Prelude.{◌≡◌, ◌+◌, ◌==◌, ◌&&◌, length, nat_lt, if◌then◌else◌};
ghost use Rattle.std.specs.List.{list_any};
ghost use Rattle.guide_model.specs.Descriptors.{descriptors_size};
ghost use Rattle.mux_lines.specs.declared.record.Numbered.{Numbered};
ghost use Rattle.mux_model.specs.Rooms.{cable_size, language_size};
ghost use Rattle.mux_config.specs.Kinds.{bytes_in, left_of};
ghost use Rattle.mux_config.specs.Taken.{is_full, is_full_at, other_bytes, own_bytes, passes_each, passes_of, passes_other, passes_own, passes_program, passes_service, program_bytes, service_bytes, sum_of};

use guide_model::{Cable, RawDesc, coded_len};
use mux_lines::{Numbered, Place, Record};

/// The most bytes of a body, and of the further descriptors of a service in the SDT; of these a section of the NIT and a PMT
/// have some without any record.
const MOST: usize = 1_012;

const MOST_OF_SERVICE: usize = 799;

const OF_NETWORK: usize = 14;

const OF_PROGRAM: usize = 4;

// A room: a section of the NIT with the entry of the own stream, and one with that of another stream; the PMT of a service;
// and the entry of one in the SDT.
#[derive(Clone, Copy)]
pub(crate) enum Room {
    Own,
    Other(u16, u16),
    Program(u16),
    Service(u16),
}

// What is left of a room with so many bytes more in it.
fn left_of(left: usize, bytes: usize) -> Option<usize>
    ensures { result ≡ left_of left bytes }
{
    if bytes <= left {
        Some(left - bytes)
    } else {
        None
    }
}

// What is left with descriptors in it, each with its tag and its length.
fn left_of_descriptors(left: usize, descriptors: &[RawDesc]) -> Option<usize>
    ensures { result ≡ left_of left (descriptors_size descriptors.now) }
{
    let mut rest = left;
    'descriptors: for i in 0..descriptors.len() {
        rest = left_of(rest, 2 + descriptors[i].body.as_slice().len())?;
    }
    Some(rest)
}

fn cable_len(cable: &Option<Cable>) -> usize
    ensures { result ≡ cable_size cable.now }
{
    match cable {
        Some(_) => 13,
        None => 0,
    }
}

fn language_len(language: &Option<[u8; 3]>) -> usize
    ensures { result ≡ language_size language.now }
{
    match language {
        Some(_) => 11,
        None => 5,
    }
}

// What is left of a section of the NIT with the entry of the own stream and a record.
fn left_of_stream(left: usize, says: &Record) -> Option<usize>
    ensures { result ≡ left_of left (own_bytes says.now) }
{
    match says {
        Record::Network(_, name) => left_of(left, coded_len(name.as_str())),
        Record::Delivery(_) => left_of(left, 13),
        Record::Service(_) => left_of(left, 3),
        Record::Further(Place::InNetwork, more) => left_of_descriptors(left, more.as_slice()),
        Record::Further(Place::InStream, more) => left_of_descriptors(left, more.as_slice()),
        _ => Some(left),
    }
}

// What is left with so many bytes in it, where they are of its own.
fn left_of_bytes(left: usize, is_own: bool, bytes: usize) -> Option<usize>
    ensures { result ≡ left_of left (if is_own then bytes else 0) }
{
    if is_own {
        left_of(left, bytes)
    } else {
        Some(left)
    }
}

// What is left with descriptors in it, where they are of its own.
fn left_of_own(left: usize, is_own: bool, descriptors: &[RawDesc]) -> Option<usize>
    ensures { result ≡ left_of left (if is_own then descriptors_size descriptors.now else 0) }
{
    if is_own {
        left_of_descriptors(left, descriptors)
    } else {
        Some(left)
    }
}

// What is left of a section of the NIT with the entry of the other stream with these ids and a record.
fn left_of_other(stream: u16, original: u16, left: usize, says: &Record) -> Option<usize>
    ensures { result ≡ left_of left (other_bytes stream original says.now) }
{
    match says {
        Record::Network(_, name) => left_of(left, coded_len(name.as_str())),
        Record::Elsewhere(id, network, cable) => {
            left_of_bytes(
                left,
                *id == stream && *network == original,
                cable_len(cable),
            )
        }
        Record::Remote(id, network, _) => {
            left_of_bytes(left, *id == stream && *network == original, 3)
        }
        Record::Further(Place::InNetwork, more) => left_of_descriptors(left, more.as_slice()),
        Record::Further(Place::InOther(id, network), more) => {
            left_of_own(left, *id == stream && *network == original, more.as_slice())
        }
        _ => Some(left),
    }
}

// What is left of the PMT of the service with this id with a record.
fn left_of_program(id: u16, left: usize, says: &Record) -> Option<usize>
    ensures { result ≡ left_of left (program_bytes id says.now) }
{
    match says {
        Record::Part(home, component) => {
            left_of_bytes(left, *home == id, language_len(&component.language))
        }
        Record::Further(Place::InProgram(home), more) => {
            left_of_own(left, *home == id, more.as_slice())
        }
        Record::Further(Place::InComponent(home, _), more) => {
            left_of_own(left, *home == id, more.as_slice())
        }
        _ => Some(left),
    }
}

// What is left of the entry of the service with this id with a record.
fn left_of_service(id: u16, left: usize, says: &Record) -> Option<usize>
    ensures { result ≡ left_of left (service_bytes id says.now) }
{
    match says {
        Record::Further(Place::InService(home), more) => {
            left_of_own(left, *home == id, more.as_slice())
        }
        _ => Some(left),
    }
}

fn left_by(room: Room, left: usize, says: &Record) -> Option<usize>
    ensures { result ≡ left_of left (bytes_in room says.now) }
{
    match room {
        Room::Own => left_of_stream(left, says),
        Room::Other(stream, original) => left_of_other(stream, original, left, says),
        Room::Program(id) => left_of_program(id, left, says),
        Room::Service(id) => left_of_service(id, left, says),
    }
}

// What is left of a room with these records.
fn left_after(room: Room, left: usize, records: &[Numbered]) -> Option<usize>
    ensures { result ≡ left_of left (sum_of (bytes_in room) records.now) }
{
    let mut rest = left;
    'records: for i in 0..records.len() {
        rest = left_by(room, rest, &records[i].says)?;
    }
    Some(rest)
}

// Whether a room is passed with these records and one more.
fn is_past(room: Room, most: usize, records: &[Numbered], says: &Record) -> bool
    ensures { result ≡ nat_lt most (sum_of (bytes_in room) records.now + bytes_in room says.now) }
{
    match left_after(room, most, records) {
        Some(left) => left_by(room, left, says).is_none(),
        None => true,
    }
}

fn passes_own(records: &[Numbered], says: &Record) -> bool
    ensures { result ≡ passes_own records.now says.now }
{
    is_past(Room::Own, MOST - OF_NETWORK, records, says)
}

fn passes_other(stream: u16, original: u16, records: &[Numbered], says: &Record) -> bool
    ensures { result ≡ passes_other stream original records.now says.now }
{
    is_past(
        Room::Other(stream, original),
        MOST - OF_NETWORK,
        records,
        says,
    )
}

// The same of the other stream which an earlier record is.
fn passes_of(records: &[Numbered], says: &Record, earlier: &Record) -> bool
    ensures { result ≡ passes_of records.now says.now earlier.now }
{
    match earlier {
        Record::Elsewhere(stream, original, _) => passes_other(*stream, *original, records, says),
        _ => false,
    }
}

fn passes_any(records: &[Numbered], says: &Record) -> bool
    ensures { result ≡ list_any (λ (r : Numbered). passes_of records.now says.now r.says) records.now }
{
    records.iter().any(|r| passes_of(records, says, &r.says))
}

// Whether a record passes a section of the NIT with the entry of whatever stream.
fn passes_each(records: &[Numbered], says: &Record) -> bool
    ensures { result ≡ passes_each records.now says.now }
{
    passes_own(records, says) || passes_any(records, says)
}

fn passes_program(id: u16, records: &[Numbered], says: &Record) -> bool
    ensures { result ≡ passes_program id records.now says.now }
{
    is_past(Room::Program(id), MOST - OF_PROGRAM, records, says)
}

fn passes_service(id: u16, records: &[Numbered], says: &Record) -> bool
    ensures { result ≡ passes_service id records.now says.now }
{
    is_past(Room::Service(id), MOST_OF_SERVICE, records, says)
}

// Whether a record of further descriptors passes the room of their place.
fn is_full_at(place: Place, records: &[Numbered], says: &Record) -> bool
    ensures { result ≡ is_full_at records.now place says.now }
{
    match place {
        Place::InNetwork => passes_each(records, says),
        Place::InStream => passes_own(records, says),
        Place::InOther(stream, original) => passes_other(stream, original, records, says),
        Place::InService(id) => passes_service(id, records, says),
        Place::InProgram(id) => passes_program(id, records, says),
        Place::InComponent(id, _) => passes_program(id, records, says),
    }
}

/// Whether a record passes its room after these.
pub(crate) fn is_full(records: &[Numbered], says: &Record) -> bool
    ensures { result ≡ is_full records.now says.now }
{
    match says {
        Record::Network(_, _) => passes_each(records, says),
        Record::Part(id, _) => passes_program(*id, records, says),
        Record::Elsewhere(stream, original, _) => passes_other(*stream, *original, records, says),
        Record::Remote(stream, original, _) => passes_other(*stream, *original, records, says),
        Record::Further(place, _) => is_full_at(*place, records, says),
        _ => passes_own(records, says),
    }
}
