// Lines of further descriptors.
ghost use Rattle.std.specs.Prelude.{◌≡◌, IfOk};
ghost use Rattle.guide_model.specs.Descriptors.{is_among, is_free};
ghost use Rattle.mux_lines.specs.Further.{are_free, component_place, further_of, in_loop, made_in, of_id, of_pair, other_place, program_place, service_place};
ghost use Rattle.mux_lines.specs.Found.{spelled};
ghost use Rattle.input_lines.specs.Groups.{descriptors_in};

use crate::numbers::short;
use crate::record::{Place, Record, RecordFound};
use guide_model::{RawDesc, RawDescs, Txt};
use input_lines::{descriptors_in, is_word, numeral};
use std::alloc::{AllocError, Global};

// Whether a descriptor with this tag is always made there.
fn is_made(place: Place, tag: u8) -> bool
    ensures { result ≡ is_among (made_in place) tag }
{
    match place {
        Place::InNetwork => tag == 0x40,
        Place::InStream => tag == 0x41 || tag == 0x44,
        Place::InOther(_, _) => tag == 0x41 || tag == 0x44,
        Place::InService(_) => tag == 0x48,
        Place::InProgram(_) => false,
        Place::InComponent(_, _) => false,
    }
}

fn is_free(place: Place, tag: u8) -> bool
    ensures { result ≡ is_free (made_in place) tag }
{
    2 <= tag && tag <= 254 && !is_made(place, tag)
}

fn are_free(place: Place, descriptors: &[RawDesc]) -> bool
    ensures { result ≡ are_free place descriptors.now }
{
    descriptors.iter().all(
        |d: &RawDesc| -> bool
            ensures { result ≡ is_free (made_in place) d.now.tag }
        { is_free(place, d.tag) },
    )
}

// The descriptors of a place, where both are some.
fn further(place: Option<Place>, descriptors: Option<RawDescs>) -> RecordFound
    ensures { result ≡ further_of place descriptors }
{
    let Some(descriptors) = descriptors else {
        return RecordFound::NoRecord;
    };
    let Some(place) = place else {
        return RecordFound::OutOfRange;
    };
    if are_free(place, descriptors.as_slice()) {
        RecordFound::Is(Record::Further(place, descriptors))
    } else {
        RecordFound::OutOfRange
    }
}

// The place of a service's entry in the SDT; of its program; of its component; of another stream's entry in the NIT.
fn service_place(id: u32) -> Option<Place>
    ensures { result ≡ service_place id }
{
    Some(Place::InService(short(0, 65_535, id)?))
}

fn program_place(id: u32) -> Option<Place>
    ensures { result ≡ program_place id }
{
    Some(Place::InProgram(short(0, 65_535, id)?))
}

fn component_place(id: u32, pid: u32) -> Option<Place>
    ensures { result ≡ component_place id pid }
{
    let id = short(0, 65_535, id)?;
    let pid = short(32, 8_190, pid)?;
    Some(Place::InComponent(id, pid))
}

fn other_place(stream: u32, original: u32) -> Option<Place>
    ensures { result ≡ other_place stream original }
{
    let stream = short(0, 65_535, stream)?;
    let original = short(0, 65_535, original)?;
    Some(Place::InOther(stream, original))
}

/// `descriptor,network,DESCRIPTORS` and `descriptor,stream,DESCRIPTORS`
pub(crate) fn in_loop(alloc: Global, place: &Txt, field: &Txt) -> Result<RecordFound, AllocError>
    ensures { IfOk result (λ found. found ≡ in_loop place.now field.now) }
{
    let place = if is_word(place.as_str(), "network") {
        Place::InNetwork
    } else if is_word(place.as_str(), "stream") {
        Place::InStream
    } else {
        return Ok(RecordFound::NoRecord);
    };
    Ok(further(Some(place), descriptors_in(alloc, field.as_str())?))
}

fn of_service(alloc: Global, id: &Txt, field: &Txt) -> Result<RecordFound, AllocError>
    ensures { IfOk result (λ found. found ≡ spelled id.now (λ n. further_of (service_place n) (descriptors_in field.now))) }
{
    let Some(id) = numeral(id.as_str()) else {
        return Ok(RecordFound::NoRecord);
    };
    let descriptors = descriptors_in(alloc, field.as_str())?;
    Ok(further(service_place(id), descriptors))
}

fn of_program(alloc: Global, id: &Txt, field: &Txt) -> Result<RecordFound, AllocError>
    ensures { IfOk result (λ found. found ≡ spelled id.now (λ n. further_of (program_place n) (descriptors_in field.now))) }
{
    let Some(id) = numeral(id.as_str()) else {
        return Ok(RecordFound::NoRecord);
    };
    let descriptors = descriptors_in(alloc, field.as_str())?;
    Ok(further(program_place(id), descriptors))
}

/// `descriptor,service,ID,DESCRIPTORS` and `descriptor,program,ID,DESCRIPTORS`
pub(crate) fn of_id(
    alloc: Global,
    place: &Txt,
    id: &Txt,
    field: &Txt,
) -> Result<RecordFound, AllocError>
    ensures { IfOk result (λ found. found ≡ of_id place.now id.now field.now) }
{
    if is_word(place.as_str(), "service") {
        return of_service(alloc, id, field);
    }
    if is_word(place.as_str(), "program") {
        return of_program(alloc, id, field);
    }
    Ok(RecordFound::NoRecord)
}

fn of_component(alloc: Global, id: &Txt, pid: &Txt, field: &Txt) -> Result<RecordFound, AllocError>
    ensures { IfOk result (λ found. found ≡ spelled id.now (λ n. spelled pid.now (λ p. further_of (component_place n p) (descriptors_in field.now)))) }
{
    let Some(id) = numeral(id.as_str()) else {
        return Ok(RecordFound::NoRecord);
    };
    let Some(pid) = numeral(pid.as_str()) else {
        return Ok(RecordFound::NoRecord);
    };
    let descriptors = descriptors_in(alloc, field.as_str())?;
    Ok(further(component_place(id, pid), descriptors))
}

fn of_other(
    alloc: Global,
    stream: &Txt,
    original: &Txt,
    field: &Txt,
) -> Result<RecordFound, AllocError>
    ensures { IfOk result (λ found. found ≡ spelled stream.now (λ s. spelled original.now (λ o. further_of (other_place s o) (descriptors_in field.now)))) }
{
    let Some(stream) = numeral(stream.as_str()) else {
        return Ok(RecordFound::NoRecord);
    };
    let Some(original) = numeral(original.as_str()) else {
        return Ok(RecordFound::NoRecord);
    };
    let descriptors = descriptors_in(alloc, field.as_str())?;
    Ok(further(other_place(stream, original), descriptors))
}

/// `descriptor,component,ID,PID,DESCRIPTORS` and `descriptor,other,STREAM,ORIGINAL,DESCRIPTORS`
pub(crate) fn of_pair(
    alloc: Global,
    place: &Txt,
    first: &Txt,
    second: &Txt,
    field: &Txt,
) -> Result<RecordFound, AllocError>
    ensures { IfOk result (λ found. found ≡ of_pair place.now first.now second.now field.now) }
{
    if is_word(place.as_str(), "component") {
        return of_component(alloc, first, second, field);
    }
    if is_word(place.as_str(), "other") {
        return of_other(alloc, first, second, field);
    }
    Ok(RecordFound::NoRecord)
}
