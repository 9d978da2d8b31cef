// What the fields of a line say.
ghost use Rattle.std.specs.Prelude.{◌≡◌, ◌<◌, ◌∷◌, [], true, false, IfOk, IfSome, IfNone, Some, option_map};
ghost use Rattle.guide_model.specs.Coding.{coded_size};
ghost use Rattle.input_lines.specs.Numbers.{in_range};
ghost use Rattle.mux_model.specs.Sound.{farthest};
ghost use Rattle.mux_lines.specs.Fields.{network_in, stream_in, cable_in, delivery_with, are_ids, other_in, other_by, cabled_in, remote_with, remote_by, remote_numbers_in, remote_of as numbers_remote, eight_in, five_in, three_in, numbers_in, service_with, service_of as numbers_service, bare_service, is_letter as is_small_letter, is_language as is_a_language, language_of, part_in, is_capital, country_of, side_of, offset_with, offset_in, start_in, quota_in, rate_in, found_in, found_line};

use crate::further::{in_loop, of_id, of_pair};
use crate::numbers::{byte, is_in, short};
use crate::record::{Record, RecordFound};
use guide_model::{Cable, Component, Components, Offset, RawDescs, Txt, coded_len};
use input_lines::{fields, is_word, numeral};
use mux_model::{MuxService, RemoteService};
use si_time::{Moment, read_moment};
use std::alloc::{AllocError, Global};

// Whether the coded form of a text has a size in a range.
fn fits(low: usize, text: &Txt) -> bool
    ensures { result ≡ in_range low 100 (coded_size text.now) }
{
    let size = coded_len(text.as_str());
    low <= size && size <= 100
}

// `network,ID,NAME`
fn network(id: &Txt, name: &Txt) -> Result<RecordFound, AllocError>
    ensures { IfOk result (λ found. found ≡ network_in id.now name.now) }
{
    let Some(id) = numeral(id.as_str()) else {
        return Ok(RecordFound::NoRecord);
    };
    let Some(id) = short(0, 65_535, id) else {
        return Ok(RecordFound::OutOfRange);
    };
    if !fits(1, name) {
        return Ok(RecordFound::OutOfRange);
    }
    Ok(RecordFound::Is(Record::Network(id, name.copy()?)))
}

// `stream,ID,ORIGINAL`
fn stream(id: &Txt, original: &Txt) -> RecordFound
    ensures { result ≡ stream_in id.now original.now }
{
    let Some(id) = numeral(id.as_str()) else {
        return RecordFound::NoRecord;
    };
    let Some(original) = numeral(original.as_str()) else {
        return RecordFound::NoRecord;
    };
    let Some(id) = short(0, 65_535, id) else {
        return RecordFound::OutOfRange;
    };
    let Some(original) = short(0, 65_535, original) else {
        return RecordFound::OutOfRange;
    };
    RecordFound::Is(Record::Stream(id, original))
}

// `cable,FREQUENCY,MODULATION,SYMBOLRATE,OUTER,INNER`
fn cable(frequency: &Txt, modulation: &Txt, rate: &Txt, outer: &Txt, inner: &Txt) -> RecordFound
    ensures { result ≡ cable_in frequency.now modulation.now rate.now outer.now inner.now }
{
    let Some(frequency) = numeral(frequency.as_str()) else {
        return RecordFound::NoRecord;
    };
    let Some(modulation) = numeral(modulation.as_str()) else {
        return RecordFound::NoRecord;
    };
    let Some(rate) = numeral(rate.as_str()) else {
        return RecordFound::NoRecord;
    };
    let Some(outer) = numeral(outer.as_str()) else {
        return RecordFound::NoRecord;
    };
    let Some(inner) = numeral(inner.as_str()) else {
        return RecordFound::NoRecord;
    };
    delivery(frequency, modulation, rate, outer, inner)
}

// The cable delivery of these numbers.
fn delivery(
    frequency: u32,
    modulation: u32,
    symbol_rate: u32,
    outer: u32,
    inner: u32,
) -> RecordFound
    ensures { result ≡ delivery_with frequency modulation symbol_rate outer inner }
{
    if !is_in(0, 99_999_999, frequency) {
        return RecordFound::OutOfRange;
    }
    let Some(modulation) = byte(0, 255, modulation) else {
        return RecordFound::OutOfRange;
    };
    if !is_in(0, 9_999_999, symbol_rate) {
        return RecordFound::OutOfRange;
    }
    let Some(fec_outer) = byte(0, 15, outer) else {
        return RecordFound::OutOfRange;
    };
    let Some(fec_inner) = byte(0, 15, inner) else {
        return RecordFound::OutOfRange;
    };
    RecordFound::Is(Record::Delivery(Cable {
        frequency,
        modulation,
        symbol_rate,
        fec_outer,
        fec_inner,
    }))
}

// The numbers of a service, as they are spelled.
#[derive(Clone, Copy)]
struct Numbers {
    service: u32,
    feed: u32,
    kind: u32,
    pmt_pid: u32,
    pcr_pid: u32,
}

// The service of these numbers.
fn service_of(
    alloc: Global,
    numbers: Numbers,
    provider: &Txt,
    name: &Txt,
) -> Result<RecordFound, AllocError>
    ensures { IfOk result (λ found. found ≡ service_with (bare_service numbers.service numbers.feed numbers.kind numbers.pmt_pid numbers.pcr_pid provider.now name.now)) }
{
    let Some(service) = short(1, 65_535, numbers.service) else {
        return Ok(RecordFound::OutOfRange);
    };
    let Some(feed) = byte(1, 16, numbers.feed) else {
        return Ok(RecordFound::OutOfRange);
    };
    let Some(kind) = byte(0, 255, numbers.kind) else {
        return Ok(RecordFound::OutOfRange);
    };
    let Some(pmt_pid) = short(32, 8_190, numbers.pmt_pid) else {
        return Ok(RecordFound::OutOfRange);
    };
    let Some(pcr_pid) = short(32, 8_191, numbers.pcr_pid) else {
        return Ok(RecordFound::OutOfRange);
    };
    if !fits(0, provider) {
        return Ok(RecordFound::OutOfRange);
    }
    if !fits(1, name) {
        return Ok(RecordFound::OutOfRange);
    }
    Ok(RecordFound::Is(Record::Service(MuxService {
        service,
        feed,
        kind,
        pmt_pid,
        pcr_pid,
        provider: provider.copy()?,
        name: name.copy()?,
        components: Components::new(alloc),
        descriptors: RawDescs::new(alloc),
        program_descriptors: RawDescs::new(alloc),
    })))
}

// The numbers of a service, where each is spelled as one.
fn service_numbers(id: &Txt, feed: &Txt, kind: &Txt, pmt: &Txt, pcr: &Txt) -> Option<Numbers>
    ensures { result ≡ numbers_in id.now feed.now kind.now pmt.now pcr.now }
{
    let service = numeral(id.as_str())?;
    let feed = numeral(feed.as_str())?;
    let kind = numeral(kind.as_str())?;
    let pmt_pid = numeral(pmt.as_str())?;
    let pcr_pid = numeral(pcr.as_str())?;
    Some(Numbers {
        service,
        feed,
        kind,
        pmt_pid,
        pcr_pid,
    })
}

// Whether a field is no language, or three letters.
fn is_language(field: &Txt) -> bool
    ensures { result ≡ is_a_language field.now }
{
    match field.as_str().as_bytes() {
        [] => true,
        [a, b, c] => is_letter(*a) && (is_letter(*b) && is_letter(*c)),
        _ => false,
    }
}

fn is_letter(b: u8) -> bool
    ensures { result ≡ is_small_letter b }
{
    b'a' <= b && b <= b'z'
}

// The language that a field is.
fn language(field: &Txt) -> Option<[u8; 3]>
    requires { is_a_language field.now ≡ true }
    ensures { result ≡ language_of field.now }
{
    match field.as_str().as_bytes() {
        [a, b, c] => Some([*a, *b, *c]),
        _ => None,
    }
}

// `component,SERVICE,TYPE,PID,LANGUAGE`
fn part(alloc: Global, service: &Txt, kind: &Txt, pid: &Txt, spoken: &Txt) -> RecordFound
    ensures { result ≡ part_in service.now kind.now pid.now spoken.now }
{
    let Some(service) = numeral(service.as_str()) else {
        return RecordFound::NoRecord;
    };
    let Some(kind) = numeral(kind.as_str()) else {
        return RecordFound::NoRecord;
    };
    let Some(pid) = numeral(pid.as_str()) else {
        return RecordFound::NoRecord;
    };
    let Some(service) = short(0, 65_535, service) else {
        return RecordFound::OutOfRange;
    };
    let Some(stream_type) = byte(0, 255, kind) else {
        return RecordFound::OutOfRange;
    };
    let Some(pid) = short(32, 8_190, pid) else {
        return RecordFound::OutOfRange;
    };
    if !is_language(spoken) {
        return RecordFound::OutOfRange;
    }
    RecordFound::Is(Record::Part(
        service,
        Component {
            stream_type,
            pid,
            language: language(spoken),
            descriptors: RawDescs::new(alloc),
        },
    ))
}

// The country that a field is.
fn country(field: &Txt) -> Option<[u8; 3]>
    ensures { result ≡ country_of field.now }
{
    match field.as_str().as_bytes() {
        [a, b, c] => {
            if is_capital(*a) && (is_capital(*b) && is_capital(*c)) {
                Some([*a, *b, *c])
            } else {
                None
            }
        }
        _ => None,
    }
}

fn is_capital(b: u8) -> bool
    ensures { result ≡ is_capital b }
{
    b'A' <= b && b <= b'Z'
}

// Whether clocks are behind UTC.
fn side(field: &Txt) -> Option<bool>
    ensures { result ≡ side_of field.now }
{
    if is_word(field.as_str(), "ahead") {
        return Some(false);
    }
    if is_word(field.as_str(), "behind") {
        return Some(true);
    }
    None
}

// The most minutes that clocks are from UTC.
fn farthest(behind: bool) -> u32
    ensures value { result ≡ farthest behind }
    ensures bound { result < 65536 }
{
    if behind { 720 } else { 780 }
}

// The offset of these fields.
fn local(
    country: [u8; 3],
    region: u32,
    behind: bool,
    minutes: u32,
    change: Moment,
    next: u32,
) -> RecordFound
    ensures { result ≡ offset_with (Some country) region (Some behind) minutes (Some change.0) next }
{
    let Some(region) = byte(0, 63, region) else {
        return RecordFound::OutOfRange;
    };
    let most = farthest(behind);
    let Some(minutes) = short(0, most, minutes) else {
        return RecordFound::OutOfRange;
    };
    let Some(next) = short(0, most, next) else {
        return RecordFound::OutOfRange;
    };
    RecordFound::Is(Record::Local(Offset {
        country,
        region,
        behind,
        minutes,
        change,
        next,
    }))
}

// The offset, where its country, its side and its moment are some.
fn local_of(
    country: Option<[u8; 3]>,
    region: u32,
    side: Option<bool>,
    minutes: u32,
    change: Option<Moment>,
    next: u32,
) -> RecordFound
    ensures { result ≡ offset_with country region side minutes (option_map (λ at. at.0) change) next }
{
    let Some(country) = country else {
        return RecordFound::OutOfRange;
    };
    let Some(behind) = side else {
        return RecordFound::OutOfRange;
    };
    let Some(change) = change else {
        return RecordFound::OutOfRange;
    };
    local(country, region, behind, minutes, change, next)
}

// `offset,COUNTRY,REGION,SIDE,MINUTES,CHANGE,NEXT`
fn offset(
    letters: &Txt,
    region: &Txt,
    ahead: &Txt,
    minutes: &Txt,
    change: &Txt,
    next: &Txt,
) -> RecordFound
    ensures { result ≡ offset_in letters.now region.now ahead.now minutes.now change.now next.now }
{
    let Some(region) = numeral(region.as_str()) else {
        return RecordFound::NoRecord;
    };
    let Some(minutes) = numeral(minutes.as_str()) else {
        return RecordFound::NoRecord;
    };
    let Some(next) = numeral(next.as_str()) else {
        return RecordFound::NoRecord;
    };
    local_of(
        country(letters),
        region,
        side(ahead),
        minutes,
        read_moment(change.as_str().as_bytes()),
        next,
    )
}

// `start,MOMENT`
fn start(moment: &Txt) -> RecordFound
    ensures { result ≡ start_in moment.now }
{
    match read_moment(moment.as_str().as_bytes()) {
        Some(moment) => RecordFound::Is(Record::Start(moment)),
        None => RecordFound::OutOfRange,
    }
}

// `quota,N`
fn quota(quota: &Txt) -> RecordFound
    ensures { result ≡ quota_in quota.now }
{
    let Some(n) = numeral(quota.as_str()) else {
        return RecordFound::NoRecord;
    };
    if is_in(1, 10_000, n) {
        RecordFound::Is(Record::Quota(n))
    } else {
        RecordFound::OutOfRange
    }
}

// `rate,BITS`
fn rate(rate: &Txt) -> RecordFound
    ensures { result ≡ rate_in rate.now }
{
    let Some(n) = numeral(rate.as_str()) else {
        return RecordFound::NoRecord;
    };
    if is_in(100_000, 100_000_000, n) {
        RecordFound::Is(Record::Rate(n))
    } else {
        RecordFound::OutOfRange
    }
}

// The ids of a stream, where both are in their range.
fn ids(stream: u32, original: u32) -> Option<(u16, u16)>
    ensures some { IfSome result (λ both. (are_ids stream original ≡ true) × (both ≡ (stream, original))) }
    ensures none { IfNone result (are_ids stream original ≡ false) }
{
    let stream = short(0, 65_535, stream)?;
    let original = short(0, 65_535, original)?;
    Some((stream, original))
}

// `other,STREAM,ORIGINAL`
fn other(stream: &Txt, original: &Txt) -> RecordFound
    ensures { result ≡ other_in stream.now original.now }
{
    let Some(stream) = numeral(stream.as_str()) else {
        return RecordFound::NoRecord;
    };
    let Some(original) = numeral(original.as_str()) else {
        return RecordFound::NoRecord;
    };
    match ids(stream, original) {
        Some((stream, original)) => { RecordFound::Is(Record::Elsewhere(stream, original, None)) }
        None => RecordFound::OutOfRange,
    }
}

// Another stream with what its cable fields say.
fn with_delivery(stream: u32, original: u32, found: RecordFound) -> RecordFound
    ensures { result ≡ other_by stream original found }
{
    let RecordFound::Is(Record::Delivery(cable)) = found else {
        return found;
    };
    match ids(stream, original) {
        Some((stream, original)) => {
            RecordFound::Is(Record::Elsewhere(stream, original, Some(cable)))
        }
        None => RecordFound::OutOfRange,
    }
}

// `other,STREAM,ORIGINAL,FREQUENCY,MODULATION,SYMBOLRATE,OUTER,INNER`
fn cabled(
    stream: &Txt,
    original: &Txt,
    frequency: &Txt,
    modulation: &Txt,
    rate: &Txt,
    outer: &Txt,
    inner: &Txt,
) -> RecordFound
    ensures { result ≡ cabled_in stream.now original.now frequency.now modulation.now rate.now outer.now inner.now }
{
    let Some(stream) = numeral(stream.as_str()) else {
        return RecordFound::NoRecord;
    };
    let Some(original) = numeral(original.as_str()) else {
        return RecordFound::NoRecord;
    };
    with_delivery(
        stream,
        original,
        cable(frequency, modulation, rate, outer, inner),
    )
}

// The numbers of a service of another stream, as they are spelled.
#[derive(Clone, Copy)]
struct RemoteNumbers {
    stream: u32,
    original: u32,
    service: u32,
    feed: u32,
    kind: u32,
}

// The service of another stream of these numbers.
fn remote_of(
    alloc: Global,
    numbers: RemoteNumbers,
    provider: &Txt,
    name: &Txt,
) -> Result<RecordFound, AllocError>
    ensures { IfOk result (λ found. found ≡ remote_with numbers.stream numbers.original (remote_by numbers.service numbers.feed numbers.kind provider.now name.now)) }
{
    let Some((stream, original)) = ids(numbers.stream, numbers.original) else {
        return Ok(RecordFound::OutOfRange);
    };
    let Some(service) = short(1, 65_535, numbers.service) else {
        return Ok(RecordFound::OutOfRange);
    };
    let Some(feed) = byte(1, 16, numbers.feed) else {
        return Ok(RecordFound::OutOfRange);
    };
    let Some(kind) = byte(0, 255, numbers.kind) else {
        return Ok(RecordFound::OutOfRange);
    };
    if !fits(0, provider) {
        return Ok(RecordFound::OutOfRange);
    }
    if !fits(1, name) {
        return Ok(RecordFound::OutOfRange);
    }
    let service = RemoteService {
        service,
        feed,
        kind,
        provider: provider.copy()?,
        name: name.copy()?,
        descriptors: RawDescs::new(alloc),
    };
    Ok(RecordFound::Is(Record::Remote(stream, original, service)))
}

// The numbers of a service of another stream, where each is spelled as one.
fn remote_numbers(
    stream: &Txt,
    original: &Txt,
    id: &Txt,
    feed: &Txt,
    kind: &Txt,
) -> Option<RemoteNumbers>
    ensures { result ≡ remote_numbers_in stream.now original.now id.now feed.now kind.now }
{
    let stream = numeral(stream.as_str())?;
    let original = numeral(original.as_str())?;
    let service = numeral(id.as_str())?;
    let feed = numeral(feed.as_str())?;
    let kind = numeral(kind.as_str())?;
    Some(RemoteNumbers {
        stream,
        original,
        service,
        feed,
        kind,
    })
}

// The service of another stream of numbers that are spelled.
fn remote(
    alloc: Global,
    numbers: Option<RemoteNumbers>,
    provider: &Txt,
    name: &Txt,
) -> Result<RecordFound, AllocError>
    ensures { IfOk result (λ found. found ≡ numbers_remote numbers provider.now name.now) }
{
    match numbers {
        Some(numbers) => remote_of(alloc, numbers, provider, name),
        None => Ok(RecordFound::NoRecord),
    }
}

// The record of two fields after its word.
fn record_of_two(alloc: Global, word: &Txt, a: &Txt, b: &Txt) -> Result<RecordFound, AllocError>
    ensures { IfOk result (λ found. found ≡ three_in word.now a.now b.now) }
{
    if is_word(word.as_str(), "network") {
        return network(a, b);
    }
    if is_word(word.as_str(), "stream") {
        return Ok(stream(a, b));
    }
    if is_word(word.as_str(), "other") {
        return Ok(other(a, b));
    }
    if is_word(word.as_str(), "descriptor") {
        return in_loop(alloc, a, b);
    }
    Ok(RecordFound::NoRecord)
}

// The record of three fields after its word.
fn record_of_three(
    alloc: Global,
    word: &Txt,
    a: &Txt,
    b: &Txt,
    c: &Txt,
) -> Result<RecordFound, AllocError>
    ensures { IfOk result (λ found. found ≡ found_in (word.now ∷ a.now ∷ b.now ∷ c.now ∷ [])) }
{
    if is_word(word.as_str(), "descriptor") {
        return of_id(alloc, a, b, c);
    }
    Ok(RecordFound::NoRecord)
}

// The record of four fields after its word.
fn record_of_four(
    alloc: Global,
    word: &Txt,
    a: &Txt,
    b: &Txt,
    c: &Txt,
    d: &Txt,
) -> Result<RecordFound, AllocError>
    ensures { IfOk result (λ found. found ≡ five_in word.now a.now b.now c.now d.now) }
{
    if is_word(word.as_str(), "component") {
        return Ok(part(alloc, a, b, c, d));
    }
    if is_word(word.as_str(), "descriptor") {
        return of_pair(alloc, a, b, c, d);
    }
    Ok(RecordFound::NoRecord)
}

// The record of one field behind its word.
fn record_of_one(word: &Txt, a: &Txt) -> RecordFound
    ensures { result ≡ found_in (word.now ∷ a.now ∷ []) }
{
    if is_word(word.as_str(), "start") {
        return start(a);
    }
    if is_word(word.as_str(), "quota") {
        return quota(a);
    }
    if is_word(word.as_str(), "rate") {
        return rate(a);
    }
    RecordFound::NoRecord
}

// The service of numbers that are spelled.
fn service(
    alloc: Global,
    numbers: Option<Numbers>,
    provider: &Txt,
    name: &Txt,
) -> Result<RecordFound, AllocError>
    ensures { IfOk result (λ found. found ≡ numbers_service numbers provider.now name.now) }
{
    match numbers {
        Some(numbers) => service_of(alloc, numbers, provider, name),
        None => Ok(RecordFound::NoRecord),
    }
}

// The record of seven fields after its word.
fn record_of_seven(alloc: Global, fields: &[Txt]) -> Result<RecordFound, AllocError>
    ensures { IfOk result (λ found. found ≡ eight_in fields.now) }
{
    let [word, a, b, c, d, e, f, g] = fields else {
        return Ok(RecordFound::NoRecord);
    };
    if is_word(word.as_str(), "service") {
        return service(alloc, service_numbers(a, b, c, d, e), f, g);
    }
    if is_word(word.as_str(), "other") {
        return Ok(cabled(a, b, c, d, e, f, g));
    }
    if is_word(word.as_str(), "remote") {
        return remote(alloc, remote_numbers(a, b, c, d, e), f, g);
    }
    Ok(RecordFound::NoRecord)
}

// What the fields of a line say.
fn found_in(alloc: Global, fields: &[Txt]) -> Result<RecordFound, AllocError>
    ensures { IfOk result (λ found. found ≡ found_in fields.now) }
{
    match fields {
        [word] => {
            if is_word(word.as_str(), "end") {
                Ok(RecordFound::Is(Record::End))
            } else {
                Ok(RecordFound::NoRecord)
            }
        }
        [word, a] => Ok(record_of_one(word, a)),
        [word, a, b] => record_of_two(alloc, word, a, b),
        [word, a, b, c] => record_of_three(alloc, word, a, b, c),
        [word, a, b, c, d] => record_of_four(alloc, word, a, b, c, d),
        [word, a, b, c, d, e] => {
            if is_word(word.as_str(), "cable") {
                Ok(cable(a, b, c, d, e))
            } else {
                Ok(RecordFound::NoRecord)
            }
        }
        [word, letters, region, ahead, minutes, change, next] => {
            if is_word(word.as_str(), "offset") {
                Ok(offset(letters, region, ahead, minutes, change, next))
            } else {
                Ok(RecordFound::NoRecord)
            }
        }
        _ => record_of_seven(alloc, fields),
    }
}

/// What a line says: its record, or that it is none, or that a field is outside its range.
pub fn found_line(alloc: Global, line: &[u8]) -> Result<RecordFound, AllocError>
    ensures { IfOk result (λ found. found ≡ found_line line.now) }
{
    match fields(alloc, line)? {
        Some(fields) => found_in(alloc, fields.as_slice()),
        None => Ok(RecordFound::NoRecord),
    }
}
