// Why the fields of a line are no command, no outcome or no item.
ghost use Rattle.std.specs.Prelude.{◌≡◌, ◌≤◌, IfOk, Some, length};
ghost use Rattle.script_notes.specs.declared.why.Why.TheVariants.{FieldCount};
ghost use Rattle.script_notes.specs.Faults.{is_event_count, unless, why_clear, why_command, why_day, why_edit, why_event, why_event_fields, why_feed, why_fields, why_id, why_item, why_listed, why_name, why_nothing, why_of_edit, why_of_step, why_outcome, why_put, why_rating, why_step, why_tick, why_withdraw};

use crate::why::{FieldName, LineWord, Why};
use crate::words::word_named;
use guide_model::Txt;
use input_lines::{is_word, number};
use script_lines::{read_caller, read_further, read_genres, read_outcome};
use si_time::{has_shape, read_moment};
use std::alloc::{AllocError, Global};

fn unless(so: bool, why: Why) -> Option<Why>
    ensures { result ≡ unless so why }
{
    if so { None } else { Some(why) }
}

// Fields that are not as many as their word has.
fn miscounted(word: LineWord, fields: &[Txt]) -> Option<Why>
    ensures { result ≡ Some (FieldCount word (length fields.now)) }
{
    Some(Why::FieldCount(word, fields.len() as u64))
}

fn why_id(name: FieldName, k: u64, id: &Txt) -> Option<Why>
    ensures { result ≡ why_id name k id.now }
{
    unless(
        number(id.as_str(), 0, 65535).is_some(),
        Why::BadField(name, k),
    )
}

fn why_rating(k: u64, country: &Txt, rating: &Txt) -> Option<Why>
    requires { k ≤ 100 }
    ensures { result ≡ why_rating k country.now rating.now }
{
    if country.as_str().is_empty() {
        let none = rating.as_str().is_empty();
        return if none {
            None
        } else {
            Some(Why::BadField(FieldName::Country, k))
        };
    }
    unless(
        number(rating.as_str(), 0, 255).is_some(),
        Why::BadField(FieldName::Rating, k + 1),
    )
}

// Whether an event has so many fields.
fn is_event_count(fields: &[Txt]) -> bool
    ensures { result ≡ is_event_count (length fields.now) }
{
    fields.len() == 10 || fields.len() == 11
}

// The genres of an event, which are field k, and the field after them.
fn why_listed(
    alloc: Global,
    k: u64,
    genres: &Txt,
    further: &[Txt],
) -> Result<Option<Why>, AllocError>
    requires { k ≤ 100 }
    ensures { IfOk result (λ why. why ≡ why_listed k genres.now further.now) }
{
    let listed = read_genres(alloc, genres.as_str())?.is_some();
    let described = read_further(alloc, further)?.is_some();
    let descriptor = unless(described, Why::BadField(FieldName::Descriptors, k + 1));
    Ok(unless(listed, Why::BadField(FieldName::Genres, k)).or(descriptor))
}

// The fields of an event, where they are so many.
#[tactic(auto, unfolding(crate::specs::Faults::why_event))]
fn why_event(alloc: Global, k: u64, fields: &[Txt]) -> Result<Option<Why>, AllocError>
    requires { k ≤ 50 }
    ensures { IfOk result (λ why. why ≡ why_event k fields.now) }
{
    let [
        event,
        start,
        duration,
        _,
        _,
        _,
        _,
        country,
        rating,
        genres,
        further @ ..,
    ] = fields
    else {
        return Ok(None);
    };
    let listed = why_listed(alloc, k + 9, genres, further)?;
    let starts = has_shape(b"dddd-dd-ddTdd:dd:ddZ", start.as_str().as_bytes());
    let lasts = has_shape(b"dd:dd:dd", duration.as_str().as_bytes());
    let rated = why_rating(k + 7, country, rating).or(listed);
    let length = unless(lasts, Why::BadField(FieldName::Duration, k + 2)).or(rated);
    let stamp = unless(starts, Why::BadField(FieldName::Start, k + 1)).or(length);
    Ok(why_id(FieldName::Event, k, event).or(stamp))
}

fn why_nothing(word: LineWord, fields: &[Txt]) -> Option<Why>
    ensures { result ≡ why_nothing word fields.now }
{
    match fields.is_empty() {
        true => None,
        false => miscounted(word, fields),
    }
}

fn why_tick(k: u64, fields: &[Txt]) -> Option<Why>
    ensures { result ≡ why_tick k fields.now }
{
    let [moment] = fields else {
        return miscounted(LineWord::Tick, fields);
    };
    let is_moment = read_moment(moment.as_str().as_bytes()).is_some();
    unless(is_moment, Why::BadField(FieldName::Moment, k))
}

fn why_put(alloc: Global, k: u64, fields: &[Txt]) -> Result<Option<Why>, AllocError>
    requires { k ≤ 40 }
    ensures { IfOk result (λ why. why ≡ why_put k fields.now) }
{
    let [service, event @ ..] = fields else {
        return Ok(Some(Why::FieldCount(LineWord::Put, 0)));
    };
    if !is_event_count(event) {
        return Ok(Some(Why::FieldCount(LineWord::Put, event.len() as u64 + 1)));
    }
    let why = why_event(alloc, k + 1, event)?;
    Ok(why_id(FieldName::Service, k, service).or(why))
}

fn why_withdraw(k: u64, fields: &[Txt]) -> Option<Why>
    requires { k ≤ 40 }
    ensures { result ≡ why_withdraw k fields.now }
{
    let [service, event] = fields else {
        return miscounted(LineWord::Withdraw, fields);
    };
    why_id(FieldName::Service, k, service).or(why_id(FieldName::Event, k + 1, event))
}

fn why_clear(k: u64, fields: &[Txt]) -> Option<Why>
    ensures { result ≡ why_clear k fields.now }
{
    let [service] = fields else {
        return miscounted(LineWord::Clear, fields);
    };
    why_id(FieldName::Service, k, service)
}

fn why_name(k: u64, fields: &[Txt]) -> Option<Why>
    ensures { result ≡ why_name k fields.now }
{
    let [service, _, _] = fields else {
        return miscounted(LineWord::Name, fields);
    };
    why_id(FieldName::Service, k, service)
}

fn why_day(k: u64, fields: &[Txt]) -> Option<Why>
    requires { k ≤ 40 }
    ensures { result ≡ why_day k fields.now }
{
    let [service, date, count] = fields else {
        return miscounted(LineWord::Day, fields);
    };
    let is_date = has_shape(b"dddd-dd-dd", date.as_str().as_bytes());
    let is_count = number(count.as_str(), 0, 2000).is_some();
    let counted = unless(is_count, Why::BadField(FieldName::Count, k + 2));
    let dated = unless(is_date, Why::BadField(FieldName::Date, k + 1)).or(counted);
    why_id(FieldName::Service, k, service).or(dated)
}

// Behind `feed,N`.
fn why_of_edit(
    alloc: Global,
    k: u64,
    word: Option<LineWord>,
    fields: &[Txt],
) -> Result<Option<Why>, AllocError>
    requires { k ≤ 30 }
    ensures { IfOk result (λ why. why ≡ why_of_edit k word fields.now) }
{
    match word {
        Some(LineWord::Put) => why_put(alloc, k + 1, fields),
        Some(LineWord::Withdraw) => Ok(why_withdraw(k + 1, fields)),
        Some(LineWord::Clear) => Ok(why_clear(k + 1, fields)),
        Some(LineWord::Name) => Ok(why_name(k + 1, fields)),
        Some(LineWord::Day) => Ok(why_day(k + 1, fields)),
        _ => Ok(Some(Why::NoEdit(k))),
    }
}

fn why_edit(alloc: Global, k: u64, fields: &[Txt]) -> Result<Option<Why>, AllocError>
    requires { k ≤ 30 }
    ensures { IfOk result (λ why. why ≡ why_edit k fields.now) }
{
    let [word, fields @ ..] = fields else {
        return Ok(Some(Why::NoEdit(k)));
    };
    why_of_edit(alloc, k, word_named(word.as_str()), fields)
}

fn why_feed(alloc: Global, k: u64, fields: &[Txt]) -> Result<Option<Why>, AllocError>
    requires { k ≤ 20 }
    ensures { IfOk result (λ why. why ≡ why_feed k fields.now) }
{
    let [feed, fields @ ..] = fields else {
        return Ok(Some(Why::BadField(FieldName::Feed, k)));
    };
    let is_feed = number(feed.as_str(), 0, 255).is_some();
    let why = why_edit(alloc, k + 1, fields)?;
    Ok(unless(is_feed, Why::BadField(FieldName::Feed, k)).or(why))
}

// In place of a command's word, which is not `feed`.
fn why_of_step(k: u64, word: Option<LineWord>, fields: &[Txt]) -> Option<Why>
    requires { k ≤ 30 }
    ensures { result ≡ why_of_step k word fields.now }
{
    match word {
        Some(LineWord::Publish) => why_nothing(LineWord::Publish, fields),
        Some(LineWord::Swap) => why_nothing(LineWord::Swap, fields),
        Some(LineWord::Tick) => why_tick(k + 1, fields),
        Some(word) => Some(Why::Misplaced(word)),
        None => Some(Why::NoCommand(k)),
    }
}

fn why_step(alloc: Global, k: u64, fields: &[Txt]) -> Result<Option<Why>, AllocError>
    requires { k ≤ 10 }
    ensures { IfOk result (λ why. why ≡ why_step k fields.now) }
{
    let [word, fields @ ..] = fields else {
        return Ok(Some(Why::NoCommand(k)));
    };
    if is_word(word.as_str(), "feed") {
        return why_feed(alloc, k + 1, fields);
    }
    Ok(why_of_step(k, word_named(word.as_str()), fields))
}

fn why_command(alloc: Global, fields: &[Txt]) -> Result<Option<Why>, AllocError>
    ensures { IfOk result (λ why. why ≡ why_command fields.now) }
{
    if read_caller(fields).is_none() {
        return why_step(alloc, 1, fields);
    }
    let [_, fields @ ..] = fields else {
        return Ok(Some(Why::NoCommand(1)));
    };
    why_step(alloc, 2, fields)
}

fn why_outcome(fields: &[Txt], after: bool) -> Option<Why>
    ensures { result ≡ why_outcome after fields.now }
{
    if !after {
        return Some(Why::AfterNoCommand);
    }
    unless(read_outcome(fields).is_some(), Why::NoOutcome)
}

/// Why these fields are no command and no outcome; `None` exactly where they are one. `after` says whether a command came just before.
pub(crate) fn why_fields(
    alloc: Global,
    fields: &[Txt],
    after: bool,
) -> Result<Option<Why>, AllocError>
    ensures { IfOk result (λ why. why ≡ why_fields after fields.now) }
{
    let [word, outcome @ ..] = fields else {
        return Ok(Some(Why::NoFields));
    };
    if is_word(word.as_str(), "=") {
        return Ok(why_outcome(outcome, after));
    }
    why_command(alloc, fields)
}

fn why_event_fields(alloc: Global, fields: &[Txt]) -> Result<Option<Why>, AllocError>
    ensures { IfOk result (λ why. why ≡ why_event_fields fields.now) }
{
    if !is_event_count(fields) {
        return Ok(miscounted(LineWord::Item, fields));
    }
    why_event(alloc, 2, fields)
}

/// Why these fields are no item of a day; `None` exactly where they are one.
pub(crate) fn why_item(alloc: Global, fields: &[Txt]) -> Result<Option<Why>, AllocError>
    ensures { IfOk result (λ why. why ≡ why_item fields.now) }
{
    let [word, fields @ ..] = fields else {
        return Ok(Some(Why::NoFields));
    };
    if !is_word(word.as_str(), "item") {
        return Ok(Some(Why::NoItem));
    }
    why_event_fields(alloc, fields)
}
