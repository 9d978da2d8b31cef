// The text of a checkpoint.
ghost use Rattle.std.specs.Prelude.{◌≡◌, ◌<◌, ◌*◌, ◌+◌, ◌^◌, ◌++◌, ◌∷◌, [], List, IfOk, OnOk, OnErr, flat_map, option_map};
ghost use Rattle.std.specs.List.{AllByRecursion};
ghost use Rattle.mux_model.specs.Sound.{IsSound};
ghost use Rattle.mux_model.specs.Fed.{fed_services};
ghost use Rattle.guide_model.specs.Decoding.{IsKept};
ghost use Rattle.guide_limits.specs.Limits.{IsGuideWithin, IsServiceWithin, IsEventWithin};
ghost use Rattle.version_book.specs.Book.{given_entries, given_entry};
ghost use Rattle.journal_model.specs.Steps.{IsStepInWindow};
ghost use Rattle.journal_model.specs.declared.step.Entry.{Entry as AnEntry};
ghost use Rattle.journal_text.specs.Lines.{line_text};
ghost use Rattle.desk_checkpoint.specs.Items.{event_item, filling, raw_rating};
ghost use Rattle.desk_checkpoint.specs.Steps.{guide_steps, publication_steps};
ghost use Rattle.desk_checkpoint.specs.Fields.{clock_fields, count_fields, version_fields};
ghost use Rattle.desk_core.specs.Journal.{publishes};
ghost use Rattle.desk_core.specs.Lean.{IsLean, StandsFor, stood_for};
ghost use Rattle.cycle_player.specs.Clock.{reads};
ghost use Rattle.desk_checkpoint.specs.HandedOver.{HandsOver};
ghost use Rattle.desk_checkpoint.specs.Text.{AreBytes, HasByteBodies, HasByteContent, clock_text, counter_text, desk_steps, edits_of, feed_steps, key_text};
ghost use Rattle.desk_checkpoint.specs.Text.{put_text, section_text, service_text, start_text, step_text, steps_text};

use cycle_player::{Clock, CyclePlayer, PlayerState};
use desk_core::{Desk, LeanDesk};
use guide_model::{Event, Guide, Rating, ServiceGuide, Txt};
use journal_model::{Edit, Item, Length, RawRating, Stamp, Step};
use journal_text::{LineWriter, write_command};
use mux_model::Mux;
use page_share::PageGuide;
use section_codec::NumberedBody;
use si_base::Copies;
use si_time::{write_duration, write_moment};
use std::alloc::{AllocError, Global};
use ts_packets::PidCounter;
use version_book::KeyVersion;

// Appends the line with which a checkpoint begins.
fn put_count(alloc: Global, out: &mut Vec<u8>, count: u64) -> Result<(), AllocError>
    ensures { OnOk result (out.new.items ≡ out.old.items ++ line_text (count_fields count)) }
{
    let mut row = LineWriter::open(alloc);
    row.field(b"checkpoint")?;
    row.number(alloc, count)?;
    row.end(out)
}

// Appends the line of a clock.
fn put_clock_line(alloc: Global, out: &mut Vec<u8>, clock: Clock) -> Result<(), AllocError>
    ensures { OnOk result (out.new.items
        ≡ out.old.items ++ line_text (clock_fields (reads clock))) }
{
    let mut row = LineWriter::open(alloc);
    row.field(b"clock")?;
    row.number(alloc, clock.moment)?;
    row.number(alloc, u64::from(clock.bits))?;
    row.end(out)
}

// Appends it where there is a bit rate.
fn put_clock(
    alloc: Global,
    out: &mut Vec<u8>,
    rate: Option<u32>,
    clock: Clock,
) -> Result<(), AllocError>
    ensures { OnOk result (out.new.items ≡ out.old.items ++ clock_text rate (reads clock)) }
{
    match rate {
        None => Ok(()),
        Some(_) => put_clock_line(alloc, out, clock),
    }
}

// Appends what stands before the parts of a checkpoint.
fn put_head(
    alloc: Global,
    out: &mut Vec<u8>,
    count: u64,
    rate: Option<u32>,
    clock: Clock,
) -> Result<(), AllocError>
    ensures { OnOk result (out.new.items
        ≡ out.old.items ++ (line_text (count_fields count) ++ clock_text rate (reads clock))) }
{
    put_count(alloc, out, count)?;
    put_clock(alloc, out, rate, clock)
}

// ---- steps

// A code of three letters as a text.
fn code_text(alloc: Global, code: &[u8; 3]) -> Result<Txt, AllocError>
    requires { IsKept code.now }
    ensures { IfOk result (λ text. text ≡ code.now) }
{
    match str::from_utf8(code) {
        Ok(text) => Txt::of_kept(alloc, text),
        Err(_) => unreachable!(),
    }
}

fn raw_rating(alloc: Global, rating: &Rating) -> Result<RawRating, AllocError>
    requires { IsKept rating.now.country }
    ensures { IfOk result (λ raw. raw ≡ raw_rating rating.now) }
{
    Ok(RawRating {
        country: code_text(alloc, &rating.country)?,
        value: rating.value,
    })
}

// The rating of an event as an item gives it.
fn item_rating(alloc: Global, event: &Event) -> Result<Option<RawRating>, AllocError>
    requires { IsEventWithin event.now }
    ensures { IfOk result (λ raw. raw ≡ option_map raw_rating event.now.rating) }
{
    match &event.rating {
        Some(rating) => Ok(Some(raw_rating(alloc, rating)?)),
        None => Ok(None),
    }
}

// The item that gives an event.
fn item_of(alloc: Global, event: &Event) -> Result<Item, AllocError>
    requires { IsEventWithin event.now }
    ensures { IfOk result (λ item. item ≡ event_item event.now) }
{
    Ok(Item {
        id: event.id,
        start: Stamp(write_moment(event.start)),
        length: Length(write_duration(event.seconds)),
        language: code_text(alloc, &event.language)?,
        name: event.name.copy()?,
        short: event.short.copy()?,
        extended: event.extended.copy()?,
        rating: item_rating(alloc, event)?,
        genres: event.genres.copy()?,
        descriptors: event.descriptors.copy()?,
    })
}

// Appends a step of caller 0.
fn put_step(alloc: Global, out: &mut Vec<u8>, step: &Step) -> Result<(), AllocError>
    requires { IsStepInWindow step.now }
    ensures { OnOk result (out.new.items ≡ out.old.items ++ step_text (0, step.now)) }
{
    write_command(alloc, out, 0, step)
}

// Appends the put of an event of a service.
fn put_event(
    alloc: Global,
    out: &mut Vec<u8>,
    feed: u8,
    service: u16,
    event: &Event,
) -> Result<(), AllocError>
    requires { IsEventWithin event.now }
    ensures { OnOk result (out.new.items ≡ out.old.items ++ put_text feed service event.now) }
{
    let item = item_of(alloc, event)?;
    put_step(alloc, out, &Step::Edit(feed, Edit::Put(service, item)))
}

// Appends the puts of the events of a service.
fn put_events(
    alloc: Global,
    out: &mut Vec<u8>,
    feed: u8,
    service: u16,
    events: &[Event],
) -> Result<(), AllocError>
    requires { AllByRecursion IsEventWithin events.now }
    ensures { OnOk result (out.new.items
        ≡ out.old.items ++ flat_map (put_text feed service) events.now) }
{
    for event in events {
        put_event(alloc, out, feed, service, event)?;
    }
    Ok(())
}

// Appends the names and the puts of a service.
fn put_filling(
    alloc: Global,
    out: &mut Vec<u8>,
    feed: u8,
    guide: &ServiceGuide,
) -> Result<(), AllocError>
    requires { IsServiceWithin guide.now }
    ensures { OnOk result (out.new.items
        ≡ out.old.items ++ steps_text (feed_steps feed (filling guide.now))) }
{
    let names = Edit::Name(guide.service, guide.provider.copy()?, guide.name.copy()?);
    put_step(alloc, out, &Step::Edit(feed, names))?;
    put_events(alloc, out, feed, guide.service, guide.events.as_slice())
}

// Appends the steps of a service, which may have been cleared before.
fn put_service(
    alloc: Global,
    out: &mut Vec<u8>,
    feed: u8,
    guide: &ServiceGuide,
    clears: bool,
) -> Result<(), AllocError>
    requires { IsServiceWithin guide.now }
    ensures { OnOk result (out.new.items
        ≡ out.old.items ++ steps_text (feed_steps feed (edits_of clears guide.now))) }
{
    if clears {
        put_step(alloc, out, &Step::Edit(feed, Edit::Clear(guide.service)))?;
    }
    put_filling(alloc, out, feed, guide)
}

// Appends the steps of services, each as of the feed that owns it.
fn put_services(
    alloc: Global,
    out: &mut Vec<u8>,
    mux: &Mux,
    guides: &[ServiceGuide],
    clears: bool,
) -> Result<(), AllocError>
    requires sound { IsSound mux.now }
    requires within { AllByRecursion IsServiceWithin guides.now }
    ensures { OnOk result (out.new.items
        ≡ out.old.items ++ flat_map (service_text clears (fed_services mux.now)) guides.now) }
{
    for guide in guides {
        put_service(alloc, out, mux.feed_of(guide.service), guide, clears)?;
    }
    Ok(())
}

// Appends the steps that make a guide.
fn put_guide(
    alloc: Global,
    out: &mut Vec<u8>,
    mux: &Mux,
    guide: &Guide,
    clears: bool,
) -> Result<(), AllocError>
    requires sound { IsSound mux.now }
    requires within { IsGuideWithin guide.now }
    requires moment { guide.now.moment.0 < 65536 * 86400 }
    ensures { OnOk result (out.new.items
        ≡ out.old.items ++ steps_text (guide_steps (edits_of clears) mux.now guide.now)) }
{
    put_services(alloc, out, mux, guide.services.as_slice(), clears)?;
    put_step(alloc, out, &Step::Tick(guide.moment))
}

// Appends the steps that make a publication.
fn put_publication(
    alloc: Global,
    out: &mut Vec<u8>,
    mux: &Mux,
    latest: &PageGuide,
) -> Result<(), AllocError>
    requires sound { IsSound mux.now }
    requires within { IsGuideWithin latest.now.guide }
    requires moment { latest.now.guide.moment.0 < 65536 * 86400 }
    ensures { OnOk result (out.new.items
        ≡ out.old.items ++ steps_text (guide_steps filling mux.now latest.now.guide ++ (0, Step.Publish) ∷ [])) }
{
    let guide = latest.copy()?;
    put_guide(alloc, out, mux, &guide, false)?;
    put_step(alloc, out, &Step::Publish)
}

// Appends the steps that make the latest of so many publications, where there is one.
fn put_latest(
    alloc: Global,
    out: &mut Vec<u8>,
    mux: &Mux,
    count: u64,
    latest: &PageGuide,
) -> Result<(), AllocError>
    requires sound { IsSound mux.now }
    requires within { IsGuideWithin latest.now.guide }
    requires moment { latest.now.guide.moment.0 < 65536 * 86400 }
    ensures { OnOk result (out.new.items
        ≡ out.old.items ++ steps_text (publication_steps mux.now count latest.now.guide)) }
{
    if count == 0 {
        return Ok(());
    }
    put_publication(alloc, out, mux, latest)
}

// Appends the count of publications, the clock where there is a bit rate, and the steps of a desk.
fn put_steps(
    alloc: Global,
    out: &mut Vec<u8>,
    desk: &LeanDesk,
    shift: u64,
    clock: Clock,
) -> Result<(), AllocError>
    requires { IsLean desk.now }
    ensures { (journal : List AnEntry) → StandsFor journal desk.now → OnOk result (out.new.items
        ≡ out.old.items ++ (line_text (count_fields (shift + publishes journal))
        ++ clock_text desk.now.mux.rate (reads clock)
        ++ steps_text (desk_steps shift (stood_for journal desk.now)))) }
{
    let mux = desk.mux();
    let latest = desk.latest()?;
    let count = shift.checked_add(latest.number).ok_or(AllocError)?;
    put_head(alloc, out, count, mux.rate, clock)?;
    put_latest(alloc, out, mux, count, &latest.guide)?;
    let draft = desk.draft()?;
    put_guide(alloc, out, mux, &draft, true)
}

// ---- keys and counters

// The numbers of a slice are bytes, as its type says. It does nothing when run.
fn are_bytes(bytes: &[u8])
    ensures { AreBytes bytes.now }
{}

fn put_section(alloc: Global, out: &mut Vec<u8>, section: &NumberedBody) -> Result<(), AllocError>
    ensures text { OnOk result (out.new.items ≡ out.old.items ++ section_text section.now) }
    ensures bytes { AreBytes section.now.body }
{
    let body = section.body.as_slice();
    are_bytes(body);
    let digits = hex::encode(alloc, body)?;
    let mut row = LineWriter::open(alloc);
    row.field(b"body")?;
    row.number(alloc, u64::from(section.number))?;
    row.field(digits.as_bytes())?;
    row.end(out)
}

fn put_version(alloc: Global, out: &mut Vec<u8>, key: &KeyVersion) -> Result<(), AllocError>
    ensures { OnOk result (out.new.items
        ≡ out.old.items ++ line_text (version_fields key.now.key key.now.version)) }
{
    let mut row = LineWriter::open(alloc);
    row.field(b"version")?;
    row.number(alloc, u64::from(key.key.pid))?;
    row.number(alloc, u64::from(key.key.table))?;
    row.number(alloc, u64::from(key.key.ext))?;
    row.number(alloc, u64::from(key.key.stream))?;
    row.number(alloc, u64::from(key.key.network))?;
    row.number(alloc, u64::from(key.version))?;
    row.end(out)
}

fn put_sections(
    alloc: Global,
    out: &mut Vec<u8>,
    sections: &[NumberedBody],
) -> Result<(), AllocError>
    ensures text { OnOk result (out.new.items
        ≡ out.old.items ++ flat_map section_text sections.now) }
    ensures bytes { OnOk result (AllByRecursion (λ section. AreBytes section.body) sections.now) }
{
    for section in sections {
        put_section(alloc, out, section)?;
    }
    Ok(())
}

// Appends a key, and the sections of its last content.
fn put_key(alloc: Global, out: &mut Vec<u8>, key: &KeyVersion) -> Result<(), AllocError>
    ensures text { OnOk result (out.new.items ≡ out.old.items ++ key_text (given_entry key.now)) }
    ensures bytes { OnOk result (HasByteContent (given_entry key.now)) }
{
    put_version(alloc, out, key)?;
    put_sections(alloc, out, key.sections.as_slice())
}

fn put_counter(alloc: Global, out: &mut Vec<u8>, counter: &PidCounter) -> Result<(), AllocError>
    ensures { OnOk result (out.new.items ≡ out.old.items ++ counter_text counter.now) }
{
    let mut row = LineWriter::open(alloc);
    row.field(b"counter")?;
    row.number(alloc, u64::from(counter.pid))?;
    row.number(alloc, u64::from(counter.next))?;
    row.end(out)
}

fn put_keys(alloc: Global, out: &mut Vec<u8>, keys: &[KeyVersion]) -> Result<(), AllocError>
    ensures text { OnOk result (out.new.items
        ≡ out.old.items ++ flat_map key_text (given_entries keys.now)) }
    ensures bytes { OnOk result (HasByteBodies (given_entries keys.now)) }
{
    for key in keys {
        put_key(alloc, out, key)?;
    }
    Ok(())
}

fn put_counters(alloc: Global, out: &mut Vec<u8>, counters: &[PidCounter]) -> Result<(), AllocError>
    ensures { OnOk result (out.new.items ≡ out.old.items ++ flat_map counter_text counters.now) }
{
    for counter in counters {
        put_counter(alloc, out, counter)?;
    }
    Ok(())
}

// Appends what a player goes on from, but for its clock.
fn put_state(alloc: Global, out: &mut Vec<u8>, state: &PlayerState) -> Result<(), AllocError>
    ensures text { OnOk result (out.new.items ≡ out.old.items
        ++ (flat_map key_text (given_entries state.now.versions)
        ++ flat_map counter_text state.now.counters)) }
    ensures bytes { OnOk result (HasByteBodies (given_entries state.now.versions)) }
{
    put_keys(alloc, out, state.versions.as_slice())?;
    put_counters(alloc, out, state.counters.as_slice())
}

// ---- a checkpoint

// A checkpoint in a list of its own.
fn text_of(
    alloc: Global,
    desk: &LeanDesk,
    shift: u64,
    player: &CyclePlayer,
) -> Result<Vec<u8>, AllocError>
    requires lean { IsLean desk.now }
    requires at_end { player.now.left ≡ [] }
    ensures text { (journal : List AnEntry) → StandsFor journal desk.now → IfOk result (λ text.
        text.items ≡ start_text shift (stood_for journal desk.now) player.now) }
    ensures handed { OnOk result (HandsOver player.now) }
{
    let state = player.kept()?;
    let mut text = Vec::new(alloc);
    put_steps(alloc, &mut text, desk, shift, state.clock)?;
    put_state(alloc, &mut text, &state)?;
    text.extend_from_slice(b"end\n")?;
    Ok(text)
}

/// As [`write_checkpoint`], of a desk that keeps no journal; a count of publications that 64 bits
/// cannot say is want of memory.
pub fn write_lean_checkpoint(
    alloc: Global,
    desk: &LeanDesk,
    shift: u64,
    player: &CyclePlayer,
    out: &mut Vec<u8>,
) -> Result<(), AllocError>
    requires lean { IsLean desk.now }
    requires at_end { player.now.left ≡ [] }
    ensures text { (journal : List AnEntry) → StandsFor journal desk.now → OnOk result (out.new.items
        ≡ out.old.items ++ start_text shift (stood_for journal desk.now) player.now) }
    ensures handed { OnOk result (HandsOver player.now) }
    ensures kept { OnErr result (out.new.items ≡ out.old.items) }
{
    let text = text_of(alloc, desk, shift, player)?;
    out.extend_from_slice(&text)
}

/// Appends the checkpoint of a desk and of a player at its end, where the numbers of the desk's
/// publications are less by the shift than those of the journal that goes on: how many publications
/// there are; where the desk's multiplex has a bit rate, what the player's clock reads; the steps
/// that make the latest publication, where there is one, and then what stands; each key that an
/// airing carried, or that was handed in, with its last version and content; the continuity counter
/// of each PID that had a packet, or was handed in (ISO/IEC 13818-1, 2.4.3.3); and the end. Want of
/// memory leaves `out` with what it had.
pub fn write_checkpoint(
    alloc: Global,
    desk: &Desk,
    shift: u64,
    player: &CyclePlayer,
    out: &mut Vec<u8>,
) -> Result<(), AllocError>
    requires shift { shift < 10 ^ 18 }
    requires at_end { player.now.left ≡ [] }
    ensures text { OnOk result (out.new.items
        ≡ out.old.items ++ start_text shift desk.now player.now) }
    ensures handed { OnOk result (HandsOver player.now) }
    ensures kept { OnErr result (out.new.items ≡ out.old.items) }
{
    write_lean_checkpoint(alloc, desk.lean(), shift, player, out)
}
