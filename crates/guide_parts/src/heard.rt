// What a receiver has to show, though something is wanting.
ghost use Rattle.std.specs.Prelude.{◌≡◌, List, Option, map, filter, option_map, IfOk};
ghost use Rattle.section_codec.specs.declared.table.Key.{Key};
ghost use Rattle.section_codec.specs.Contents.{Content};
ghost use Rattle.sub_collect.specs.Marks.{Taken};
ghost use Rattle.sub_collect.specs.Collectors.{CollectorStandsOver};
ghost use Rattle.guide_screen.specs.View.{View};
ghost use Rattle.guide_screen.specs.Holding.{Holds, KeepsContents};
ghost use Rattle.guide_screen.specs.Reading.{programs_in, streams_in};
ghost use Rattle.guide_screen.specs.Needs.{needs};
ghost use Rattle.guide_screen.specs.Screen.{other_stream};
ghost use Rattle.guide_parts.specs.Parts.{Parts, parts_over, heard_key, home_by, home_of};
ghost use Rattle.guide_parts.specs.Holding.{KeepsParts};
ghost use Rattle.guide_parts.specs.Heads.{AreHeads};
ghost use Rattle.guide_parts.specs.PartScreen.{part_at, part_service, programs_heard, services_heard, network_with, cable_of, stream_descriptors, is_foreign, part_screen, part_guide};

use crate::keys::{heard_key, home_by, stream_by};
use crate::listed::{ids_beside, services_heard};
use crate::part_screen::{PartGuide, PartNetwork, PartScreen, PartServices};
use crate::services::part_services;
use crate::tables::part_at;
use guide_model::{Cable, Offset, RawDescs, ScreenOthers};
use guide_screen::{
    Latest, Needs, cable_in, copied, descriptors_in, is_other, needs_of, network_descriptors,
    network_name, other_stream, programs_in, programs_of, services_of, streams_in,
};
use section_codec::Key;
use si_base::Items;
use std::alloc::{AllocError, Global};
use sub_collect::Collector;
use table_bodies::{NitStream, PatEntry};

/// What a receiver has to show of the sub-tables that it heard, whole or not: the needs that are not
/// met, in order, as `heard_guide` gives them, and a screen of all that it holds (ISO/IEC 13818-1,
/// 2.4.4.3 and 2.4.4.8; EN 300 468, 5.2.1, 5.2.3 to 5.2.5).
///
/// Of each sub-table it shows the content that was completed last, or else the sections that it
/// holds of one version (`Collector::part`). Where the PAT's SDT was heard whole, the services are
/// those that it names; else they are those of the sections of an SDT, of the PAT and of event
/// information. The own stream is that of the SDT, or else that of event information, or else that
/// of the PAT. Of other streams it shows what was heard whole.
///
/// Beside looking keys up, its time is linear in the keys, in the services, and in the bytes of the
/// contents.
pub fn parts_heard(
    alloc: Global,
    contents: &Collector,
    latest: Latest,
    offsets: &[Offset],
    others: &[Key],
) -> Result<PartGuide, AllocError>
    ensures { (V : View) (taken : List Taken) → Holds contents.now latest V
        → CollectorStandsOver taken contents.now → V.offsets ≡ offsets.now → V.others ≡ others.now
        → IfOk result (λ heard. heard ≡ part_guide (parts_over V taken)) }
{
    let keys = contents.keys_in_order(alloc)?;
    let wanting = wanting_of(alloc, contents, &latest)?;
    let shown = part_screen(alloc, contents, &latest, offsets, others, &keys)?;
    Ok(PartGuide { wanting, shown })
}

// The needs that are not met, in order.
fn wanting_of(alloc: Global, contents: &Collector, latest: &Latest) -> Result<Needs, AllocError>
    ensures { (V : View) → Holds contents.now latest.now V → IfOk result (λ wanting. wanting ≡ needs V) }
{
    let programs = programs_of(alloc, contents, latest.pat)?;
    let services = services_of(alloc, contents, latest.sdt)?;
    Ok(Items::of(needs_of(alloc, contents, latest, &programs, &services)?))
}

// The keys of the tables that come once, and the one that names the own stream.
#[derive(Clone, Copy)]
struct Heads {
    pat: Option<Key>,
    nit: Option<Key>,
    sdt: Option<Key>,
    home: Option<Key>,
}

fn heads_of(latest: &Latest, keys: &[Key]) -> Heads
    ensures pat { result.pat ≡ heard_key latest.now.pat 0x00 keys.now }
    ensures nit { result.nit ≡ heard_key latest.now.nit 0x40 keys.now }
    ensures sdt { result.sdt ≡ heard_key latest.now.sdt 0x42 keys.now }
    ensures home { result.home ≡ home_by result.sdt result.pat keys.now }
{
    let pat = heard_key(latest.pat, 0x00, keys);
    let sdt = heard_key(latest.sdt, 0x42, keys);
    Heads {
        pat,
        nit: heard_key(latest.nit, 0x40, keys),
        sdt,
        home: home_by(sdt, pat, keys),
    }
}

// The screen of parts, by the keys that had a section.
fn part_screen(
    alloc: Global,
    contents: &Collector,
    latest: &Latest,
    offsets: &[Offset],
    others: &[Key],
    keys: &[Key],
) -> Result<PartScreen, AllocError>
    ensures { (P : Parts) → Holds contents.now latest.now P.view → KeepsParts contents.now P.part
        → P.keys ≡ keys.now → P.view.offsets ≡ offsets.now → P.view.others ≡ others.now
        → IfOk result (λ shown. shown ≡ part_screen P) }
{
    let heads = heads_of(latest, keys);
    let streams = streams_heard(alloc, contents, heads.nit)?;
    let network = network_heard(alloc, contents, heads.nit)?;
    let services = services_shown(alloc, contents, heads, latest.sdt.is_some(), keys)?;
    let others = other_streams(alloc, contents, &streams, heads.home, others)?;
    Ok(PartScreen {
        clock: latest.clock,
        offsets: copied(alloc, offsets)?,
        network,
        stream: stream_by(heads.home, heads.pat),
        original: network_of(heads.home),
        cable: cable_of(heads.home, &streams),
        stream_descriptors: stream_descriptors(alloc, heads.home, &streams)?,
        services,
        others,
    })
}

// The original_network_id that a key has.
fn network_of(home: Option<Key>) -> Option<u16>
    ensures { result ≡ option_map (λ (k : Key). k.network) home }
{
    match home {
        Some(home) => Some(home.network),
        None => None,
    }
}

// The cable of the own stream.
fn cable_of(home: Option<Key>, streams: &[NitStream]) -> Option<Cable>
    ensures { result ≡ cable_of home streams.now }
{
    match home {
        Some(home) => cable_in(streams, home.ext, home.network),
        None => None,
    }
}

// The further descriptors of the own stream.
fn stream_descriptors(
    alloc: Global,
    home: Option<Key>,
    streams: &[NitStream],
) -> Result<RawDescs, AllocError>
    ensures { IfOk result (λ descs. descs ≡ stream_descriptors home streams.now) }
{
    match home {
        Some(home) => descriptors_in(alloc, streams, home.ext, home.network),
        None => Ok(RawDescs::new(alloc)),
    }
}

// The streams of this NIT.
fn streams_heard(
    alloc: Global,
    contents: &Collector,
    nit: Option<Key>,
) -> Result<Vec<NitStream>, AllocError>
    ensures { (part : Key → Content) → KeepsParts contents.now part
        → IfOk result (λ streams. streams.items ≡ streams_in (part_at part nit)) }
{
    let held = part_at(alloc, contents, nit)?;
    streams_in(alloc, held.sections())
}

// The network of this NIT.
fn network_heard(
    alloc: Global,
    contents: &Collector,
    nit: Option<Key>,
) -> Result<Option<PartNetwork>, AllocError>
    ensures { (part : Key → Content) → KeepsParts contents.now part
        → IfOk result (λ network. network ≡ option_map (network_with part) nit) }
{
    let Some(nit) = nit else {
        return Ok(None);
    };
    let held = contents.part(alloc, nit)?;
    let name = network_name(alloc, held.sections())?;
    let descriptors = network_descriptors(alloc, held.sections())?;
    Ok(Some(PartNetwork {
        id: nit.ext,
        name,
        descriptors,
    }))
}

// The programs of this PAT.
fn programs_heard(
    alloc: Global,
    contents: &Collector,
    pat: Option<Key>,
) -> Result<Vec<PatEntry>, AllocError>
    ensures { (part : Key → Content) → KeepsParts contents.now part
        → IfOk result (λ programs. programs.items ≡ programs_in (part_at part pat)) }
{
    let held = part_at(alloc, contents, pat)?;
    programs_in(alloc, held.sections())
}

// What is shown of the services, by whether the PAT's SDT is whole.
fn services_shown(
    alloc: Global,
    contents: &Collector,
    heads: Heads,
    whole: bool,
    keys: &[Key],
) -> Result<PartServices, AllocError>
    ensures { (P : Parts) → KeepsParts contents.now P.part → P.keys ≡ keys.now
        → AreHeads P heads whole
        → IfOk result (λ shown. shown
        ≡ map (part_service P.part (programs_heard P) (home_of P)) (services_heard P)) }
{
    let programs = programs_heard(alloc, contents, heads.pat)?;
    let ids = ids_beside(alloc, whole, &programs, heads.home, keys)?;
    let sdt = part_at(alloc, contents, heads.sdt)?;
    let listed = services_heard(alloc, sdt.sections(), &ids)?;
    part_services(alloc, contents, &programs, heads.home, listed)
}

// What is shown of the streams that these SDTs describe, without the own one (EN 300 468, 5.2.3).
fn other_streams(
    alloc: Global,
    contents: &Collector,
    streams: &[NitStream],
    home: Option<Key>,
    sdts: &[Key],
) -> Result<ScreenOthers, AllocError>
    ensures { (content : Key → Option Content) → KeepsContents contents.now content
        → IfOk result (λ shown. shown ≡ map (other_stream content streams.now) (filter (is_foreign home) sdts.now)) }
{
    let mut shown = Vec::new(alloc);
    for sdt in sdts {
        if is_foreign(home, *sdt) {
            shown.push(other_stream(alloc, contents, streams, *sdt)?)?;
        }
    }
    Ok(Items::of(shown))
}

// Whether this SDT describes another stream than the own one.
fn is_foreign(home: Option<Key>, sdt: Key) -> bool
    ensures { result ≡ is_foreign home sdt }
{
    match home {
        Some(home) => is_other(home.ext, home.network, sdt),
        None => true,
    }
}
