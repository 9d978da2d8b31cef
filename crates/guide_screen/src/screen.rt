// The screen.
ghost use Rattle.std.specs.Prelude.{◌≡◌, ℕ, List, [], Option, map, option_map, unwrap_or, IfOk};
ghost use Rattle.std.specs.BTreeMap.{get};
ghost use Rattle.std.specs.Ordering.{nat_cmp};
ghost use Rattle.section_codec.specs.declared.table.Key.{Key};
ghost use Rattle.section_codec.specs.Contents.{Content};
ghost use Rattle.table_bodies.specs.declared.pat.PatEntry.{PatEntry};
ghost use Rattle.guide_screen.specs.View.{View};
ghost use Rattle.guide_screen.specs.Holding.{KeepsContents};
ghost use Rattle.guide_screen.specs.Needs.{programs_of, services_of};
ghost use Rattle.guide_screen.specs.Screen.{pid_in, pmt_pid, pmt_of, service_on, screen_service, screen};

use crate::content_values::{event_at, network_descriptors, network_name, pmt_told, streams_in};
use crate::contents::{eit_key, pmt_key, sections_of};
use crate::others::{cable_in, descriptors_in, other_streams};
use crate::schedule::schedule_of;
use guide_model::{
    Offset, Offsets, RawDescs, Screen, ScreenComponents, ScreenService, ScreenServices,
};
use section_codec::Key;
use si_base::Items;
use si_time::Moment;
use std::alloc::{AllocError, Global};
use std::collections::BTreeMap;
use sub_collect::Collector;
use table_bodies::{HeardPmt, PatEntry, SdtService};

/// Of each program the PID of its first entry.
pub fn pids_of(alloc: Global, programs: &[PatEntry]) -> Result<BTreeMap<u16, u16>, AllocError>
    ensures { IfOk result (λ pids. (program : ℕ) → get nat_cmp pids program ≡ pid_in program programs.now) }
{
    let mut pids = BTreeMap::new(alloc);
    let mut left = programs.len();
    while left > 0 {
        left -= 1;
        let entry = programs[left];
        pids.insert(entry.program, entry.pid)?;
    }
    Ok(pids)
}

/// The PID of the PMT of a service; service 0 has none.
pub fn pmt_pid(pids: &BTreeMap<u16, u16>, service: u16) -> Option<u16>
    ensures { (programs : List PatEntry) → ((program : ℕ) → get nat_cmp pids.now program ≡ pid_in program programs)
        → result ≡ pmt_pid programs service }
{
    if service == 0 {
        return None;
    }
    pids.get(&service).copied()
}

// The PMT of a service on this PID.
fn pmt_of(
    alloc: Global,
    contents: &Collector,
    service: u16,
    pid: Option<u16>,
) -> Result<Option<HeardPmt>, AllocError>
    ensures { (content : Key → Option Content) → KeepsContents contents.now content
        → IfOk result (λ pmt. pmt ≡ pmt_of content service pid) }
{
    match pid {
        Some(pid) => pmt_told(alloc, sections_of(contents, pmt_key(pid, service))),
        None => Ok(None),
    }
}

// What is shown of a service, whose PMT has this PID.
fn service_on(
    alloc: Global,
    contents: &Collector,
    sdt: Key,
    service: SdtService,
    pid: Option<u16>,
) -> Result<ScreenService, AllocError>
    ensures { (content : Key → Option Content) → KeepsContents contents.now content
        → IfOk result (λ shown. shown ≡ service_on content sdt service pid) }
{
    let id = service.service;
    let program = program_of(alloc, pmt_of(alloc, contents, id, pid)?);
    let present = sections_of(contents, eit_key(sdt, 0x4E, id));
    let now = event_at(alloc, 0, present)?;
    let next = event_at(alloc, 1, present)?;
    let events = schedule_of(alloc, contents, sdt, id, 0x50, 0x5F)?;
    Ok(ScreenService {
        service: id,
        kind: service.kind,
        provider: service.provider,
        name: service.name,
        descriptors: service.descriptors,
        pmt_pid: pid,
        pcr_pid: program.pcr_pid,
        program_descriptors: program.descriptors,
        components: program.components,
        now,
        next,
        events,
    })
}

/// What is shown of a program: the PID of its PCR where there is a PMT, its further descriptors and its components.
#[derive(Drop)]
pub struct Program {
    pub pcr_pid: Option<u16>,
    pub descriptors: RawDescs,
    pub components: ScreenComponents,
}

/// What a PMT says of its program; nothing without it.
pub fn program_of(alloc: Global, pmt: Option<HeardPmt>) -> Program
    ensures pcr_pid { result.pcr_pid ≡ option_map (λ p. p.pcr_pid) pmt }
    ensures descriptors { result.descriptors ≡ unwrap_or (option_map (λ p. p.descriptors) pmt) [] }
    ensures components { result.components ≡ unwrap_or (option_map (λ p. p.components) pmt) [] }
{
    match pmt {
        Some(pmt) => Program {
            pcr_pid: Some(pmt.pcr_pid),
            descriptors: pmt.descriptors,
            components: pmt.components,
        },
        None => Program {
            pcr_pid: None,
            descriptors: Items::new(alloc),
            components: Items::new(alloc),
        },
    }
}

// What is shown of these services.
fn screen_services(
    alloc: Global,
    contents: &Collector,
    programs: &[PatEntry],
    sdt: Key,
    services: Vec<SdtService>,
) -> Result<ScreenServices, AllocError>
    ensures { (content : Key → Option Content) → KeepsContents contents.now content
        → IfOk result (λ shown. shown ≡ map (screen_service content programs.now sdt) services.items) }
{
    let pids = pids_of(alloc, programs)?;
    let mut shown = Vec::with_capacity(alloc, services.len())?;
    for service in services {
        let pid = pmt_pid(&pids, service.service);
        shown.push(service_on(alloc, contents, sdt, service, pid)?)?;
    }
    Ok(Items::of(shown))
}

// The keys of the tables that a screen shows, and the moment.
#[derive(Clone, Copy)]
pub(crate) struct Named {
    pub(crate) pat: Key,
    pub(crate) nit: Key,
    pub(crate) sdt: Key,
    pub(crate) clock: Moment,
}

/// A copy of offsets.
pub fn copied(alloc: Global, offsets: &[Offset]) -> Result<Offsets, AllocError>
    ensures { IfOk result (λ copy. copy ≡ offsets.now) }
{
    Ok(Items::of(Vec::from_slice(alloc, offsets)?))
}

// The screen of these programs and services, and of these SDTs of other streams.
pub(crate) fn screen_of(
    alloc: Global,
    contents: &Collector,
    of: Named,
    offsets: &[Offset],
    programs: &[PatEntry],
    services: Vec<SdtService>,
    others: &[Key],
) -> Result<Screen, AllocError>
    ensures { (V : View) → KeepsContents contents.now V.content
        → programs.now ≡ programs_of V → services.items ≡ services_of V → V.offsets ≡ offsets.now
        → V.others ≡ others.now
        → IfOk result (λ shown. shown ≡ screen V of.pat of.nit of.sdt of.clock.0) }
{
    let network = sections_of(contents, of.nit);
    let streams = streams_in(alloc, network)?;
    let network_name = network_name(alloc, network)?;
    let network_descriptors = network_descriptors(alloc, network)?;
    let services = screen_services(alloc, contents, programs, of.sdt, services)?;
    let others = other_streams(
        alloc,
        contents,
        &streams,
        of.pat.ext,
        of.sdt.network,
        others,
    )?;
    Ok(Screen {
        clock: of.clock,
        offsets: copied(alloc, offsets)?,
        network: of.nit.ext,
        network_name,
        network_descriptors,
        stream: of.pat.ext,
        original: of.sdt.network,
        cable: cable_in(&streams, of.pat.ext, of.sdt.network),
        stream_descriptors: descriptors_in(alloc, &streams, of.pat.ext, of.sdt.network)?,
        services,
        others,
    })
}
