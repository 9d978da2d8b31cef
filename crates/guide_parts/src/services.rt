// What is shown of services.
ghost use Rattle.std.specs.Prelude.{◌≡◌, [], map, option_map, IfOk};
ghost use Rattle.guide_model.specs.declared.shown.Shown.TheVariants.{Text};
ghost use Rattle.section_codec.specs.declared.table.Key.{Key};
ghost use Rattle.section_codec.specs.Contents.{Content};
ghost use Rattle.guide_parts.specs.Holding.{KeepsParts};
ghost use Rattle.guide_parts.specs.PartScreen.{descriptors_by, name_by, provider_by, service_on, part_service};

use crate::part_screen::{Listed, PartService, PartServices};
use crate::tables::{pmt_held, schedule_held, table_held};
use guide_model::{RawDescs, Shown, Txt};
use guide_screen::{event_at, pids_of, pmt_pid, program_of};
use section_codec::Key;
use si_base::Items;
use std::alloc::{AllocError, Global};
use sub_collect::Collector;
use table_bodies::{PatEntry, SdtService};

// What the SDT says of a service beside its id.
#[derive(Drop)]
struct Described {
    kind: Option<u8>,
    provider: Shown,
    name: Shown,
    descriptors: RawDescs,
}

// What an entry of the SDT says; without an entry there are empty names.
fn described_by(alloc: Global, entry: Option<SdtService>) -> Result<Described, AllocError>
    ensures { IfOk result (λ said. said ≡ record {
      kind = option_map (λ s. s.kind) entry;
      provider = provider_by entry;
      name = name_by entry;
      descriptors = descriptors_by entry;
    }) }
{
    match entry {
        Some(entry) => Ok(Described {
            kind: Some(entry.kind),
            provider: entry.provider,
            name: entry.name,
            descriptors: entry.descriptors,
        }),
        None => Ok(Described {
            kind: None,
            provider: empty_name(alloc)?,
            name: empty_name(alloc)?,
            descriptors: Items::new(alloc),
        }),
    }
}

// The empty name.
fn empty_name(alloc: Global) -> Result<Shown, AllocError>
    ensures { IfOk result (λ name. name ≡ Text []) }
{
    Ok(Shown::Text(Txt::of_kept(alloc, "")?))
}

// What is shown of a service of the own stream, whose PMT has this PID.
fn service_on(
    alloc: Global,
    contents: &Collector,
    home: Option<Key>,
    one: Listed,
    pid: Option<u16>,
) -> Result<PartService, AllocError>
    ensures { (part : Key → Content) → KeepsParts contents.now part
        → IfOk result (λ shown. shown ≡ service_on part home one pid) }
{
    let id = one.service;
    let program = program_of(alloc, pmt_held(alloc, contents, id, pid)?);
    let present = table_held(alloc, contents, home, 0x4E, id)?;
    let now = event_at(alloc, 0, present.sections())?;
    let next = event_at(alloc, 1, present.sections())?;
    let events = schedule_held(alloc, contents, home, id)?;
    let said = described_by(alloc, one.entry)?;
    Ok(PartService {
        service: id,
        kind: said.kind,
        provider: said.provider,
        name: said.name,
        descriptors: said.descriptors,
        pmt_pid: pid,
        pcr_pid: program.pcr_pid,
        program_descriptors: program.descriptors,
        components: program.components,
        now,
        next,
        events,
    })
}

// What is shown of these services of the own stream.
pub(crate) fn part_services(
    alloc: Global,
    contents: &Collector,
    programs: &[PatEntry],
    home: Option<Key>,
    services: Vec<Listed>,
) -> Result<PartServices, AllocError>
    ensures { (part : Key → Content) → KeepsParts contents.now part
        → IfOk result (λ shown. shown ≡ map (part_service part programs.now home) services.items) }
{
    let pids = pids_of(alloc, programs)?;
    let mut shown = Vec::with_capacity(alloc, services.len())?;
    for one in services {
        let pid = pmt_pid(&pids, one.service);
        shown.push(service_on(alloc, contents, home, one, pid)?)?;
    }
    Ok(Items::of(shown))
}
