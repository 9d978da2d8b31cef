// The needs that are not met.
ghost use Rattle.std.specs.Prelude.{◌≡◌, ◌++◌, ◌∷◌, [], Option, map, flat_map, IfOk, OnOk};
ghost use Rattle.section_codec.specs.declared.table.Key.{Key};
ghost use Rattle.section_codec.specs.Contents.{Content};
ghost use Rattle.guide_screen.specs.Holding.{Holds, KeepsContents};
ghost use Rattle.guide_screen.specs.View.{View};
ghost use Rattle.guide_screen.specs.Needs.{programs_of, services_of, needs, unless, unmet_of, tables_to};
ghost use Rattle.guide_screen.specs.Needs.{want_pmt, want_present, want_schedule, want_service, want_services, want_table};

use crate::content_values::last_table;
use crate::contents::{Latest, eit_key, is_completed, pmt_key, sections_of};
use crate::need::Need;
use section_codec::Key;
use std::alloc::{AllocError, Global};
use sub_collect::Collector;
use table_bodies::{PatEntry, SdtService};

// Appends a need where it is not met; want of memory changes nothing.
pub(crate) fn put_unless(needs: &mut Vec<Need>, need: Need, met: bool) -> Result<(), AllocError>
    ensures { OnOk result (needs.new.items ≡ needs.old.items ++ unless need met) }
{
    if !met {
        needs.push(need)?;
    }
    Ok(())
}

/// The table_ids from a first one to a last one.
pub fn tables_to(alloc: Global, first: u8, last: u8) -> Result<Vec<u8>, AllocError>
    ensures { IfOk result (λ tables. tables.items ≡ tables_to first last) }
{
    let mut tables = Vec::new(alloc);
    for table in u16::from(first)..u16::from(last) + 1 {
        tables.push(table as u8)?;
    }
    Ok(tables)
}

// Appends the need of a program's PMT.
fn put_pmt(contents: &Collector, entry: &PatEntry, needs: &mut Vec<Need>) -> Result<(), AllocError>
    ensures { (content : Key → Option Content) → KeepsContents contents.now content
        → OnOk result (needs.new.items ≡ needs.old.items ++ unmet_of content (want_pmt entry.now)) }
{
    if entry.program == 0 {
        return Ok(());
    }
    let met = is_completed(contents, pmt_key(entry.pid, entry.program));
    put_unless(needs, Need::Pmt(entry.pid, entry.program), met)
}

// Appends the need of a table of a schedule.
fn put_table(
    contents: &Collector,
    sdt: Key,
    service: u16,
    table: u8,
    needs: &mut Vec<Need>,
) -> Result<(), AllocError>
    ensures { (content : Key → Option Content) → KeepsContents contents.now content
        → OnOk result (needs.new.items ≡ needs.old.items ++ unmet_of content (want_table sdt service table ∷ [])) }
{
    let met = is_completed(contents, eit_key(sdt, table, service));
    put_unless(needs, Need::Schedule(service, table), met)
}

// Appends the need of the present and following events of a service.
fn put_present(
    contents: &Collector,
    sdt: Key,
    service: &SdtService,
    needs: &mut Vec<Need>,
) -> Result<(), AllocError>
    ensures { (content : Key → Option Content) → KeepsContents contents.now content
        → OnOk result (needs.new.items ≡ needs.old.items ++ unmet_of content (want_present sdt service.now)) }
{
    if !service.present {
        return Ok(());
    }
    let met = is_completed(contents, eit_key(sdt, 0x4E, service.service));
    put_unless(needs, Need::Present(service.service), met)
}

// Appends the needs of the tables of the schedule of a service: the first one, and those that it tells.
fn put_schedule(
    alloc: Global,
    contents: &Collector,
    sdt: Key,
    service: &SdtService,
    needs: &mut Vec<Need>,
) -> Result<(), AllocError>
    ensures { (content : Key → Option Content) → KeepsContents contents.now content
        → OnOk result (needs.new.items ≡ needs.old.items ++ unmet_of content (want_schedule content sdt service.now)) }
{
    if !service.schedule {
        return Ok(());
    }
    put_table(contents, sdt, service.service, 0x50, needs)?;
    let first = sections_of(contents, eit_key(sdt, 0x50, service.service));
    let further = tables_to(alloc, 0x51, last_table(first, 0x5F))?;
    put_tables(contents, sdt, service.service, &further, needs)
}

// Appends the needs of tables of a schedule.
fn put_tables(
    contents: &Collector,
    sdt: Key,
    service: u16,
    tables: &[u8],
    needs: &mut Vec<Need>,
) -> Result<(), AllocError>
    ensures { (content : Key → Option Content) → KeepsContents contents.now content
        → OnOk result (needs.new.items ≡ needs.old.items ++ unmet_of content (map (want_table sdt service) tables.now)) }
{
    for table in tables {
        put_table(contents, sdt, service, *table, needs)?;
    }
    Ok(())
}

// Appends the needs of the PMTs of programs.
fn put_pmts(
    contents: &Collector,
    programs: &[PatEntry],
    needs: &mut Vec<Need>,
) -> Result<(), AllocError>
    ensures { (content : Key → Option Content) → KeepsContents contents.now content
        → OnOk result (needs.new.items ≡ needs.old.items ++ unmet_of content (flat_map want_pmt programs.now)) }
{
    for entry in programs {
        put_pmt(contents, entry, needs)?;
    }
    Ok(())
}

// Appends the needs of a service.
fn put_service(
    alloc: Global,
    contents: &Collector,
    sdt: Key,
    service: &SdtService,
    needs: &mut Vec<Need>,
) -> Result<(), AllocError>
    ensures { (content : Key → Option Content) → KeepsContents contents.now content
        → OnOk result (needs.new.items ≡ needs.old.items ++ unmet_of content (want_service content sdt service.now)) }
{
    put_present(contents, sdt, service, needs)?;
    put_schedule(alloc, contents, sdt, service, needs)
}

// Appends the needs of the services of this SDT; there are none without it.
fn put_services(
    alloc: Global,
    contents: &Collector,
    sdt: Option<Key>,
    services: &[SdtService],
    needs: &mut Vec<Need>,
) -> Result<(), AllocError>
    ensures { (content : Key → Option Content) → KeepsContents contents.now content
        → OnOk result (needs.new.items ≡ needs.old.items ++ unmet_of content (want_services content sdt services.now)) }
{
    let Some(sdt) = sdt else {
        return Ok(());
    };
    for service in services {
        put_service(alloc, contents, sdt, service, needs)?;
    }
    Ok(())
}

/// The needs that are not met, in order, by the programs of the PAT and the services of the SDT.
pub fn needs_of(
    alloc: Global,
    contents: &Collector,
    latest: &Latest,
    programs: &[PatEntry],
    services: &[SdtService],
) -> Result<Vec<Need>, AllocError>
    ensures { (V : View) → Holds contents.now latest.now V
        → programs.now ≡ programs_of V → services.now ≡ services_of V
        → IfOk result (λ wanting. wanting.items ≡ needs V) }
{
    let mut needs = Vec::new(alloc);
    put_unless(&mut needs, Need::Pat, latest.pat.is_some())?;
    put_unless(&mut needs, Need::Nit, latest.nit.is_some())?;
    put_unless(&mut needs, Need::Sdt, latest.sdt.is_some())?;
    put_unless(&mut needs, Need::Clock, latest.clock.is_some())?;
    put_pmts(contents, programs, &mut needs)?;
    put_services(alloc, contents, latest.sdt, services, &mut needs)?;
    Ok(needs)
}
