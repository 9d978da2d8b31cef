// The services of a service description table, in order.
ghost use Rattle.std.specs.Prelude.{◌≡◌, ℕ, Option, IfOk, OnOk};
ghost use Rattle.std.specs.BTreeMap.{insert_entry};
ghost use Rattle.std.specs.Ordering.{nat_cmp};
ghost use Rattle.section_codec.specs.declared.table.Key.{Key};
ghost use Rattle.section_codec.specs.Contents.{Content};
ghost use Rattle.guide_screen.specs.View.{sections_at};
ghost use Rattle.guide_screen.specs.Reading.{programs_in, services_in};
ghost use Rattle.guide_screen.specs.Needs.{by_service};
ghost use Rattle.guide_screen.specs.Holding.{KeepsContents};

use crate::content_values::{programs_in, services_in};
use crate::contents::sections_at;
use section_codec::Key;
use std::alloc::{AllocError, Global};
use std::collections::BTreeMap;
use sub_collect::Collector;
use table_bodies::{PatEntry, SdtService};

/// The programs of this PAT.
pub fn programs_of(
    alloc: Global,
    contents: &Collector,
    pat: Option<Key>,
) -> Result<Vec<PatEntry>, AllocError>
    ensures { (content : Key → Option Content) → KeepsContents contents.now content
        → IfOk result (λ programs. programs.items ≡ programs_in (sections_at content pat)) }
{
    programs_in(alloc, sections_at(contents, pat))
}

/// The services of this SDT, by ascending service_id.
pub fn services_of(
    alloc: Global,
    contents: &Collector,
    sdt: Option<Key>,
) -> Result<Vec<SdtService>, AllocError>
    ensures { (content : Key → Option Content) → KeepsContents contents.now content
        → IfOk result (λ services. services.items ≡ by_service (services_in (sections_at content sdt))) }
{
    by_service(alloc, services_in(alloc, sections_at(contents, sdt))?)
}

// These services by ascending service_id; a repeated one once, by its first entry. They are taken from the last one on, so
// that an earlier entry of a service takes the place of a later one.
fn by_service(alloc: Global, mut services: Vec<SdtService>) -> Result<Vec<SdtService>, AllocError>
    ensures { IfOk result (λ ordered. ordered.items ≡ by_service services.items) }
{
    let mut by_id = BTreeMap::new(alloc);
    while let Some(service) = services.pop() {
        put_service(&mut by_id, service)?;
    }
    let mut ordered = Vec::with_capacity(alloc, by_id.len())?;
    for service in by_id.into_values() {
        ordered.push(service)?;
    }
    Ok(ordered)
}

// Puts a service at its id, in the place of the one that stands there.
fn put_service(by_id: &mut BTreeMap<u16, SdtService>, service: SdtService) -> Result<(), AllocError>
    ensures { OnOk result (by_id.new.entries ≡ insert_entry nat_cmp by_id.old.entries service.service service) }
{
    by_id.insert(service.service, service)?;
    Ok(())
}
