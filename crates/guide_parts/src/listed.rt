// Which services are shown.
ghost use Rattle.std.specs.Prelude.{◌≡◌, ◌++◌, [], if◌then◌else◌, map, IfOk, OnOk};
ghost use Rattle.std.specs.BTreeMap.{insert_entry};
ghost use Rattle.std.specs.Ordering.{nat_cmp};
ghost use Rattle.guide_screen.specs.Reading.{services_in};
ghost use Rattle.guide_parts.specs.PartScreen.{program_ids, is_eit_of, event_ids, described, bare, in_order};

use crate::keys::is_own_eit;
use crate::part_screen::Listed;
use guide_screen::services_in;
use section_codec::{Key, NumberedBody};
use std::alloc::{AllocError, Global};
use std::collections::BTreeMap;
use table_bodies::PatEntry;

// Appends the numbers of programs but 0.
fn put_program_ids(ids: &mut Vec<u16>, programs: &[PatEntry]) -> Result<(), AllocError>
    ensures { OnOk result (ids.new.items ≡ ids.old.items ++ program_ids programs.now) }
{
    for entry in programs {
        if entry.program != 0 {
            ids.push(entry.program)?;
        }
    }
    Ok(())
}

// Whether a key is one of event information of the own stream.
fn is_eit_of(home: Option<Key>, key: Key) -> bool
    ensures { result ≡ is_eit_of home key }
{
    match home {
        Some(home) => {
            is_own_eit(key.table) && key.stream == home.ext && key.network == home.network
        }
        None => false,
    }
}

// Appends the services of the own stream of which event information had a section.
fn put_event_ids(ids: &mut Vec<u16>, home: Option<Key>, keys: &[Key]) -> Result<(), AllocError>
    ensures { OnOk result (ids.new.items ≡ ids.old.items ++ event_ids home keys.now) }
{
    for key in keys {
        if is_eit_of(home, *key) {
            ids.push(key.ext)?;
        }
    }
    Ok(())
}

// The services that the PAT and event information name; none where the SDT is whole.
pub(crate) fn ids_beside(
    alloc: Global,
    whole: bool,
    programs: &[PatEntry],
    home: Option<Key>,
    keys: &[Key],
) -> Result<Vec<u16>, AllocError>
    ensures { IfOk result (λ ids. ids.items ≡ (if whole then []
        else program_ids programs.now ++ event_ids home keys.now)) }
{
    let mut ids = Vec::new(alloc);
    if !whole {
        put_program_ids(&mut ids, programs)?;
        put_event_ids(&mut ids, home, keys)?;
    }
    Ok(ids)
}

// Appends the services that these sections of an SDT describe.
fn put_described(
    alloc: Global,
    listed: &mut Vec<Listed>,
    sections: &[NumberedBody],
) -> Result<(), AllocError>
    ensures { OnOk result (listed.new.items ≡ listed.old.items ++ map described (services_in sections.now)) }
{
    for service in services_in(alloc, sections)? {
        listed.push(Listed {
            service: service.service,
            entry: Some(service),
        })?;
    }
    Ok(())
}

// Appends services without an entry.
fn put_bare(listed: &mut Vec<Listed>, ids: &[u16]) -> Result<(), AllocError>
    ensures { OnOk result (listed.new.items ≡ listed.old.items ++ map bare ids.now) }
{
    for id in ids {
        listed.push(Listed {
            service: *id,
            entry: None,
        })?;
    }
    Ok(())
}

// The services that these sections of an SDT describe and those with these ids, in ascending order, each once.
pub(crate) fn services_heard(
    alloc: Global,
    sections: &[NumberedBody],
    ids: &[u16],
) -> Result<Vec<Listed>, AllocError>
    ensures { IfOk result (λ listed. listed.items
        ≡ in_order (map described (services_in sections.now) ++ map bare ids.now)) }
{
    let mut listed = Vec::new(alloc);
    put_described(alloc, &mut listed, sections)?;
    put_bare(&mut listed, ids)?;
    in_order(alloc, listed)
}

// These services in ascending order; a repeated one once, by its first entry. They are taken from the last one on, so that
// an earlier entry of a service takes the place of a later one.
fn in_order(alloc: Global, mut listed: Vec<Listed>) -> Result<Vec<Listed>, AllocError>
    ensures { IfOk result (λ ordered. ordered.items ≡ in_order listed.items) }
{
    let mut by_id = BTreeMap::new(alloc);
    while let Some(one) = listed.pop() {
        put_listed(&mut by_id, one)?;
    }
    let mut ordered = Vec::with_capacity(alloc, by_id.len())?;
    for one in by_id.into_values() {
        ordered.push(one)?;
    }
    Ok(ordered)
}

// Puts a service at its id, in the place of the one that stands there.
fn put_listed(by_id: &mut BTreeMap<u16, Listed>, one: Listed) -> Result<(), AllocError>
    ensures { OnOk result (by_id.new.entries ≡ insert_entry nat_cmp by_id.old.entries one.service one) }
{
    by_id.insert(one.service, one)?;
    Ok(())
}
