// Sections with the numbers of their sub-tables.
ghost use Rattle.std.specs.Prelude.{◌≡◌, ◌+◌, ◌<◌, Some, None, IfOk, OnOk, if◌then◌else◌};
ghost use Rattle.std.specs.Option.{option_or, unwrap_or};
ghost use Rattle.std.specs.BTreeMap.{get, IsOrdered};
ghost use Rattle.section_codec.specs.KeyOrder.{is_key, key_cmp};
ghost use Rattle.section_codec.specs.declared.table.Key.{Key};
ghost use Rattle.cycle_timing.specs.Listing.{paced_under};

use crate::listed::Listed;
use air_timing::Paced;
use section_codec::{Key, tier_of};
use std::alloc::{AllocError, Global};
use std::collections::BTreeMap;

/// Sections as they are paced: the number of a sub-table is the place of its first section.
/// AllocError comes also where there are 2^32 sections or more.
pub(crate) fn paced_of(alloc: Global, listed: &[Listed]) -> Result<Vec<Paced>, AllocError>
    ensures { IfOk result (λ paced. paced.items ≡ paced_under listed.now) }
{
    let mut firsts = BTreeMap::new(alloc);
    let mut paced = Vec::with_capacity(alloc, listed.len())?;
    let mut place: u32 = 0;
    for section in listed {
        let table = first_place(&mut firsts, section.name, place)?;
        paced.push(Paced {
            pid: section.name.pid,
            tier: tier_of(section.name.table),
            len: section.len,
            table,
        })?;
        place = next_place(place)?;
    }
    Ok(paced)
}

fn next_place(place: u32) -> Result<u32, AllocError>
    ensures { IfOk result (λ next. next ≡ place + 1) }
{
    place.checked_add(1).ok_or(AllocError)
}

// The place of the first section of this name, if there was one, or else this place.
fn first_place(firsts: &mut BTreeMap<Key, u32>, name: Key, place: u32) -> Result<u32, AllocError>
    requires ordered { IsOrdered key_cmp firsts.old }
    ensures value { IfOk result (λ first. first ≡ unwrap_or (get key_cmp firsts.old name) place) }
    ensures firsts { OnOk result ((q : Key) → get key_cmp firsts.new q
        ≡ option_or (get key_cmp firsts.old q) (if is_key q name then Some place else None)) }
    ensures ordered { IsOrdered key_cmp firsts.new }
{
    if let Some(first) = firsts.get(&name) {
        return Ok(*first);
    }
    firsts.insert(name, place)?;
    Ok(place)
}
