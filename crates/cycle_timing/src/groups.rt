// Sections by their sub-tables.
ghost use Rattle.std.specs.Prelude.{◌≡◌, ◌<◌, ◌≤◌, ◌==◌, ℕ, Some, None, IfOk, OnOk, if◌then◌else◌, length};
ghost use Rattle.std.specs.Option.{option_or};
ghost use Rattle.std.specs.Ordering.{nat_cmp};
ghost use Rattle.std.specs.BTreeMap.{get, IsOrdered};
ghost use Rattle.air_model.specs.Cursor.{upto};
ghost use Rattle.cycle_timing.specs.SubTables.{groups};
ghost use Rattle.cycle_timing.specs.Planning.{table_at};
ghost use Rattle.cycle_timing.specs.Turns.{grouped};

use air_timing::Paced;
use si_base::Items;
use std::alloc::{AllocError, Global};
use std::collections::BTreeMap;

/// Of the sections from one place up to another: those of each sub-table, in the order of their
/// first ones.
pub(crate) fn groups_of(
    alloc: Global,
    sections: &[Paced],
    from: usize,
    to: usize,
) -> Result<Vec<Items<usize>>, AllocError>
    requires order { from ≤ to }
    requires bound { to ≤ length sections.now }
    ensures { IfOk result (λ made. made.items ≡ groups (table_at sections.now) (upto from to)) }
{
    let mut slots = BTreeMap::new(alloc);
    let mut made = Vec::new(alloc);
    for index in from..to {
        put_in_group(alloc, &mut slots, &mut made, sections[index].table, index)?;
    }
    Ok(made)
}

// Puts a section into the group of its sub-table, or into a new one.
fn put_in_group(
    alloc: Global,
    slots: &mut BTreeMap<u32, usize>,
    made: &mut Vec<Items<usize>>,
    table: u32,
    index: usize,
) -> Result<(), AllocError>
    requires ordered { IsOrdered nat_cmp slots.old }
    requires within { (slot : ℕ) → get nat_cmp slots.old table ≡ Some slot
        → slot < length made.old.items }
    ensures groups { OnOk result (made.new.items
        ≡ grouped (get nat_cmp slots.old table) made.old.items index) }
    ensures slots { OnOk result ((q : ℕ) → get nat_cmp slots.new q
        ≡ option_or (get nat_cmp slots.old q)
        (if table == q then Some (length made.old.items) else None)) }
    ensures ordered { IsOrdered nat_cmp slots.new }
{
    if let Some(slot) = slots.get(&table) {
        made[*slot].push(index)?;
        return Ok(());
    }
    let mut group = Items::new(alloc);
    group.push(index)?;
    slots.insert(table, made.len())?;
    made.push(group)?;
    Ok(())
}
