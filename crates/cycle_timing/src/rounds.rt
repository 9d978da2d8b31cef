// Sections in turns.
ghost use Rattle.std.specs.Prelude.{◌≡◌, ◌++◌, ◌∷◌, [], map, IfOk, OnOk};
ghost use Rattle.air_timing.specs.Spreading.{firsts, rests, spread};
ghost use Rattle.cycle_timing.specs.Turns.{with_more};

use si_base::Items;
use std::alloc::{AllocError, Global};

/// Appends so many rounds of these groups: of each the first section, then of each the second one.
pub(crate) fn put_rounds(
    alloc: Global,
    order: &mut Vec<usize>,
    groups: &[Items<usize>],
    rounds: usize,
) -> Result<(), AllocError>
    ensures { OnOk result (order.new.items ≡ order.old.items ++ spread rounds groups.now) }
{
    let mut left = whole(alloc, groups)?;
    for round in 0..rounds {
        left = put_round(alloc, order, left.as_slice())?;
    }
    Ok(())
}

fn whole(alloc: Global, groups: &[Items<usize>]) -> Result<Vec<&[usize]>, AllocError>
    ensures { IfOk result (λ left. map (λ g. g.now) left.items ≡ groups.now) }
{
    let mut left = Vec::with_capacity(alloc, groups.len())?;
    for group in groups {
        left.push(group.as_slice())?;
    }
    Ok(left)
}

// One round, and what is left of the groups that have more.
fn put_round<'a>(
    alloc: Global,
    order: &mut Vec<usize>,
    groups: &[&'a [usize]],
) -> Result<Vec<&'a [usize]>, AllocError>
    ensures order { OnOk result (order.new.items
        ≡ order.old.items ++ firsts (map (λ g. g.now) groups.now)) }
    ensures left { IfOk result (λ left. map (λ g. g.now) left.items
        ≡ with_more (rests (map (λ g. g.now) groups.now))) }
{
    let mut left = Vec::new(alloc);
    for group in groups {
        put_first(order, &mut left, group)?;
    }
    Ok(left)
}

fn put_first<'a>(
    order: &mut Vec<usize>,
    left: &mut Vec<&'a [usize]>,
    group: &'a [usize],
) -> Result<(), AllocError>
    ensures order { OnOk result (order.new.items ≡ order.old.items ++ firsts (group.now ∷ [])) }
    ensures left { OnOk result (map (λ g. g.now) left.new.items
        ≡ map (λ g. g.now) left.old.items ++ with_more (rests (group.now ∷ []))) }
{
    if let Some((first, more)) = group.split_first() {
        order.push(*first)?;
        if !more.is_empty() {
            left.push(more)?;
        }
    }
    Ok(())
}
