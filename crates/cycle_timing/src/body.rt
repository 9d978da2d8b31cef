// The body of a cycle: for each chunk of Far, all of Near and then the chunk, each in turns.
ghost use Rattle.std.specs.Prelude.{◌≡◌, ◌+◌, ◌-◌, ◌<◌, ◌≤◌, ◌++◌, ◌∷◌, ℕ, length, slice_index, IfOk, OnOk};
ghost use Rattle.section_codec.specs.Contents.{numbers_from};
ghost use Rattle.air_model.specs.Cutting.{packets_in, cut_from, cut};
ghost use Rattle.air_model.specs.Cursor.{upto};
ghost use Rattle.cycle_timing.specs.Planning.{in_turns, body_of};
ghost use Rattle.cycle_timing.specs.Tiers.{tiers_of};

use crate::groups::groups_of;
use crate::rounds::put_rounds;
use air_timing::Paced;
use std::alloc::{AllocError, Global};

/// The body of sections of which so many first ones are Fast, and so many next ones Near, and which
/// have these packets.
pub(crate) fn body_of(
    alloc: Global,
    sections: &[Paced],
    sizes: &[u32],
    fasts: usize,
    nears: usize,
) -> Result<Vec<usize>, AllocError>
    requires fit { fasts + nears ≤ length sizes.now }
    requires sizes { length sizes.now ≡ length sections.now }
    ensures { IfOk result (λ body.
        body.items ≡ body_of sections.now (tiers_of fasts nears sizes.now)) }
{
    let wanted = packets_between(sizes, fasts, fasts + nears);
    let mut near = Vec::new(alloc);
    put_turns(alloc, &mut near, sections, fasts, fasts + nears)?;
    let mut body = Vec::new(alloc);
    let mut from = fasts + nears;
    loop {
        let end = chunk_end(sizes, from, wanted);
        put_chunk(alloc, &mut body, sections, near.as_slice(), from, end)?;
        if end == sizes.len() {
            return Ok(body);
        }
        from = end;
    }
}

// Appends these sections, and then those from one place up to another in turns.
fn put_chunk(
    alloc: Global,
    order: &mut Vec<usize>,
    sections: &[Paced],
    near: &[usize],
    from: usize,
    to: usize,
) -> Result<(), AllocError>
    requires order { from ≤ to }
    requires bound { to ≤ length sections.now }
    ensures { OnOk result (order.new.items
        ≡ (order.old.items ++ near.now) ++ in_turns sections.now (upto from to)) }
{
    order.extend_from_slice(near)?;
    put_turns(alloc, order, sections, from, to)?;
    Ok(())
}

// Appends the sections from one place up to another in turns.
fn put_turns(
    alloc: Global,
    order: &mut Vec<usize>,
    sections: &[Paced],
    from: usize,
    to: usize,
) -> Result<(), AllocError>
    requires order { from ≤ to }
    requires bound { to ≤ length sections.now }
    ensures { OnOk result (order.new.items
        ≡ order.old.items ++ in_turns sections.now (upto from to)) }
{
    let groups = groups_of(alloc, sections, from, to)?;
    put_rounds(alloc, order, groups.as_slice(), to - from)?;
    Ok(())
}

// The packets of the sections from one place up to another.
fn packets_between(sizes: &[u32], from: usize, to: usize) -> u128
    requires order { from ≤ to }
    requires bound { to ≤ length sizes.now }
    ensures { result ≡ packets_in (slice_index sizes.now) (numbers_from from (to - from)) }
{
    let mut total: u128 = 0;
    for index in from..to {
        total += u128::from(sizes[index]);
    }
    total
}

// Where the chunk ends that begins at a place: it takes sections until they have the packets that
// are wanted or more.
fn chunk_end(sizes: &[u32], from: usize, wanted: u128) -> usize
    requires { from ≤ length sizes.now }
    ensures bound { result ≤ length sizes.now }
    ensures more { from < length sizes.now → from < result }
    ensures least { from ≤ result }
    ensures cut { (least : ℕ) → from < length sizes.now
        → cut_from (slice_index sizes.now) least wanted (upto from (length sizes.now))
        ≡ upto from result ∷ cut (slice_index sizes.now) least (upto result (length sizes.now)) }
{
    let mut end = from;
    let mut wants = wanted;
    while end < sizes.len() {
        let size = u128::from(sizes[end]);
        end += 1;
        if wants <= size {
            return end;
        }
        wants -= size;
    }
    end
}
