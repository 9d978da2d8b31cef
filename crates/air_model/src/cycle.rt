// The plan of a cycle.
ghost use Rattle.std.specs.Prelude.{◌≡◌, ◌+◌, ◌-◌, ◌≤◌, [], ◌∷◌, IfOk, IfSome, IfNone, slice_index, length, map, count_by};
ghost use Rattle.section_codec.specs.Contents.{numbers_from};
ghost use Rattle.air_model.specs.Cutting.{packets_in};
ghost use Rattle.air_model.specs.Cycle.{cycle_of};
ghost use Rattle.air_model.specs.Sections.{is_fast, is_near, AreInTiers, planned};

use crate::body::Body;
use section_codec::Tier3;
use std::alloc::{AllocError, Global};
use std::marker::Model;

/// What is still to come of one cycle: a list of sections, each named by its place among those that were planned.
#[derive(Drop)]
pub struct CyclePlan {
    body: Body,
    fasts: usize,
    quota: u32,
    fast_at: usize,
    wants: u32,
}

impl Model for CyclePlan {
    ghost use Rattle.std.specs.Prelude.{List, ℕ};

    ghost Value = { List ℕ };

    ghost use Rattle.air_model.specs.PlanView.{left_of};

    ghost view = { left_of };
}

impl CyclePlan {
    /// The end of a cycle: no section is to come. It takes no memory.
    pub fn ended(alloc: Global) -> CyclePlan
        ensures { result ≡ [] }
    {
        CyclePlan {
            body: Body::ended(alloc),
            fasts: 0,
            quota: 0,
            fast_at: 0,
            wants: 0,
        }
    }

    /// The next section of the cycle, or None exactly at its end. It takes no memory, and constant time.
    pub fn next(&mut self) -> Option<usize>
        ensures some { IfSome result (λ i. self.old ≡ i ∷ self.new) }
        ensures none { IfNone result ((self.old ≡ []) × (self.new ≡ [])) }
    {
        if self.fast_at < self.fasts {
            let index = self.fast_at;
            self.fast_at += 1;
            return Some(index);
        }
        let index = self.body.next()?;
        let size = self.body.size(index);
        if size < self.wants {
            self.wants -= size;
        } else if !self.body.is_done() {
            self.fast_at = 0;
            self.wants = self.quota;
        }
        Some(index)
    }
}

/// The order of one cycle of these sections, given by their tiers and their numbers of packets, in the order of the tiers Fast, Near,
/// Far (TR 101 211, 4.4). The quota is the number of packets of a run between two sendings of Fast. It takes memory for the
/// sizes of the sections alone; AllocError is want of it.
pub fn plan(alloc: Global, sections: &[(Tier3, u32)], quota: u32) -> Result<CyclePlan, AllocError>
    requires tiers { AreInTiers sections.now }
    ensures { IfOk result (λ c. c ≡ cycle_of (planned sections.now quota)) }
{
    let fasts = count_fast(sections);
    let nears = count_near(sections);
    let sizes = sizes_of(alloc, sections)?;
    let near_packets = packets_between(sizes.as_slice(), fasts, fasts + nears);
    let body = Body {
        sizes,
        near_from: fasts,
        far_from: fasts + nears,
        near_packets,
        near_at: fasts,
        far_at: fasts + nears,
        wants: near_packets,
    };
    Ok(CyclePlan {
        body,
        fasts,
        quota,
        fast_at: 0,
        wants: quota,
    })
}

fn count_fast(sections: &[(Tier3, u32)]) -> usize
    ensures { result ≡ count_by (λ s. is_fast s.0) sections.now }
{
    sections
        .iter()
        .filter(|s| matches!(s.0, Tier3::Fast))
        .count()
}

fn count_near(sections: &[(Tier3, u32)]) -> usize
    ensures { result ≡ count_by (λ s. is_near s.0) sections.now }
{
    sections
        .iter()
        .filter(|s| matches!(s.0, Tier3::Near))
        .count()
}

fn sizes_of(alloc: Global, sections: &[(Tier3, u32)]) -> Result<Vec<u32>, AllocError>
    ensures { IfOk result (λ v. v.items ≡ map (λ s. s.1) sections.now) }
{
    sections.iter().map(|s| s.1).collect(alloc)
}

// The packets of the sections from one place up to another.
fn packets_between(sizes: &[u32], from: usize, to: usize) -> u128
    requires order { from ≤ to }
    requires bound { to ≤ length sizes.now }
    ensures { result ≡ packets_in (slice_index sizes.now) (numbers_from from (to - from)) }
{
    let mut total: u128 = 0;
    for index in from..to {
        total += u128::from(sizes[index]);
    }
    total
}
