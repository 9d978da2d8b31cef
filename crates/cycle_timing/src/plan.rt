// The plan of a cycle at a bit rate.
ghost use Rattle.std.specs.Prelude.{◌≡◌, ◌-◌, ◌^◌, ◌<◌, ◌↔◌, List, false, IsTrue, IfOk, OnOk, IfSome, length, count_by};
ghost use Rattle.std.specs.List.{All, AllByRecursion};
ghost use Rattle.section_codec.specs.SubTables.{AreFit};
ghost use Rattle.version_book.specs.Airings.{AiredTables};
ghost use Rattle.air_model.specs.Sections.{is_fast};
ghost use Rattle.air_timing.specs.PlanView.{left_of, IsPlan, CanCount};
ghost use Rattle.air_timing.specs.Rate.{IsRightSpan, gap_at, span_at};
ghost use Rattle.air_model.specs.Air.{CanBeTold};
ghost use Rattle.cycle_timing.specs.Again.{IsRight, leads_in};
ghost use Rattle.cycle_timing.specs.Leads.{leads_of, measure, most_sections};
ghost use Rattle.cycle_timing.specs.Planning.{fast_groups, timings_of};
ghost use Rattle.cycle_timing.specs.Listing.{IsSized, paced_under};
ghost use Rattle.cycle_timing.specs.Plans.{plan_under, plan_with, plan_from, tiers_under, timings_with, most_timings, AreNumbered, IsWithin};

use crate::body::body_of;
use crate::groups::groups_of;
use crate::leads::{leads_within, measured, most_sections};
use crate::listed::{Listed, count_fast, count_near, list_sections, sizes_of};
use crate::numbers::paced_of;
use air_timing::{FramePlan, Leads, Pace, Paced, Spacing, Span, gap_at, span_at};
use guide_model::Offset;
use section_codec::SubTable;
use si_base::Items;
use std::alloc::{AllocError, Global};

/// The plan of a cycle at a bit rate, whether the span of its frames is right, so that all is sent
/// again in time, and what the leads are like that decide it.
#[derive(Drop)]
pub struct TimedPlan {
    pub frames: FramePlan,
    pub is_right: bool,
    pub leads: Leads,
}

// The leads of a round, what they are like, and the span of the frames in front of which they
// stand.
#[derive(Drop)]
struct Round {
    leads: Vec<Items<usize>>,
    measured: Leads,
    span: Span,
}

/// Plans the cycle of these sub-tables, of a TDT, and of a TOT where there are offsets, at a rate
/// in bits per second. A section is named by its place where each is laid once. The cycle begins
/// with the null packets of a gap. AllocError is want of memory, or a cycle whose packets may be
/// too many to count.
pub fn plan_timed(
    alloc: Global,
    tables: &[SubTable],
    offsets: &[Offset],
    rate: u32,
) -> Result<TimedPlan, AllocError>
    requires fit { AreFit tables.now }
    requires offsets { CanBeTold offsets.now }
    ensures frames { IfOk result (λ plan. (past : List AiredTables) (a : AiredTables)
        → a.tables ≡ tables.now → a.form.offsets ≡ offsets.now
        → left_of plan.frames ≡ timings_of rate past a) }
    ensures right { IfOk result (λ plan. (past : List AiredTables) (a : AiredTables)
        → a.tables ≡ tables.now → a.form.offsets ≡ offsets.now
        → IsTrue plan.is_right ↔ IsRight rate past a) }
    ensures leads { IfOk result (λ plan. (past : List AiredTables) (a : AiredTables)
        → a.tables ≡ tables.now → a.form.offsets ≡ offsets.now
        → plan.leads ≡ leads_in rate past a) }
{
    let listed = list_sections(alloc, tables, offsets)?;
    plan_listed(alloc, listed.as_slice(), rate)
}

fn plan_listed(alloc: Global, listed: &[Listed], rate: u32) -> Result<TimedPlan, AllocError>
    requires sized { All IsSized listed.now }
    requires some { 0 < count_by (λ l. is_fast l.tier) listed.now }
    ensures frames { IfOk result (λ plan.
        left_of plan.frames ≡ timings_with rate (plan_under rate listed.now)) }
    ensures right { IfOk result (λ plan. IsTrue plan.is_right
        ↔ IsRightSpan rate (measure (paced_under listed.now)
        (fast_groups (paced_under listed.now) (tiers_under listed.now)))
        (plan_under rate listed.now).span) }
    ensures leads { IfOk result (λ plan. plan.leads ≡ measure (paced_under listed.now)
        (fast_groups (paced_under listed.now) (tiers_under listed.now))) }
{
    let sections = paced_of(alloc, listed)?;
    let sizes = sizes_of(alloc, listed)?;
    let fasts = count_fast(listed);
    let nears = count_near(listed);
    let groups = groups_of(alloc, sections.as_slice(), 0, fasts)?;
    let body = body_of(alloc, sections.as_slice(), sizes.as_slice(), fasts, nears)?;
    plan_frames(alloc, rate, sections, groups.as_slice(), body)
}

// The plan with these Fast sub-tables and this body.
fn plan_frames(
    alloc: Global,
    rate: u32,
    sections: Vec<Paced>,
    groups: &[Items<usize>],
    body: Vec<usize>,
) -> Result<TimedPlan, AllocError>
    requires sections { AreNumbered sections.items }
    requires some { 0 < length groups.now }
    requires each { All (λ group. 0 < length group) groups.now }
    requires groups { AllByRecursion (AllByRecursion (IsWithin sections.items)) groups.now }
    requires body { AllByRecursion (IsWithin sections.items) body.items }
    ensures frames { IfOk result (λ plan. left_of plan.frames
        ≡ timings_with rate (plan_with rate sections.items groups.now body.items)) }
    ensures right { IfOk result (λ plan. IsTrue plan.is_right
        ↔ IsRightSpan rate (measure sections.items groups.now)
        (span_at rate (measure sections.items groups.now))) }
    ensures leads { IfOk result (λ plan. plan.leads ≡ measure sections.items groups.now) }
{
    let round = plan_round(alloc, rate, sections.as_slice(), groups, body.len())?;
    let Round {
        leads,
        measured,
        span,
    } = round;
    let frames = open_frames(alloc, rate, sections, leads, body, span.packets)?;
    Ok(TimedPlan {
        frames,
        is_right: span.is_right,
        leads: measured,
    })
}

// The leads of a round of these Fast sub-tables, and the span of their frames, where the body has
// so many sections. AllocError comes also where the cycle may be too long to count its packets.
fn plan_round(
    alloc: Global,
    rate: u32,
    sections: &[Paced],
    groups: &[Items<usize>],
    body: usize,
) -> Result<Round, AllocError>
    requires some { 0 < length groups.now }
    requires each { All (λ group. 0 < length group) groups.now }
    ensures leads { IfOk result (λ round. round.leads.items ≡ leads_of groups.now) }
    ensures measured { IfOk result (λ round. round.measured ≡ measure sections.now groups.now) }
    ensures span { IfOk result (λ round. round.span.packets
        ≡ span_at rate (measure sections.now groups.now)) }
    ensures right { IfOk result (λ round. IsTrue round.span.is_right
        ↔ IsRightSpan rate (measure sections.now groups.now) round.span.packets) }
    ensures most { OnOk result ((measure sections.now groups.now).most < 4294967296) }
    ensures few { IfOk result (λ round. most_timings body (length round.leads.items)
        (most_sections round.leads.items) < 2 ^ 29 - 1) }
{
    let largest = most_sections(groups)?;
    let leads = leads_within(alloc, groups, largest)?;
    let measured = measured(alloc, sections, groups, leads.as_slice(), largest)?;
    let most = most_sections(leads.as_slice())?;
    if is_too_long(body, leads.len(), most) {
        return Err(AllocError);
    }
    let span = span_at(rate, measured);
    Ok(Round {
        leads,
        measured,
        span,
    })
}

// Opens the plan after the null packets of a gap.
fn open_frames(
    alloc: Global,
    rate: u32,
    sections: Vec<Paced>,
    leads: Vec<Items<usize>>,
    body: Vec<usize>,
    span: u64,
) -> Result<FramePlan, AllocError>
    requires some { 0 < length leads.items }
    requires plan { IsPlan (plan_from rate sections.items leads.items body.items span)
        (length sections.items) }
    requires count { CanCount (gap_at rate)
        (timings_with rate (plan_from rate sections.items leads.items body.items span)) }
    ensures { IfOk result (λ frames. left_of frames
        ≡ timings_with rate (plan_from rate sections.items leads.items body.items span)) }
{
    let gap = gap_at(rate);
    let spacing = Spacing { gap, least: 8 };
    let pace = Pace::open(alloc, u64::from(gap), sections.len(), spacing)?;
    Ok(FramePlan::open(pace, sections, leads, body, span))
}

// Whether the packets of a cycle may be too many to count whose body, round and largest lead have
// these sections and leads.
fn is_too_long(body: usize, round: usize, most: u32) -> bool
    ensures { result ≡ false → most_timings body round most < 2 ^ 29 - 1 }
{
    match count_timings(body, round, most) {
        Some(count) => count >= 536_870_911,
        None => true,
    }
}

fn count_timings(body: usize, round: usize, most: u32) -> Option<usize>
    ensures { IfSome result (λ count. count ≡ most_timings body round most) }
{
    let frames = body.checked_add(1)?.checked_add(round)?;
    frames.checked_mul(most as usize)?.checked_add(body)
}
