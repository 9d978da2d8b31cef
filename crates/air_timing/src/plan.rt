// The plan of a cycle in frames.
ghost use Rattle.std.specs.Prelude.{◌≡◌, ◌^◌, ◌∷◌, ◌<◌, ◌≤◌, [], IfSome, IfNone, true, false, length, slice_index};
ghost use Rattle.air_timing.specs.PaceView.{place_of};
ghost use Rattle.air_timing.specs.Plan.{section_at, plan_of};
ghost use Rattle.air_timing.specs.PlanView.{planned, lead_of, end_of, left_of, leads_on, goes, is_over, IsPlan, CanCount};

use crate::pace::{Pace, Paced};
use crate::timing::Timing;
use si_base::Items;
use std::marker::Model;

/// What is still to come of one cycle in frames: its sections, each named by its place among those
/// that were given, with its first and its last packet.
#[derive(Drop)]
pub struct FramePlan {
    sections: Vec<Paced>,
    leads: Vec<Items<usize>>,
    body: Vec<usize>,
    span: u64,
    pace: Pace,
    lead: usize,
    led: usize,
    sent: usize,
    end: u64,
    fresh: bool,
}

impl Model for FramePlan {
    ghost use Rattle.air_timing.specs.PlanView.{Course, course_of, IsCourse};

    ghost Value = { Course };

    ghost view = { course_of };

    ghost invariant = { λ c. IsCourse (course_of c) };
}

impl FramePlan {
    /// The plan of a cycle from a place in the air on. The leads of a round are taken in turn, each
    /// in front of a frame of `span` packets, and the body is sent after them as far as it ends
    /// within the frames. The cycle ends with the end of a round. Sections are named by their
    /// places, in the leads and in the body. It takes no memory.
    pub fn open(
        pace: Pace,
        sections: Vec<Paced>,
        leads: Vec<Items<usize>>,
        body: Vec<usize>,
        span: u64,
    ) -> FramePlan
        requires some { 0 < length leads.items }
        requires plan { IsPlan (planned sections.items leads.items body.items pace.spacing span)
            (length pace.free) }
        requires count { CanCount pace.packing.closed
            (plan_of (planned sections.items leads.items body.items pace.spacing span)
            (place_of pace)) }
        ensures { left_of result
            ≡ plan_of (planned sections.items leads.items body.items pace.spacing span)
            (place_of pace) }
    {
        FramePlan {
            sections,
            leads,
            body,
            span,
            pace,
            lead: 0,
            led: 0,
            sent: 0,
            end: 0,
            fresh: false,
        }
    }

    /// The next section of the cycle with its first and its last packet, or None exactly at its end.
    /// It takes no memory, and constant time.
    pub fn next(&mut self) -> Option<Timing>
        ensures some { IfSome result (λ s. left_of self.old ≡ s ∷ left_of self.new) }
        ensures none { IfNone result ((left_of self.old ≡ []) × (left_of self.new ≡ [])) }
    {
        if !self.leads_on() && !self.goes() {
            if self.is_over() {
                return None;
            }
            self.begin_lead();
        }
        if self.leads_on() {
            Some(self.send_lead())
        } else {
            Some(self.send_body())
        }
    }

    // A frame begins: the next lead of the round is at hand, and a section of the body follows it.
    fn begin_lead(&mut self)
        requires lead { leads_on self.old ≡ false }
        requires goes { goes self.old ≡ false }
        requires more { is_over self.old ≡ false }
        ensures left { left_of self.new ≡ left_of self.old }
        ensures lead { leads_on self.new ≡ true }
    {
        let next = self.lead + 1;
        self.lead = if next == self.leads.len() { 0 } else { next };
        self.led = 0;
        self.fresh = true;
    }

    // The next section of the lead is sent.
    fn send_lead(&mut self) -> Timing
        requires { leads_on self.old ≡ true }
        ensures { left_of self.old ≡ result ∷ left_of self.new }
    {
        let index = self.lead_section();
        let section = self.section(index);
        self.end = self.frame_end(section);
        let extent = self.pace.put(section);
        self.led += 1;
        Timing {
            section: index,
            first: extent.first,
            last: extent.last,
        }
    }

    // The next section of the body is sent.
    fn send_body(&mut self) -> Timing
        requires lead { leads_on self.old ≡ false }
        requires goes { goes self.old ≡ true }
        ensures { left_of self.old ≡ result ∷ left_of self.new }
    {
        let index = self.body_section();
        let section = self.section(index);
        let extent = self.pace.put(section);
        self.sent += 1;
        self.fresh = false;
        Timing {
            section: index,
            first: extent.first,
            last: extent.last,
        }
    }

    // whether a section of the lead at hand is to come
    fn leads_on(&self) -> bool
        ensures { result ≡ leads_on self.now }
    {
        self.led < self.leads[self.lead].len()
    }

    // whether the next section of the body is sent in the frame at hand
    fn goes(&self) -> bool
        ensures { result ≡ goes self.now }
    {
        if self.sent >= self.body.len() {
            return false;
        }
        let section = self.section(self.body[self.sent]);
        self.fresh || self.pace.last(section) < self.end
    }

    // whether nothing is to come after the lead at hand
    fn is_over(&self) -> bool
        ensures { result ≡ is_over self.now }
    {
        self.sent >= self.body.len() && self.lead + 1 == self.leads.len()
    }

    // the packet with which the frame is over, where this is the next section of its lead
    fn frame_end(&self, section: Paced) -> u64
        requires lead { leads_on self.now ≡ true }
        requires section { section
            ≡ section_at self.now.plan.sections (slice_index (lead_of self.now) self.now.led) }
        ensures { result ≡ end_of self.now }
    {
        if self.led == 0 {
            self.pace.first(section) + self.span
        } else {
            self.end
        }
    }

    fn lead_section(&self) -> usize
        requires { leads_on self.now ≡ true }
        ensures value { result ≡ slice_index (lead_of self.now) self.now.led }
        ensures bound { result < length self.now.plan.sections }
        ensures led { self.now.led < 2 ^ 63 }
    {
        self.leads[self.lead].as_slice()[self.led]
    }

    fn body_section(&self) -> usize
        requires { goes self.now ≡ true }
        ensures value { result ≡ slice_index self.now.plan.body self.now.sent }
        ensures bound { result < length self.now.plan.sections }
        ensures sent { self.now.sent < length self.now.plan.body }
        ensures small { self.now.sent < 2 ^ 63 }
    {
        self.body[self.sent]
    }

    fn section(&self, index: usize) -> Paced
        requires { index < length self.now.plan.sections }
        ensures section { result ≡ section_at self.now.plan.sections index }
        ensures table { result.table < length self.now.seen.free }
        ensures len { result.len ≤ 4096 }
        ensures closed { self.now.seen.packing.closed < 2 ^ 62 }
    {
        self.sections[index]
    }
}
