// The hall: a desk that callers use in turns.
ghost use Rattle.std.specs.Prelude.{◌≡◌, ◌<◌, ◌*◌, ℕ, Some, IfOk, OnErr};
ghost use Rattle.mux_model.specs.Sound.{IsSound};
ghost use Rattle.guide_limits.specs.Limits.{IsGuideWithin};
ghost use Rattle.journal_model.specs.Edits.{IsDayWithin};
ghost use Rattle.journal_model.specs.Steps.{IsStepWithin};
ghost use Rattle.journal_model.specs.declared.step.Step.TheVariants.{Edit as edit_of, Tick, Publish, Swap};
ghost use Rattle.journal_model.specs.declared.step.Outcome.TheVariants.{Edited, Ticked, Late, Published, Swapped};
ghost use Rattle.turn_lock.specs.Knowledge.{first_pass, Closes, HasAny, numbers};
ghost use Rattle.desk_core.specs.Journal.{Legal};
ghost use Rattle.desk_hall.specs.Turn.{Made, Idle, IsAiring, KeepsNumbers, caller_of};

use crate::state::{HallPass, HallState, Stepping, Swapping};
use desk_core::{Airing, Desk};
use journal_model::{Edit, Outcome, Reply, Step};
use mux_model::Mux;
use si_time::Moment;
use std::alloc::{AllocError, Global};
use std::marker::Model;
use std::sync::Wait;
use turn_lock::Turns;

/// A desk that callers use in turns, each with a pass of its own.
#[derive(Drop)]
pub struct Hall {
    turns: Turns<HallState>,
}

impl Model for Hall {
    ghost use Rattle.turn_lock.specs.Knowledge.{Lock};

    ghost Value = { Lock };

    ghost view = { λ hall. hall.turns };

    ghost invariant = { λ _. Unit {0} };
}

impl Hall {
    /// The hall of a fresh desk, and the first pass, which has all numbers from 0 to `callers` - 1.
    pub fn open(alloc: Global, mux: Mux, callers: u32) -> Result<(Hall, HallPass), AllocError>
        requires sound { IsSound mux }
        requires callers { 0 < callers }
        ensures { IfOk result (λ t. (t.0.callers ≡ callers) × (t.1 ≡ first_pass t.0.turns callers mux)) }
    {
        let desk = Desk::open(alloc, mux)?;
        let (turns, pass) = Turns::open(alloc, HallState(desk), callers)?;
        Ok((Hall { turns }, pass))
    }

    /// What `split`, `join`, `receipt` and `learn` of a pass ask for.
    pub fn turns(&self) -> &Turns<HallState>
        ensures { result.now ≡ self.now }
    {
        &self.turns
    }

    // One turn with one step.
    pub(crate) fn step<W: Wait>(
        &self,
        rt: &W,
        pass: &mut HallPass,
        step: Step,
    ) -> Result<Outcome, AllocError>
        requires turns { pass.old.turns ≡ self.now.turns }
        requires within { IsStepWithin step }
        ensures made { IfOk result (λ outcome. Made step outcome pass.old pass.new) }
        ensures memory { OnErr result (Idle pass.old pass.new) }
        ensures keeps { KeepsNumbers pass.old pass.new }
    {
        self.turns.turn(rt, pass, Stepping { step })
    }

    /// One edit of a feed.
    pub fn edit<W: Wait>(
        &self,
        rt: &W,
        pass: &mut HallPass,
        feed: u8,
        edit: Edit,
    ) -> Result<Reply, AllocError>
        requires turns { pass.old.turns ≡ self.now.turns }
        requires within { IsDayWithin edit }
        ensures made { IfOk result (λ reply. Made (edit_of feed edit) (Edited reply) pass.old pass.new) }
        ensures memory { OnErr result (Idle pass.old pass.new) }
        ensures keeps { KeepsNumbers pass.old pass.new }
    {
        match self.step(rt, pass, Step::Edit(feed, edit)) {
            Ok(Outcome::Edited(reply)) => Ok(reply),
            Ok(_) => unreachable!(),
            Err(e) => Err(e),
        }
    }

    /// One tick of the clock.
    pub fn tick<W: Wait>(
        &self,
        rt: &W,
        pass: &mut HallPass,
        at: Moment,
    ) -> Result<Outcome, AllocError>
        requires turns { pass.old.turns ≡ self.now.turns }
        requires within { IsStepWithin (Tick at) }
        ensures made { IfOk result (λ outcome. Made (Tick at) outcome pass.old pass.new) }
        ensures memory { OnErr result (Idle pass.old pass.new) }
        ensures keeps { KeepsNumbers pass.old pass.new }
    {
        self.step(rt, pass, Step::Tick(at))
    }

    /// One publish, which is answered by its number.
    pub fn publish<W: Wait>(&self, rt: &W, pass: &mut HallPass) -> Result<u64, AllocError>
        requires turns { pass.old.turns ≡ self.now.turns }
        ensures made { IfOk result (λ number. Made Publish (Published number) pass.old pass.new) }
        ensures memory { OnErr result (Idle pass.old pass.new) }
        ensures keeps { KeepsNumbers pass.old pass.new }
    {
        match self.step(rt, pass, Step::Publish) {
            Ok(Outcome::Published(number)) => Ok(number),
            Ok(_) => unreachable!(),
            Err(e) => Err(e),
        }
    }

    /// One swap, with what it puts on air: the last publication of the journal that the pass has then seen.
    pub fn swap<W: Wait>(&self, rt: &W, pass: &mut HallPass) -> Result<Airing, AllocError>
        requires turns { pass.old.turns ≡ self.now.turns }
        ensures made { IfOk result (λ airing. Made Swap (Swapped airing.number airing.moment) pass.old pass.new) }
        ensures airing { IfOk result (λ airing. IsAiring pass.new airing) }
        ensures within { IfOk result (λ airing. IsGuideWithin airing.guide) }
        ensures moment { IfOk result (λ airing. airing.moment.0 < 65536 * 86400) }
        ensures memory { OnErr result (Idle pass.old pass.new) }
        ensures keeps { KeepsNumbers pass.old pass.new }
    {
        self.turns.turn(rt, pass, Swapping)
    }

    /// The desk, once the pass has all numbers again.
    pub fn close(self, pass: HallPass) -> Desk
        requires turns { pass.turns ≡ self.turns }
        requires whole { (k : ℕ) → k < self.callers → HasAny (numbers pass) k }
        ensures closes { Closes caller_of pass result.entries }
        ensures legal { Legal result.mux result.entries }
        ensures stands { pass.on ≡ Some result.mux }
    {
        let Hall { turns } = self;
        let HallState(desk) = turns.close(pass);
        let _ = desk.entries();
        desk
    }
}
