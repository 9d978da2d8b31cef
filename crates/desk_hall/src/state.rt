// The desk as a state that keeps a journal, and what is done to it in one turn.
ghost use Rattle.std.specs.Prelude.{◌≡◌, ◌<◌, ◌*◌, IfOk, OnErr};

use desk_core::{Airing, Desk};
use journal_model::{Entry, Outcome, Step};
use mux_model::Mux;
use std::alloc::AllocError;
use turn_lock::{Chronicle, Job, Pass};

/// A desk, as callers take it in turns. It keeps its journal, and stands on its multiplex.
#[derive(Drop)]
pub struct HallState(pub Desk);

/// The right to use a hall under one number.
pub type HallPass = Pass<HallState>;

impl Chronicle for HallState {
    type Entry = Entry;

    type Ground = Mux;

    ghost entries = { λ s. s.0.entries };

    ghost stands_on = { λ s. s.0.mux };

    ghost caller = { λ e. e.who };

    fn count(&self) -> u64 {
        self.0.entries().len() as u64
    }
}

// One step of the desk.
#[derive(Drop)]
pub(crate) struct Stepping {
    pub step: Step,
}

impl Job<HallState> for Stepping {
    ghost use Rattle.journal_model.specs.Steps.{IsStepWithin};
    ghost use Rattle.desk_hall.specs.Turn.{StepDone};

    type Answer = Result<Outcome, AllocError>;

    ghost may_run = { λ job. IsStepWithin job.step };

    ghost does = { λ job who mux before after answer. StepDone mux job.step who before after answer };

    fn run(self, who: u32, state: &mut HallState) -> Result<Outcome, AllocError> {
        let answer = state.0.step(who, self.step);
        let _ = state.0.entries();
        answer
    }
}

// A swap, with what it puts on air.
#[derive(Drop)]
pub(crate) struct Swapping;

impl Job<HallState> for Swapping {
    ghost use Rattle.desk_hall.specs.Turn.{SwapDone};

    type Answer = Result<Airing, AllocError>;

    ghost may_run = { λ _. Unit {0} };

    ghost does = { λ job who mux before after answer. SwapDone mux who before after answer };

    fn run(self, who: u32, state: &mut HallState) -> Result<Airing, AllocError> {
        let answer = swap(who, &mut state.0);
        let _ = state.0.entries();
        answer
    }
}

ghost use Rattle.guide_limits.specs.Limits.{IsGuideWithin};
ghost use Rattle.journal_model.specs.declared.step.Step.TheVariants.{Swap};
ghost use Rattle.journal_model.specs.declared.step.Outcome.TheVariants.{Swapped};
ghost use Rattle.desk_core.specs.Desks.{latest_of, and_entry};

// What is latest, and then the swap that puts it on air.
fn swap(who: u32, desk: &mut Desk) -> Result<Airing, AllocError>
    ensures airing { IfOk result (λ airing. airing ≡ latest_of desk.old) }
    ensures within { IfOk result (λ airing. IsGuideWithin airing.guide) }
    ensures moment { IfOk result (λ airing. airing.moment.0 < 65536 * 86400) }
    ensures entry { IfOk result (λ airing. desk.new ≡ and_entry desk.old who Swap (Swapped airing.number airing.moment)) }
    ensures memory { OnErr result (desk.new ≡ desk.old) }
{
    let airing = desk.latest()?;
    desk.step(who, Step::Swap)?;
    Ok(airing)
}
