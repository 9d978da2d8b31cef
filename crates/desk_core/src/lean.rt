// A desk that keeps no journal.
ghost use Rattle.std.specs.Prelude.{◌≡◌, ◌<◌, ◌*◌, ◌^◌, ◌∷◌, ◌++◌, [], List, ℕ, IfOk, OnErr};
ghost use Rattle.journal_model.specs.Steps.{IsInWindow, IsStepWithin};
ghost use Rattle.journal_model.specs.declared.step.Entry.{Entry as AnEntry};
ghost use Rattle.mux_model.specs.Sound.{IsSound};
ghost use Rattle.guide_limits.specs.Limits.{IsGuideWithin};
ghost use Rattle.desk_core.specs.Desks.{latest_of, on_air_of};
ghost use Rattle.desk_core.specs.Journal.{outcome_of};
ghost use Rattle.desk_core.specs.Lean.{IsLean, IsNumbered, StandsFor, stood_for, with_entry};
ghost use Rattle.desk_core.specs.Publications.{guide_after};

use crate::airing::Airing;
use crate::desk_state::{Derived, open_held, perform};
use guide_model::Guide;
use journal_model::{Outcome, Step};
use mux_model::Mux;
use std::alloc::{AllocError, Global};

// How many publications a desk can number.
const MOST_PUBLICATIONS: u64 = 1 << 63;

/// A desk without its journal: it does what a [`crate::Desk`] does and keeps what the next steps need, so its memory goes by what stands
/// and not by how much was asked. Its clauses speak of each journal that it stands for (`StandsFor`). A [`crate::Desk`] is one with its
/// entries.
#[derive(Drop)]
pub struct LeanDesk {
    pub(crate) mux: Mux,
    pub(crate) held: Derived,
}

impl LeanDesk {
    /// The desk of a sound multiplex before any step.
    pub fn open(alloc: Global, mux: Mux) -> Result<LeanDesk, AllocError>
        requires { IsSound mux }
        ensures mux { IfOk result (λ desk. desk.mux ≡ mux) }
        ensures stands { IfOk result (λ desk. StandsFor [] desk) }
    {
        let held = open_held(alloc, &mux)?;
        Ok(LeanDesk { mux, held })
    }

    /// Does a step as [`crate::Desk::step`] does, but keeps no entry. Want of memory changes nothing, and the 2^63rd publication is one.
    pub fn step(&mut self, step: &Step) -> Result<Outcome, AllocError>
        requires { IsStepWithin step.now }
        ensures mux { self.new.mux ≡ self.old.mux }
        ensures outcome { (journal : List AnEntry) → StandsFor journal self.old
            → IfOk result (λ outcome. outcome ≡ outcome_of self.old.mux journal step.now) }
        ensures stands { (journal : List AnEntry) (who : ℕ) → StandsFor journal self.old
            → IfOk result (λ outcome. StandsFor (with_entry journal who step.now outcome) self.new) }
        ensures window { IsLean self.old → IfOk result IsInWindow }
        ensures numbered { IsLean self.old → IfOk result (IsNumbered (2 ^ 63)) }
        ensures memory { OnErr result (self.new ≡ self.old) }
    {
        if self.held.published >= MOST_PUBLICATIONS {
            return Err(AllocError);
        }
        perform(&mut self.held, step)
    }

    /// The publication on air, as [`crate::Desk::on_air`] gives it.
    pub fn on_air(&self) -> Result<Airing, AllocError>
        ensures airing { (journal : List AnEntry) → StandsFor journal self.now
            → IfOk result (λ airing. airing ≡ on_air_of (stood_for journal self.now)) }
        ensures within { IsLean self.now → IfOk result (λ airing. IsGuideWithin airing.guide) }
        ensures moment { IsLean self.now → IfOk result (λ airing. airing.moment.0 < 65536 * 86400) }
    {
        let guide = self.held.on_air.guide.share()?;
        Ok(Airing {
            number: self.held.on_air.number,
            moment: self.held.on_air.moment,
            guide,
        })
    }

    /// What [`crate::Desk::latest`] gives.
    pub fn latest(&self) -> Result<Airing, AllocError>
        ensures airing { (journal : List AnEntry) → StandsFor journal self.now
            → IfOk result (λ airing. airing ≡ latest_of (stood_for journal self.now)) }
        ensures within { IsLean self.now → IfOk result (λ airing. IsGuideWithin airing.guide) }
        ensures moment { IsLean self.now → IfOk result (λ airing. airing.moment.0 < 65536 * 86400) }
    {
        Ok(Airing {
            number: self.held.published,
            moment: self.held.moment,
            guide: self.held.latest.share()?,
        })
    }

    /// What [`crate::Desk::draft`] gives.
    pub fn draft(&self) -> Result<Guide, AllocError>
        ensures guide { (journal : List AnEntry) → StandsFor journal self.now
            → IfOk result (λ guide. guide ≡ guide_after self.now.mux journal) }
        ensures within { IsLean self.now → IfOk result (λ guide. IsGuideWithin guide) }
    {
        self.held.book.guide(self.held.moment)
    }

    /// The multiplex.
    pub fn mux(&self) -> &Mux
        ensures value { result.now ≡ self.now.mux }
        ensures sound { IsLean self.now → IsSound result.now }
    {
        &self.mux
    }
}
