// The desk of a script that is played.
ghost use Rattle.std.specs.Prelude.{◌≡◌, ◌<◌, ◌∷◌, ◌++◌, [], None, Some, if◌then◌else◌, vec_capacity, vec_len, IfOk, OnOk};
ghost use Rattle.desk_core.specs.Desks.{DeskState};
ghost use Rattle.desk_core.specs.Lean.{IsLean};
ghost use Rattle.journal_model.specs.Steps.{IsInWindow, IsStepWithin};
ghost use Rattle.epg_play.specs.Items.{IsAt, IsReady, Prepared, Stands, Stays, StepLeft};

use desk_core::LeanDesk;
use journal_model::{Entry, Outcome, Step, raise};
use std::alloc::{AllocError, Global};

/// The desk of a script that is played: a desk that keeps no journal; by how much the numbers of its publications are less than those of
/// the journal that goes on, below 10^18; the outcome of the last command, where the next line may keep it; and the entries that were
/// made, where they are kept. The numbers of that outcome and of these entries are raised by the shift.
#[derive(Drop)]
pub struct ScriptDesk {
    pub desk: LeanDesk,
    pub shift: u64,
    pub last: Option<Outcome>,
    pub keeps: bool,
    pub made: Vec<Entry>,
}

impl ScriptDesk {
    /// A desk at which no command was done yet. It keeps the entries that it makes, or not; without them its memory goes by what stands.
    pub fn open(alloc: Global, desk: LeanDesk, shift: u64, keeps: bool) -> ScriptDesk
        ensures value { result ≡ record { desk = desk; shift = shift; last = result.last; keeps = keeps; made = result.made } }
        ensures last { result.last ≡ None }
        ensures made { result.made.items ≡ [] }
    {
        ScriptDesk {
            desk,
            shift,
            last: None,
            keeps,
            made: Vec::new(alloc),
        }
    }

    // Takes the memory for an entry, does its step, and returns the outcome, with the number of its publication raised.
    fn prepare(&mut self, step: &Step) -> Result<Outcome, AllocError>
        requires ready { IsReady self.old }
        requires within { IsStepWithin step.now }
        ensures prepared { (state : DeskState) → Stands state self.old.desk
            → Prepared self.old.shift state step.now self.new.desk result }
        ensures window { IfOk result IsInWindow }
        ensures lean { IsLean self.new.desk }
        ensures others { self.new ≡ record self.old { desk = self.new.desk; made = self.new.made } }
        ensures made { self.new.made.items ≡ self.old.made.items }
        ensures room { OnOk result (vec_len self.new.made < vec_capacity self.new.made) }
    {
        self.made.reserve(1)?;
        let outcome = self.desk.step(step)?;
        Ok(raise(outcome, self.shift))
    }

    // Takes an entry: its outcome is that of the last command, and the entry is kept where entries are.
    fn keep(&mut self, entry: Entry)
        requires { vec_len self.old.made < vec_capacity self.old.made }
        ensures others { self.new
            ≡ record self.old { last = Some entry.outcome; made = self.new.made } }
        ensures made { self.new.made.items ≡ (if self.old.keeps
            then self.old.made.items ++ entry ∷ [] else self.old.made.items) }
    {
        self.last = Some(entry.outcome);
        if self.keeps {
            self.made.push_reserved(entry);
        }
    }

    // Does a command. Where memory runs out, the desk stays as it was.
    pub(crate) fn step(&mut self, who: u32, step: Step) -> Result<(), AllocError>
        requires ready { IsReady self.old }
        requires within { IsStepWithin step }
        ensures left { (before state : DeskState) → IsAt before state self.old
            → StepLeft before state who step self.new result }
        ensures stays { Stays self.old self.new }
    {
        let outcome = self.prepare(&step)?;
        self.keep(Entry { who, step, outcome });
        Ok(())
    }
}
