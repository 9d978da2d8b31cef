// The job of the control, which ticks and publishes.
ghost use Rattle.std.specs.Prelude.{◌≡◌, Some, IfSome};
ghost use Rattle.input_lines.specs.declared.stop.EditStop.TheVariants.{Read};
ghost use Rattle.journal_model.specs.Steps.{IsControlWithin, IsStepWithin};
ghost use Rattle.desk_hall.specs.Turn.{KeepsNumbers};
ghost use Rattle.desk_hall.specs.Reads.{ReaderDid, control_step, controls_ahead, stream};

use crate::hall::Hall;
use crate::state::HallPass;
use journal_model::{Control, Step};
use script_lines::{EditStop, next_control};
use si_causes::{LineReader, Source};
use std::alloc::Global;
use std::sync::Wait;

fn step_of(control: Control) -> Step
    requires { IsControlWithin control }
    ensures step { result ≡ control_step control }
    ensures within { IsStepWithin result }
{
    match control {
        Control::Tick(at) => Step::Tick(at),
        Control::Publish => Step::Publish,
    }
}

impl Hall {
    /// Does the control lines that the reader still has, one after the other, each in a turn of its own, up to the reader's stop.
    pub fn control<W: Wait, S: Source>(
        &self,
        rt: &W,
        alloc: Global,
        pass: &mut HallPass,
        lines: &mut LineReader<S>,
    ) -> Option<EditStop>
        requires { pass.old.turns ≡ self.now.turns }
        ensures read { ReaderDid control_step controls_ahead (stream S.left S.faults S.same)
            pass.old pass.new lines.old lines.new result }
        ensures keeps { KeepsNumbers pass.old pass.new }
        // A reader that had stopped gives its stop, and no turn is taken.
        ensures sticky { IfSome lines.old.stop (λ stop. (result ≡ Some (Read stop))
            × (lines.new ≡ lines.old) × (pass.new ≡ pass.old)) }
    {
        'controls: loop {
            match next_control(alloc, lines) {
                Ok(Some(control)) => match self.step(rt, pass, step_of(control)) {
                    Ok(_) => {}
                    Err(_) => return Some(EditStop::Memory),
                },
                Ok(None) => return None,
                Err(stop) => return Some(stop),
            }
        }
    }
}
