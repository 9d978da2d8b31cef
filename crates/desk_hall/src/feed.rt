// The jobs that read: one for a feed, and one for the control.
ghost use Rattle.std.specs.Prelude.{◌≡◌, Some, IfSome};
ghost use Rattle.input_lines.specs.declared.stop.EditStop.TheVariants.{Read};
ghost use Rattle.script_lines.specs.Edits.{edits_ahead};
ghost use Rattle.desk_hall.specs.Turn.{KeepsNumbers};
ghost use Rattle.desk_hall.specs.Reads.{ReaderDid, edit_step, stream};

use crate::hall::Hall;
use crate::state::HallPass;
use script_lines::{EditStop, next_edit};
use si_causes::{Gate, LineReader, Place, Source};
use std::alloc::Global;
use std::sync::Wait;

impl Hall {
    /// Does the edits that the reader still has for this feed, one after the other, each in a turn of its own, up to the reader's stop.
    pub fn feed<W: Wait, F: Source, G: Gate>(
        &self,
        rt: &W,
        alloc: Global,
        pass: &mut HallPass,
        feed: u8,
        lines: &mut LineReader<F>,
        gate: &G,
    ) -> Option<EditStop>
        requires { pass.old.turns ≡ self.now.turns }
        ensures read { ReaderDid (edit_step feed) edits_ahead (stream F.left F.faults F.same)
            pass.old pass.new lines.old lines.new result }
        ensures keeps { KeepsNumbers pass.old pass.new }
        // A reader that had stopped gives its stop, and no turn is taken.
        ensures sticky { IfSome lines.old.stop (λ stop. (result ≡ Some (Read stop))
            × (lines.new ≡ lines.old) × (pass.new ≡ pass.old)) }
    {
        let mut place = 0u64;
        'edits: loop {
            match next_edit(alloc, lines) {
                Ok(Some(edit)) => {
                    place = place.saturating_add(1);
                    gate.pass(Place::BeforeEdit(feed, place));
                    match self.edit(rt, pass, feed, edit) {
                        Ok(_) => gate.pass(Place::AfterEdit(feed, place)),
                        Err(_) => return Some(EditStop::Memory),
                    }
                }
                Ok(None) => return None,
                Err(stop) => return Some(stop),
            }
        }
    }
}
