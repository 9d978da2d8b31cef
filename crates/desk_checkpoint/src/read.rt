// Reading a checkpoint.
ghost use Rattle.std.specs.Prelude.{◌≡◌, ◌≤◌, ◌<◌, ◌^◌, List, ℕ, Some, None, IfOk, OnOk};
ghost use Rattle.si_causes.specs.Reading.{text_left};
ghost use Rattle.input_lines.specs.Ahead.{ahead};
ghost use Rattle.mux_model.specs.Sound.{IsSound};
ghost use Rattle.desk_checkpoint.specs.Reads.{checkpoint_in, read_on};
ghost use Rattle.desk_checkpoint.specs.Starts.{GivesCheckpoint, GivesRest, GivesStart, HasCheckCause, HasRestCause, IsStart};

use crate::head::next_head;
use crate::part::is_end;
use crate::parts::next_part;
use crate::reading::Reading;
use crate::start::{CheckStop, Start, stop_of};
use input_lines::EditStop;
use mux_model::Mux;
use si_causes::{LineReader, Source};
use std::alloc::Global;

// Reads the parts that are left, up to the end.
fn read_on<S: Source>(
    alloc: Global,
    reading: &mut Reading,
    lines: &mut LineReader<S>,
) -> Result<(), EditStop>
    requires going { lines.old.stop ≡ None }
    ensures gives { (text : List ℕ) → text_left S.left lines.old ≡ Some text
        → GivesRest (read_on reading.old (ahead lines.old text)) reading.new result }
    ensures mux { reading.new.desk.mux ≡ reading.old.desk.mux }
    ensures cause { HasRestCause (S.faults lines.old.source) (S.faults lines.new.source) result }
    ensures later { S.faults lines.old.source ≤ S.faults lines.new.source }
    ensures same { S.same lines.old.source lines.new.source }
{
    'parts: loop {
        let (at, part) = match next_part(alloc, reading.steps_may_come(), lines) {
            Ok(found) => found,
            Err(stop) => return Err(stop),
        };
        let ends = is_end(&part);
        if !reading.take(part)? {
            return Err(EditStop::NoCommand(at));
        }
        if ends {
            return Ok(());
        }
    }
}

// Reads a checkpoint, up to its end.
fn read<S: Source>(alloc: Global, mux: Mux, lines: &mut LineReader<S>) -> Result<Reading, EditStop>
    requires sound { IsSound mux }
    requires going { lines.old.stop ≡ None }
    ensures gives { (text : List ℕ) → text_left S.left lines.old ≡ Some text
        → GivesCheckpoint (checkpoint_in mux (ahead lines.old text)) result }
    ensures mux { IfOk result (λ reading. reading.desk.mux ≡ mux) }
    ensures cause { HasRestCause (S.faults lines.old.source) (S.faults lines.new.source) result }
    ensures later { S.faults lines.old.source ≤ S.faults lines.new.source }
    ensures same { S.same lines.old.source lines.new.source }
{
    let head = match next_head(alloc, mux.rate, lines) {
        Ok(head) => head,
        Err(stop) => return Err(stop),
    };
    let mut reading = Reading::open(alloc, mux, head)?;
    match read_on(alloc, &mut reading, lines) {
        Ok(()) => Ok(reading),
        Err(stop) => Err(stop),
    }
}

/// Reads a checkpoint of a multiplex from the lines of a reader, up to its line `end`; no line after
/// it is read. Its parts come in this order: `checkpoint,COUNT` with one to 18 digits; where the
/// multiplex has a bit rate, and only there, `clock,MOMENT,BITS` with one to 18 digits and a number
/// of 0 to 99,999,999; steps of caller 0, each of which a fresh desk of the multiplex does, with one
/// publish where the count is above 0 and none where it is 0; keys in their order, each with a
/// version and at least one section, whose numbers ascend; counters with ascending PIDs, that of
/// null packets only at a bit rate; and the end. The desk has done these steps, the shift is the
/// count less 1, or 0, and the player is that of [`CyclePlayer::resume`] with the multiplex's bit
/// rate, quota and offsets.
///
/// `Line` has the number of the first line that may not stand there, or, where the text ends before, that of the last line plus 1. `Read`
/// comes as from [`LineReader::next`].
///
/// [`CyclePlayer::resume`]: cycle_player::CyclePlayer::resume
pub fn read_checkpoint<S: Source>(
    alloc: Global,
    mux: Mux,
    lines: &mut LineReader<S>,
) -> Result<Start, CheckStop>
    requires sound { IsSound mux }
    requires going { lines.old.stop ≡ None }
    ensures gives { (text : List ℕ) → text_left S.left lines.old ≡ Some text
        → GivesStart (checkpoint_in mux (ahead lines.old text)) result }
    ensures start { IfOk result (IsStart mux) }
    ensures cause { HasCheckCause (S.faults lines.old.source) (S.faults lines.new.source) result }
    ensures later { S.faults lines.old.source ≤ S.faults lines.new.source }
    ensures same { S.same lines.old.source lines.new.source }
{
    let quota = mux.quota;
    let offsets = mux.offsets.copy()?;
    match read(alloc, mux, lines) {
        Ok(reading) => Ok(reading.start(quota, offsets)?),
        Err(stop) => Err(stop_of(stop)),
    }
}
