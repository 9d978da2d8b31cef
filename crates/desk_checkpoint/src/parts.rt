// The parts of a checkpoint on the lines of a reader.
ghost use Rattle.std.specs.Prelude.{◌<◌, IfOk, OnOk, option_map};
ghost use Rattle.si_causes.specs.Reading.{room};
ghost use Rattle.input_lines.specs.Fields.{record_of};
ghost use Rattle.input_lines.specs.Reads.{ReadOf, Says};
ghost use Rattle.desk_checkpoint.specs.Fields.{part_of};
ghost use Rattle.desk_checkpoint.specs.Parts.{IsFitPart};
ghost use Rattle.desk_checkpoint.specs.Reads.{first_part, part_on};

use crate::part::{Part, begins_step, read_part};
use guide_model::Txt;
use input_lines::{EditStop, LineFields, fields, next_record_line};
use script_lines::read_command;
use si_causes::{LineReader, Source};
use std::alloc::Global;

// The fields of line `at`.
fn fields_on(alloc: Global, at: u64, line: &[u8]) -> Result<LineFields, EditStop>
    ensures says { Says at (record_of line.now) result }
{
    match fields(alloc, line)? {
        Some(fields) => Ok(fields),
        None => Err(EditStop::NoCommand(at)),
    }
}

// What line `at` says, which is no step.
fn said_on(alloc: Global, at: u64, fields: &[Txt]) -> Result<(u64, Part), EditStop>
    ensures says { Says at (option_map (λ part. (at, part)) (part_of fields.now)) result }
    ensures fit { IfOk result (λ part. IsFitPart part.1) }
{
    match read_part(alloc, fields)? {
        Some(part) => Ok((at, part)),
        None => Err(EditStop::NoCommand(at)),
    }
}

// The part of line `at`; a step only where one may come.
fn part_on<S: Source>(
    alloc: Global,
    step_may: bool,
    at: u64,
    fields: &LineFields,
    lines: &mut LineReader<S>,
) -> Result<(u64, Part), EditStop>
    ensures reads { ReadOf S.left S.faults S.same (part_on step_may at fields.now) lines.old lines.new result }
    ensures fit { IfOk result (λ part. IsFitPart part.1) }
{
    if !begins_step(fields.as_slice()) {
        return said_on(alloc, at, fields.as_slice());
    }
    if !step_may {
        return Err(EditStop::NoCommand(at));
    }
    match read_command(alloc, at, fields, lines) {
        Ok(command) => Ok((at, Part::Step(command.1))),
        Err(stop) => Err(stop),
    }
}

/// The next part, with the number of its line; a step only where one may come.
pub(crate) fn next_part<S: Source>(
    alloc: Global,
    step_may: bool,
    lines: &mut LineReader<S>,
) -> Result<(u64, Part), EditStop>
    ensures reads { ReadOf S.left S.faults S.same (first_part step_may) lines.old lines.new result }
    ensures falls { OnOk result (room lines.new < room lines.old) }
    ensures fit { IfOk result (λ part. IsFitPart part.1) }
{
    let at = match next_record_line(lines) {
        Ok(Some(at)) => at,
        Ok(None) => return Err(EditStop::NoCommand(lines.number() + 1)),
        Err(stop) => return Err(EditStop::Read(stop)),
    };
    match fields_on(alloc, at, lines.line()) {
        Ok(fields) => part_on(alloc, step_may, at, &fields, lines),
        Err(stop) => Err(stop),
    }
}
