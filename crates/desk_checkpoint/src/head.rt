// What stands before the parts of a checkpoint, on the lines of a reader.
ghost use Rattle.std.specs.Prelude.{◌<◌, ◌^◌, IfOk, option_and_then};
ghost use Rattle.input_lines.specs.Fields.{record_of};
ghost use Rattle.input_lines.specs.Reads.{ReadOf, Says};
ghost use Rattle.desk_checkpoint.specs.Fields.{clock_of, count_of};
ghost use Rattle.desk_checkpoint.specs.Reads.{clock_ahead, clock_line, count_line, head_ahead};

use crate::part::{clock_of, count_of};
use cycle_player::Clock;
use input_lines::{EditStop, fields, next_record_line};
use si_causes::{LineReader, Source};
use std::alloc::Global;

/// How many publications there were, and the clock, which stands at 0 where there is no bit rate.
#[derive(Clone, Copy)]
pub(crate) struct Head {
    pub(crate) count: u64,
    pub(crate) clock: Clock,
}

// The count that line `at` says.
fn count_on(alloc: Global, at: u64, line: &[u8]) -> Result<u64, EditStop>
    ensures says { Says at (option_and_then count_of (record_of line.now)) result }
    ensures most { IfOk result (λ count. count < 10 ^ 18) }
{
    let Some(fields) = fields(alloc, line)? else {
        return Err(EditStop::NoCommand(at));
    };
    match count_of(fields.as_slice()) {
        Some(count) => Ok(count),
        None => Err(EditStop::NoCommand(at)),
    }
}

// The count of the line with which a checkpoint begins.
fn next_count<S: Source>(alloc: Global, lines: &mut LineReader<S>) -> Result<u64, EditStop>
    ensures reads { ReadOf S.left S.faults S.same count_line lines.old lines.new result }
    ensures most { IfOk result (λ count. count < 10 ^ 18) }
{
    match next_record_line(lines) {
        Ok(Some(at)) => count_on(alloc, at, lines.line()),
        Ok(None) => Err(EditStop::NoCommand(lines.number() + 1)),
        Err(stop) => Err(EditStop::Read(stop)),
    }
}

// The clock that line `at` says.
fn clock_on(alloc: Global, at: u64, line: &[u8]) -> Result<Clock, EditStop>
    ensures says { Says at (option_and_then clock_of (record_of line.now)) result }
{
    let Some(fields) = fields(alloc, line)? else {
        return Err(EditStop::NoCommand(at));
    };
    match clock_of(fields.as_slice()) {
        Some(clock) => Ok(clock),
        None => Err(EditStop::NoCommand(at)),
    }
}

// The clock of the line after that.
fn next_clock<S: Source>(alloc: Global, lines: &mut LineReader<S>) -> Result<Clock, EditStop>
    ensures { ReadOf S.left S.faults S.same clock_line lines.old lines.new result }
{
    match next_record_line(lines) {
        Ok(Some(at)) => clock_on(alloc, at, lines.line()),
        Ok(None) => Err(EditStop::NoCommand(lines.number() + 1)),
        Err(stop) => Err(EditStop::Read(stop)),
    }
}

// The clock at this bit rate; without one there is no line of it.
fn clock_at<S: Source>(
    alloc: Global,
    rate: Option<u32>,
    lines: &mut LineReader<S>,
) -> Result<Clock, EditStop>
    ensures { ReadOf S.left S.faults S.same (clock_ahead rate) lines.old lines.new result }
{
    match rate {
        None => Ok(Clock { moment: 0, bits: 0 }),
        Some(_) => next_clock(alloc, lines),
    }
}

/// What stands before the parts of a checkpoint, at this bit rate or without one.
pub(crate) fn next_head<S: Source>(
    alloc: Global,
    rate: Option<u32>,
    lines: &mut LineReader<S>,
) -> Result<Head, EditStop>
    ensures reads { ReadOf S.left S.faults S.same (head_ahead rate) lines.old lines.new result }
    ensures most { IfOk result (λ head. head.count < 10 ^ 18) }
{
    let count = match next_count(alloc, lines) {
        Ok(count) => count,
        Err(stop) => return Err(stop),
    };
    match clock_at(alloc, rate, lines) {
        Ok(clock) => Ok(Head { count, clock }),
        Err(stop) => Err(stop),
    }
}
