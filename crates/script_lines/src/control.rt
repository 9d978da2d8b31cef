// Control lines of a reader.
ghost use Rattle.std.specs.Prelude.{◌≡◌, IfOk, IfSome, option_and_then};
ghost use Rattle.input_lines.specs.Fields.{record_of};
ghost use Rattle.input_lines.specs.Reads.{NextOf, Says};
ghost use Rattle.script_lines.specs.Controls.{control_of, first_control, publish_of, tick_of};
ghost use Rattle.journal_model.specs.Steps.{IsControlWithin};

use guide_model::Txt;
use input_lines::{EditStop, fields, is_word, next_record_line};
use journal_model::Control;
use si_causes::{LineReader, Source};
use si_time::{Moment, read_moment};
use std::alloc::Global;

// A tick to the moment that is the one field.
fn read_tick(fields: &[Txt]) -> Option<Control>
    ensures value { result ≡ tick_of fields.now }
    ensures within { IfSome result IsControlWithin }
{
    let [moment] = fields else {
        return None;
    };
    let at = read_moment(moment.as_str().as_bytes())?;
    Some(Control::Tick(at))
}

// A publish, which has no field.
fn read_publish(fields: &[Txt]) -> Option<Control>
    ensures value { result ≡ publish_of fields.now }
    ensures within { IfSome result IsControlWithin }
{
    match fields.is_empty() {
        true => Some(Control::Publish),
        false => None,
    }
}

/// What the fields of a control line ask for: `tick` and a moment that `si_time::read_moment` reads, or `publish`. It
/// takes no memory.
#[tactic(auto, unfolding(crate::specs::Controls::control_of))]
pub fn read_control(fields: &[Txt]) -> Option<Control>
    ensures value { result ≡ control_of fields.now }
    ensures within { IfSome result IsControlWithin }
{
    let [word, fields @ ..] = fields else {
        return None;
    };
    let word = word.as_str();
    if is_word(word, "tick") {
        read_tick(fields)
    } else if is_word(word, "publish") {
        read_publish(fields)
    } else {
        None
    }
}

// What line `at` asks for.
fn control_on(alloc: Global, at: u64, line: &[u8]) -> Result<Control, EditStop>
    ensures says { Says at (option_and_then control_of (record_of line.now)) result }
    ensures within { IfOk result IsControlWithin }
{
    let Some(fields) = fields(alloc, line)? else {
        return Err(EditStop::NoCommand(at));
    };
    match read_control(fields.as_slice()) {
        Some(control) => Ok(control),
        None => Err(EditStop::NoCommand(at)),
    }
}

/// What the next control line asks for, or `None` exactly at the end. Empty lines and lines that begin with `#` are
/// passed over. A tick is at a moment that 16 bits of days can say.
///
/// `NoCommand` has the number of the first line that is neither `tick,MOMENT`, with a moment that is read, nor
/// `publish`; a control line has no caller's number. `Read` comes as from [`LineReader::next`], and after it each later
/// call answers the same.
pub fn next_control<S: Source>(
    alloc: Global,
    lines: &mut LineReader<S>,
) -> Result<Option<Control>, EditStop>
    ensures reads { NextOf S.left S.faults S.same first_control lines.old lines.new result }
    ensures within { IfOk result (λ found. IfSome found IsControlWithin) }
{
    let at = match next_record_line(lines) {
        Ok(Some(at)) => at,
        Ok(None) => return Ok(None),
        Err(stop) => return Err(EditStop::Read(stop)),
    };
    match control_on(alloc, at, lines.line()) {
        Ok(control) => Ok(Some(control)),
        Err(stop) => Err(stop),
    }
}
