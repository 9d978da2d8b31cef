// The items of a script.
ghost use Rattle.std.specs.Prelude.{◌≡◌, ◌≤◌, IfOk, IfSome, drop};
ghost use Rattle.input_lines.specs.Fields.{record_of};
ghost use Rattle.input_lines.specs.Reads.{NextOf, ReadOf, Says};
ghost use Rattle.journal_model.specs.Steps.{IsStepWithin, IsInWindow};
ghost use Rattle.script_lines.specs.Script.{IsItemWithin, IsRead, IsShapedScriptItem, IsShapedStep, caller_of, command_of_caller, control_step, feed_of, first_script_item, is_outcome_line, is_swap, kept_in, next_of, read_command as command_at, read_item, short_step};

use crate::control::read_control;
use crate::edits::read_edit;
use crate::kept_outcome::read_outcome;
use guide_model::Txt;
use input_lines::{EditStop, LineFields, fields, is_word, next_record_line, number, numeral};
use journal_model::{Control, Outcome, Step};
use si_causes::{LineReader, Source};
use std::alloc::Global;

/// An item of a script: a command, with its caller's number; the outcome that is kept behind a command, with the number
/// of its line; or the end.
#[derive(Drop)]
pub enum ScriptItem {
    Step(u32, Step),
    Kept(u64, Outcome),
    End,
}

fn swaps(fields: &[Txt]) -> bool
    ensures { result ≡ is_swap fields.now }
{
    let [word] = fields else {
        return false;
    };
    is_word(word.as_str(), "swap")
}

fn step_of(control: Control) -> Step
    ensures { result ≡ control_step control }
{
    match control {
        Control::Tick(at) => Step::Tick(at),
        Control::Publish => Step::Publish,
    }
}

/// The step of these fields, where it is no edit: `swap`, or what a control line asks for. It takes no memory.
pub fn read_short(fields: &[Txt]) -> Option<Step>
    ensures value { result ≡ short_step fields.now }
    ensures within { IfSome result IsStepWithin }
    ensures shaped { IfSome result IsShapedStep }
{
    if swaps(fields) {
        return Some(Step::Swap);
    }
    let control = read_control(fields)?;
    Some(step_of(control))
}

/// The feed of an edit: the N of `feed,N,` from 0 to 255. It takes no memory.
pub fn read_feed(fields: &[Txt]) -> Option<u8>
    ensures { result ≡ feed_of fields.now }
{
    let [word, feed, ..] = fields else {
        return None;
    };
    if !is_word(word.as_str(), "feed") {
        return None;
    }
    let feed = number(feed.as_str(), 0, 255)?;
    Some(feed as u8)
}

/// The caller's number, where the first field is one. It takes no memory.
pub fn read_caller(fields: &[Txt]) -> Option<u32>
    ensures { result ≡ caller_of fields.now }
{
    match fields.first() {
        Some(field) => numeral(field.as_str()),
        None => None,
    }
}

// The command of a caller: `words` are the fields of line `at` from index `from` on.
fn command_from<S: Source>(
    alloc: Global,
    who: u32,
    at: u64,
    fields: &LineFields,
    words: &[Txt],
    from: usize,
    lines: &mut LineReader<S>,
) -> Result<(u32, Step), EditStop>
    requires few { from ≤ 1 }
    requires words { words.now ≡ drop from fields.now }
    ensures reads { ReadOf S.left S.faults S.same (command_of_caller who at words.now) lines.old lines.new result }
    ensures within { IfOk result (λ command. IsStepWithin command.1) }
    ensures shaped { IfOk result (λ command. IsShapedStep command.1) }
{
    if let Some(step) = read_short(words) {
        return Ok((who, step));
    }
    let Some(feed) = read_feed(words) else {
        return Err(EditStop::NoCommand(at));
    };
    match read_edit(alloc, fields, from + 2, at, lines) {
        Ok(edit) => Ok((who, Step::Edit(feed, edit))),
        Err(stop) => Err(stop),
    }
}

/// The command of line `at`, which has these fields, with its caller's number; without one the caller is 0. The items of a day are read
/// from `lines`, as by [`read_edit`]. A desk takes each command that is read: a day has at most 2,000 items, and a tick is at a moment that
/// 16 bits of days can say.
///
/// `NoCommand` has `at`, or the number of the line that stands in place of an item; `Read` comes as from [`LineReader::next`].
pub fn read_command<S: Source>(
    alloc: Global,
    at: u64,
    fields: &LineFields,
    lines: &mut LineReader<S>,
) -> Result<(u32, Step), EditStop>
    ensures reads { ReadOf S.left S.faults S.same (command_at at fields.now) lines.old lines.new result }
    ensures within { IfOk result (λ command. IsStepWithin command.1) }
    ensures shaped { IfOk result (λ command. IsShapedStep command.1) }
{
    let words = fields.as_slice();
    match read_caller(words) {
        Some(who) => {
            let [_, words @ ..] = words else {
                unreachable!()
            };
            command_from(alloc, who, at, fields, words, 1, lines)
        }
        None => command_from(alloc, 0, at, fields, words, 0, lines),
    }
}

/// Whether the fields are those of an outcome line: the first is `=`. It takes no memory.
pub fn starts_outcome(fields: &[Txt]) -> bool
    ensures { result ≡ is_outcome_line fields.now }
{
    match fields.first() {
        Some(word) => is_word(word.as_str(), "="),
        None => false,
    }
}

// The outcome that outcome line `at` keeps, where it may stand.
#[tactic(auto, unfolding(crate::specs::Outcomes::outcome_of_fields))]
fn kept_on(at: u64, fields: &[Txt], after: bool) -> Result<Outcome, EditStop>
    ensures says { Says at (kept_in after fields.now) result }
    ensures window { IfOk result IsInWindow }
{
    if !after {
        return Err(EditStop::NoCommand(at));
    }
    let [_, rest @ ..] = fields else {
        return Err(EditStop::NoCommand(at));
    };
    match read_outcome(rest) {
        Some(outcome) => Ok(outcome),
        None => Err(EditStop::NoCommand(at)),
    }
}

// The fields of line `at`.
fn fields_on(alloc: Global, at: u64, line: &[u8]) -> Result<LineFields, EditStop>
    ensures says { Says at (record_of line.now) result }
{
    match fields(alloc, line)? {
        Some(fields) => Ok(fields),
        None => Err(EditStop::NoCommand(at)),
    }
}

// The item of line `at`.
fn item_on<S: Source>(
    alloc: Global,
    at: u64,
    fields: &LineFields,
    after: bool,
    lines: &mut LineReader<S>,
) -> Result<ScriptItem, EditStop>
    ensures reads { ReadOf S.left S.faults S.same (read_item after at fields.now) lines.old lines.new result }
    ensures read { IfOk result IsRead }
    ensures within { IfOk result IsItemWithin }
    ensures shaped { IfOk result IsShapedScriptItem }
{
    if starts_outcome(fields.as_slice()) {
        return match kept_on(at, fields.as_slice(), after) {
            Ok(outcome) => Ok(ScriptItem::Kept(at, outcome)),
            Err(stop) => Err(stop),
        };
    }
    match read_command(alloc, at, fields, lines) {
        Ok(command) => Ok(ScriptItem::Step(command.0, command.1)),
        Err(stop) => Err(stop),
    }
}

/// The next item of a script, or `End` exactly at its end. Empty lines and lines that begin with `#` are passed over.
/// `after` says whether the item before was a command: an outcome line is `Kept` exactly where it is true and the rest of
/// the line is an outcome.
///
/// A command is a control line, `swap`, or `feed,N,` with the fields of an edit and N from 0 to 255. It may have its
/// caller's number before it, of one to nine digits; without it the caller is 0. A desk takes each command that is read:
/// a day has at most 2,000 items, and a tick is at a moment that 16 bits of days can say.
///
/// `NoCommand` has the number of the first line that is neither in its place, as in `script_lines::read_edit`. `Read` comes
/// as from [`LineReader::next`], and after it each later call answers the same.
pub fn next_item<S: Source>(
    alloc: Global,
    lines: &mut LineReader<S>,
    after: bool,
) -> Result<ScriptItem, EditStop>
    ensures reads { NextOf S.left S.faults S.same (first_script_item after) lines.old lines.new (next_of result) }
    ensures within { IfOk result IsItemWithin }
    ensures shaped { IfOk result IsShapedScriptItem }
{
    let at = match next_record_line(lines) {
        Ok(Some(at)) => at,
        Ok(None) => return Ok(ScriptItem::End),
        Err(stop) => return Err(EditStop::Read(stop)),
    };
    match fields_on(alloc, at, lines.line()) {
        Ok(fields) => item_on(alloc, at, &fields, after, lines),
        Err(stop) => Err(stop),
    }
}
