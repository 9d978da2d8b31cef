// Notings on the lines of a reader.
ghost use Rattle.std.specs.Prelude.{◌≡◌, None, IfOk, OnOk};
ghost use Rattle.script_notes.specs.Held.{IsHeldBy, IsSoundNoting, NotingOf};
ghost use Rattle.script_notes.specs.Sound.{IsSoundNoted};
ghost use Rattle.script_notes.specs.Walks.{IsNoted, IsRowRead, line_walk};
ghost use Rattle.script_notes.specs.declared.noting.Held.TheVariants.{Attached};

use crate::day::read_day;
use crate::head::{LineHead, line_head};
use crate::noting::{Held, Noting};
use crate::why_line::{is_attached, why_of_line};
use input_lines::{EditStop, next_record_line};
use script_lines::ScriptItem;
use si_causes::{LineReader, ReadStop, Source};
use std::alloc::Global;

// The next line that is not attached to the one before.
fn next_unattached<S: Source>(lines: &mut LineReader<S>) -> Result<Option<u64>, ReadStop>
    requires going { lines.old.stop ≡ None }
    ensures { IsRowRead S.left S.faults S.same Attached lines.old lines.new result }
{
    'lines: loop {
        match next_record_line(lines) {
            Ok(Some(at)) => {
                if !is_attached(lines.line()) {
                    return Ok(Some(at));
                }
            }
            Ok(None) => return Ok(None),
            Err(stop) => return Err(stop),
        }
    }
}

// The line that is read as a command: the one that is held, or the next one.
fn next_line<S: Source>(lines: &mut LineReader<S>, held: Held) -> Result<Option<u64>, ReadStop>
    requires going { lines.old.stop ≡ None }
    requires held { IsHeldBy S.left held lines.old }
    ensures { IsRowRead S.left S.faults S.same held lines.old lines.new result }
{
    match held {
        Held::Nothing => next_record_line(lines),
        Held::Attached => next_unattached(lines),
        Held::Line => Ok(Some(lines.number())),
        Held::Ended => Ok(None),
    }
}

// What line `at`, the reader's last, is in place of a command.
fn note_line<S: Source>(
    alloc: Global,
    at: u64,
    lines: &mut LineReader<S>,
    after: bool,
) -> Result<(Noting, Held), EditStop>
    requires going { lines.old.stop ≡ None }
    ensures reads { IsNoted S.left S.faults S.same (line_walk after (at, lines.old.line)) lines.old lines.new result }
    ensures sound { IfOk result IsSoundNoted }
{
    let Ok(head) = line_head(alloc, at, lines.line(), after) else {
        return Err(EditStop::Memory);
    };
    match head {
        Some(LineHead::Whole(item)) => Ok((Noting::Item(item), Held::Nothing)),
        Some(LineHead::OfDay(day)) => read_day(alloc, day, lines),
        None => match why_of_line(alloc, lines.line(), after) {
            Ok(why) => Ok((Noting::Bad(at, why), Held::Attached)),
            Err(_) => Err(EditStop::Memory),
        },
    }
}

/// The next item of a script, or the next line at fault and why it is; `End` exactly at the end. Empty lines and lines that begin with
/// `#` are passed over. `after` says whether the noting before was a command, as for `script_lines::next_item`.
///
/// The lines that are attached to a line at fault go with it: those after it that begin with `item` or `=`. A line in place of an item of
/// a day that is not attached is read as a command by the next call. `held` is what stands between two calls; it begins with `Nothing`.
/// No more lines are taken than an answer needs: a line at fault is returned before the next one is taken.
///
/// `Read` comes as from [`LineReader::next`], and `NoCommand` never.
pub fn next_noting<S: Source>(
    alloc: Global,
    lines: &mut LineReader<S>,
    held: &mut Held,
    after: bool,
) -> Result<Noting, EditStop>
    requires going { lines.old.stop ≡ None }
    requires held { IsHeldBy S.left held.old lines.old }
    ensures reads { NotingOf S.left S.faults S.same after held.old held.new lines.old lines.new result }
    ensures going { OnOk result (lines.new.stop ≡ None) }
    ensures held { OnOk result (IsHeldBy S.left held.new lines.new) }
    ensures sound { IfOk result IsSoundNoting }
{
    let at = match next_line(lines, *held) {
        Ok(Some(at)) => at,
        Ok(None) => return Ok(Noting::Item(ScriptItem::End)),
        Err(stop) => return Err(EditStop::Read(stop)),
    };
    match note_line(alloc, at, lines, after) {
        Ok((noting, now)) => {
            *held = now;
            Ok(noting)
        }
        Err(stop) => Err(stop),
    }
}
