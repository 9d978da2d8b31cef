// The notings of a text.
ghost use Rattle.std.specs.Prelude.{◌≡◌, None};
ghost use Rattle.journal_model.specs.Steps.{IsInWindow};
ghost use Rattle.script_lines.specs.Script.{IsItemWithin};
ghost use Rattle.script_notes.specs.Held.{IsSoundNoting};
ghost use Rattle.script_notes.specs.Whys.{CanBeSaid};

use input_lines::EditStop;
use journal_model::{Outcome, Step};
use row_lines::{Buffer, Cut, reader, say};
use script_lines::ScriptItem;
use script_notes::{Held, Noting, Why, next_noting, put_why};
use si_causes::{LineReader, ReadStop, Source};
use std::alloc::{AllocError, Global};
use std::fmt::Write;

fn put_step(out: &mut Buffer, step: &Step) {
    out.say(match step {
        Step::Edit(_, _) => "edit",
        Step::Tick(_) => "tick",
        Step::Publish => "publish",
        Step::Swap => "swap",
    });
}

// Appends the words of a comment.
fn put_words(alloc: Global, out: &mut Buffer, why: &Why)
    requires { CanBeSaid why.now }
{
    let mut words = Vec::new(alloc);
    out.note(put_why(alloc, why, &mut words));
    out.put(&words);
}

// Appends a kept outcome, and the comment on it where the desk's is `ticked`.
fn put_kept(alloc: Global, out: &mut Buffer, line: u64, kept: Outcome)
    requires { IsInWindow kept }
{
    say!(out; "line {line} ");
    put_words(alloc, out, &Why::Disagrees(kept, Outcome::Ticked));
}

// Appends an item. Whether it is a command; none at the end.
fn put_item(alloc: Global, out: &mut Buffer, item: &ScriptItem) -> Option<bool>
    requires { IsItemWithin item.now }
{
    match item {
        ScriptItem::Step(who, step) => {
            say!(out; "caller {who}: ");
            put_step(out, step);
            Some(true)
        }
        ScriptItem::Kept(line, kept) => {
            put_kept(alloc, out, *line, *kept);
            Some(false)
        }
        ScriptItem::End => {
            out.say("end");
            None
        }
    }
}

// Appends a noting. Whether it is a command; none at the end.
fn put_noting(alloc: Global, out: &mut Buffer, noting: &Noting) -> Option<bool>
    requires { IsSoundNoting noting.now }
{
    let is_command = match noting {
        Noting::Item(item) => put_item(alloc, out, item)?,
        Noting::Bad(line, why) => {
            say!(out; "# line {line}: ");
            put_words(alloc, out, why);
            false
        }
    };
    out.say("; ");
    Some(is_command)
}

fn put_stop(out: &mut Buffer, stop: EditStop) {
    out.say(match stop {
        EditStop::NoCommand(_) => "refused",
        EditStop::Read(ReadStop::TooLong) => "too long",
        EditStop::Read(ReadStop::Failed) => "not read",
        EditStop::Memory => "memory",
    });
}

// Appends the notings of a reader, and then why there is no more.
fn tell<S: Source>(alloc: Global, lines: &mut LineReader<S>, out: &mut Buffer)
    requires going { lines.old.stop ≡ None }
{
    let mut after = false;
    let mut held = Held::Nothing;
    'notings: for _ in 0..10_000 {
        match next_noting(alloc, lines, &mut held, after) {
            Ok(noting) => match put_noting(alloc, out, &noting) {
                Some(is_command) => after = is_command,
                None => return,
            },
            Err(stop) => return put_stop(out, stop),
        }
    }
}

/// Appends the notings of a text, which comes so.
pub fn put_notes(alloc: Global, text: &str, cut: Cut, out: &mut Buffer) -> Result<(), AllocError> {
    let source = reader(alloc, text, cut)?.close();
    let mut lines = LineReader::open(alloc, source)?;
    tell(alloc, &mut lines, out);
    Ok(())
}
