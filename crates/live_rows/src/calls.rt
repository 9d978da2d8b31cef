// What the single calls of a hall answer.
ghost use Rattle.std.specs.Prelude.{◌≡◌, ◌<◌, ℕ};
ghost use Rattle.script_lines.specs.Script.{IsItemWithin};
ghost use Rattle.journal_model.specs.Steps.{IsStepWithin};
ghost use Rattle.desk_hall.specs.Turn.{KeepsNumbers};

use crate::halls::two_services;
use crate::words::{put_entries, put_outcome, put_reply};
use desk_core::Airing;
use headend_live::{Hall, HallPass};
use journal_model::Step;
use journal_text::{ScriptItem, next_item};
use row_lines::{Buffer, Lines, WHOLE, reader, say};
use std::alloc::{AllocError, Global};
use std::fmt::Write;
use std::sync::Wait;

// Appends the number of what went on air, and the name of its first service.
fn put_airing(out: &mut Buffer, airing: &Airing) {
    say!(out; "airs {}", airing.number);
    if airing.guide.len() > 0 {
        say!(out; " \"{}\"", airing.guide.at(0).name.as_str());
    }
}

// Does a step by the call for it, and appends what that answers; there was one.
fn tell_step<W: Wait>(
    rt: &W,
    hall: &Hall,
    pass: &mut HallPass,
    step: Step,
    out: &mut Buffer,
) -> Result<bool, AllocError>
    requires turns { pass.old.turns ≡ hall.now.turns }
    requires within { IsStepWithin step }
    ensures { KeepsNumbers pass.old pass.new }
{
    match step {
        Step::Edit(feed, edit) => put_reply(out, hall.edit(rt, pass, feed, edit)?),
        Step::Tick(at) => put_outcome(out, hall.tick(rt, pass, at)?),
        Step::Publish => out.say_number("publishes ", hall.publish(rt, pass)?),
        Step::Swap => put_airing(out, &hall.swap(rt, pass)?),
    }
    Ok(true)
}

// Does the next step of a script; whether there was one.
fn tell_next<W: Wait>(
    rt: &W,
    alloc: Global,
    hall: &Hall,
    pass: &mut HallPass,
    lines: &mut Lines,
    out: &mut Buffer,
) -> Result<bool, AllocError>
    requires { pass.old.turns ≡ hall.now.turns }
    ensures { KeepsNumbers pass.old pass.new }
{
    match next_item(alloc, lines, false) {
        Ok(ScriptItem::Step(_, step)) => tell_step(rt, hall, pass, step, out),
        _ => Ok(false),
    }
}

// Does the steps of a script in one pass.
fn tell_steps<W: Wait>(
    rt: &W,
    alloc: Global,
    hall: &Hall,
    pass: &mut HallPass,
    lines: &mut Lines,
    out: &mut Buffer,
) -> Result<(), AllocError>
    requires { pass.old.turns ≡ hall.now.turns }
    ensures { KeepsNumbers pass.old pass.new }
{
    'steps: for _ in 0..1_000 {
        if !tell_next(rt, alloc, hall, pass, lines, out)? {
            return Ok(());
        }
        out.say("; ");
    }
    Ok(())
}

/// Appends what each call for the steps of a script answers, and then the journal.
pub fn tell<W: Wait>(
    rt: &W,
    alloc: Global,
    text: &str,
    out: &mut Buffer,
) -> Result<(), AllocError> {
    let mut lines = reader(alloc, text, WHOLE)?;
    let (hall, mut pass) = Hall::open(alloc, two_services(alloc)?, 1)?;
    tell_steps(rt, alloc, &hall, &mut pass, &mut lines, out)?;
    let desk = hall.close(pass);
    out.say("journal ");
    put_entries(out, desk.entries(), |_| true);
    Ok(())
}
