// Two callers that take turns in two threads.
ghost use Rattle.std.specs.Prelude.{◌≡◌};
ghost use Rattle.mux_model.specs.Sound.{IsSound};
ghost use Rattle.desk_hall.specs.Turn.{KeepsNumbers};

use crate::halls::two_services;
use crate::words::{put_entries, put_steps_of};
use desk_core::Desk;
use headend_live::{Hall, HallPass};
use journal_model::{Entry, Step};
use mux_model::Mux;
use row_lines::{Buffer, Holding, WHOLE, World, reader};
use std::alloc::{AllocError, Global};
use std::sync::Wait;
use std::thread::join;

// Does the edits of a feed, and then publishes and swaps. Where memory for its text is wanting, it does nothing.
fn run_caller<W: Wait>(
    rt: &W,
    alloc: Global,
    hall: &Hall,
    mut pass: HallPass,
    feed: u8,
    text: &str,
    gate: &Holding,
) -> HallPass
    requires { pass.turns ≡ hall.now.turns }
    ensures { KeepsNumbers pass result }
{
    let Ok(mut lines) = reader(alloc, text, WHOLE) else {
        return pass;
    };
    let _stop = hall.feed(rt, alloc, &mut pass, feed, &mut lines, gate);
    let _number = hall.publish(rt, &mut pass);
    let _airing = hall.swap(rt, &mut pass);
    pass
}

// The desk that two callers leave of these texts.
fn desk_of<W: World>(
    rt: &W,
    alloc: Global,
    mux: Mux,
    texts: (&str, &str),
    gate: &Holding,
) -> Result<Desk, AllocError>
    requires { IsSound mux }
{
    let (hall, mut first) = Hall::open(alloc, mux, 2)?;
    let second = first.split(hall.turns(), 1);
    let (mut first, second) = join(
        rt,
        || run_caller(rt, alloc, &hall, first, 1, texts.0, gate),
        || run_caller(rt, alloc, &hall, second, 2, texts.1, gate),
    );
    first.join(hall.turns(), second);
    Ok(hall.close(first))
}

/// Appends the steps of each of two callers: of a feed's lines each, and then a publish and a swap.
pub fn tell<W: World>(
    rt: &W,
    alloc: Global,
    texts: (&str, &str),
    out: &mut Buffer,
) -> Result<(), AllocError> {
    let gate = Holding::of(alloc, "")?;
    let desk = desk_of(rt, alloc, two_services(alloc)?, texts, &gate)?;
    put_steps_of(out, 0, desk.entries());
    put_steps_of(out, 1, desk.entries());
    Ok(())
}

/// Appends the journal that they leave under a gate that holds these places, but for the publishes and swaps.
pub fn tell_held<W: World>(
    rt: &W,
    alloc: Global,
    holds: &str,
    texts: (&str, &str),
    out: &mut Buffer,
) -> Result<(), AllocError> {
    let gate = Holding::of(alloc, holds)?;
    let desk = desk_of(rt, alloc, two_services(alloc)?, texts, &gate)?;
    put_entries(out, desk.entries(), |entry: &Entry| {
        matches!(entry.step, Step::Edit(_, _))
    });
    out.say(if gate.gave_up() { "gave up" } else { "end" });
    Ok(())
}
