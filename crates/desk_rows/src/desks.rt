// What a desk answers to the steps of a script, and what it has after them.
ghost use Rattle.journal_model.specs.Steps.{IsStepWithin};
ghost use Rattle.mux_model.specs.Sound.{IsSound};

use crate::events::{put_guide, put_service};
use crate::words::{put_edit_stop, put_moment, put_outcome};
use desk_core::{Airing, Desk};
use journal_model::Step;
use journal_text::{ScriptItem, next_item};
use mux_config::read_mux;
use mux_model::Mux;
use row_lines::{Buffer, Lines, WHOLE, reader, say};
use std::alloc::{AllocError, Global};
use std::fmt::Write;

// Service 101 of feed 1; the desk starts on 13 October 1993 at 12:45.
const ONE_SERVICE: &str =
    "network,40,Demo/stream,1,1/service,101,1,1,256,257,Acme,One/start,1993-10-13T12:45:00Z/end/";

fn desk_of(alloc: Global, mux: Mux) -> Result<Desk, AllocError>
    requires { IsSound mux }
{
    Desk::open(alloc, mux)
}

// Its description can be read, so it fails for want of memory alone.
fn opened(alloc: Global) -> Result<Desk, AllocError> {
    let mut lines = reader(alloc, ONE_SERVICE, WHOLE)?;
    match read_mux(alloc, &mut lines) {
        Ok(mux) => desk_of(alloc, mux),
        Err(_) => Err(AllocError),
    }
}

// Does a step, and appends its outcome; whether there may be more.
fn answer_to(desk: &mut Desk, who: u32, step: Step, out: &mut Buffer) -> bool
    requires { IsStepWithin step }
{
    let Some(outcome) = out.made(desk.step(who, step)) else {
        return false;
    };
    put_outcome(out, outcome);
    out.say("; ");
    true
}

// Does the next step, and appends its outcome or the stop; whether there may be more.
fn tell_next(alloc: Global, lines: &mut Lines, desk: &mut Desk, out: &mut Buffer) -> bool {
    match next_item(alloc, lines, false) {
        Ok(ScriptItem::Step(who, step)) => answer_to(desk, who, step, out),
        Ok(_) => false,
        Err(stop) => {
            put_edit_stop(out, stop);
            false
        }
    }
}

// Appends the number, the moments and the services of an airing.
fn put_airing(out: &mut Buffer, airing: Result<Airing, AllocError>) {
    let Some(airing) = out.made(airing) else {
        return;
    };
    say!(out; "publication {}", airing.number);
    put_moment(out, " at ", airing.moment);
    put_moment(out, ", made at ", airing.guide.moment());
    for i in 0..airing.guide.len() {
        put_service(out, airing.guide.at(i));
    }
}

fn put_state(desk: &Desk, out: &mut Buffer) {
    out.say("on air ");
    put_airing(out, desk.on_air());
    out.say("; latest ");
    put_airing(out, desk.latest());
    out.say("; draft: ");
    if let Some(guide) = out.made(desk.draft()) {
        put_guide(out, &guide);
    }
    put_moment(out, "; now ", desk.now());
}

fn tell_desk(alloc: Global, lines: &mut Lines, desk: &mut Desk, out: &mut Buffer) {
    for _ in 0..10_000 {
        if !tell_next(alloc, lines, desk, out) {
            break;
        }
    }
    put_state(desk, out);
}

/// Appends the outcomes of the steps of a script, and then what is on air, what is latest and what a publish would freeze.
pub fn tell(alloc: Global, lines: &mut Lines, out: &mut Buffer) {
    if let Some(mut desk) = out.made(opened(alloc)) {
        tell_desk(alloc, lines, &mut desk, out);
    }
}
