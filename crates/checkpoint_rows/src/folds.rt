// What the steps of a script leave.
ghost use Rattle.std.specs.Prelude.{◌≡◌, ◌<◌, ◌≤◌, ◌^◌, [], IfOk};

use crate::starts::mux_of;
use cycle_player::CyclePlayer;
use desk_checkpoint::write_checkpoint;
use desk_core::Desk;
use journal_air::open_player;
use row_lines::{Buffer, Lines};
use script_lines::{ScriptItem, next_item};
use std::alloc::{AllocError, Global};

// Does the next step; whether there may be more.
fn step_next(alloc: Global, lines: &mut Lines, desk: &mut Desk) -> Result<bool, AllocError> {
    match next_item(alloc, lines, false) {
        Ok(ScriptItem::Step(who, step)) => desk.step(who, step).map(|_| true),
        _ => Ok(false),
    }
}

// Does the steps of a script.
fn steps(alloc: Global, lines: &mut Lines, desk: &mut Desk) -> Result<(), AllocError> {
    for _ in 0..10_000 {
        if !step_next(alloc, lines, desk)? {
            break;
        }
    }
    Ok(())
}

// Appends the checkpoint of a desk that did the steps of a script, and of a player that sent nothing.
fn tell_desk(
    alloc: Global,
    desk: &mut Desk,
    player: &CyclePlayer,
    shift: u32,
    lines: &mut Lines,
    out: &mut Buffer,
) -> Result<(), AllocError>
    requires { player.now.left ≡ [] }
{
    steps(alloc, lines, desk)?;
    let mut text = Vec::new(alloc);
    write_checkpoint(alloc, desk, u64::from(shift), player, &mut text)?;
    out.put_slashes(&text);
    Ok(())
}

fn tell_player(
    alloc: Global,
    number: u32,
    player: &CyclePlayer,
    shift: u32,
    lines: &mut Lines,
    out: &mut Buffer,
) -> Result<(), AllocError>
    requires { player.now.left ≡ [] }
{
    let mut desk = Desk::open(alloc, mux_of(alloc, number)?)?;
    tell_desk(alloc, &mut desk, player, shift, lines, out)
}

/// Appends the checkpoint of a desk of the multiplex with this number that did the steps of a
/// script, with this shift, and of a player that sent nothing.
pub fn tell(
    alloc: Global,
    number: u32,
    shift: u32,
    lines: &mut Lines,
    out: &mut Buffer,
) -> Result<(), AllocError> {
    let mux = mux_of(alloc, number)?;
    let player = open_player(alloc, &mux)?;
    tell_player(alloc, number, &player, shift, lines, out)
}
