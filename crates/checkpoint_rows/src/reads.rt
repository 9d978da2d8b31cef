// What is read of the text of a checkpoint.
ghost use Rattle.std.specs.Prelude.{◌≡◌, ◌<◌, ◌^◌, [], None};

use crate::starts::mux_of;
use desk_checkpoint::{CheckStop, Start, read_checkpoint, write_checkpoint};
use row_lines::{Buffer, Lines, say};
use si_causes::ReadStop;
use std::alloc::{AllocError, Global};
use std::fmt::Write;

fn put_stop(out: &mut Buffer, stop: CheckStop) {
    match stop {
        CheckStop::Line(line) => say!(out; "line {line}"),
        CheckStop::Read(ReadStop::Failed) => out.say("not read"),
        CheckStop::Read(ReadStop::TooLong) => out.say("too long"),
        CheckStop::Memory => out.note(Err(AllocError)),
    }
}

// Appends the shift, and the checkpoint that the start leaves at once.
fn put_start(alloc: Global, out: &mut Buffer, start: &Start) -> Result<(), AllocError>
    requires ended { start.now.player.left ≡ [] }
    requires shift { start.now.shift < 10 ^ 18 }
{
    let mut text = Vec::new(alloc);
    write_checkpoint(alloc, &start.desk, start.shift, &start.player, &mut text)?;
    say!(out; "shift {}, ", start.shift);
    out.put_slashes(&text);
    Ok(())
}

/// Appends why a checkpoint of the multiplex with this number is not read, or the shift, and the
/// checkpoint that its start leaves at once.
pub fn tell(
    alloc: Global,
    number: u32,
    lines: &mut Lines,
    out: &mut Buffer,
) -> Result<(), AllocError>
    requires { lines.old.stop ≡ None }
{
    match read_checkpoint(alloc, mux_of(alloc, number)?, lines) {
        Ok(start) => put_start(alloc, out, &start),
        Err(stop) => {
            put_stop(out, stop);
            Ok(())
        }
    }
}
