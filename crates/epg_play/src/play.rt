// The commands of a script, done one after the other.
ghost use Rattle.std.specs.Prelude.{◌≡◌, [], None, IfErr, Ok, OnOk};
ghost use Rattle.desk_core.specs.Desks.{DeskState};
ghost use Rattle.epg_play.specs.Courses.{CanPlay, PlaysRest};
ghost use Rattle.epg_play.specs.Items.{IsAt, Stays};
ghost use Rattle.epg_play.specs.Played.{HasAirCause, HasRead, IsStopBehind, send_stop};

use crate::item::{ItemDone, do_item};
use crate::played::Course;
use crate::stop::PlayStop;
use journal_air::{SendStop, send_on_air};
use si_causes::{LineReader, Sink, Source};
use std::alloc::Global;

fn stop_of(stop: SendStop) -> PlayStop
    ensures { result ≡ send_stop stop }
{
    match stop {
        SendStop::Air => PlayStop::Air,
        SendStop::Memory => PlayStop::Memory,
    }
}

/// Does the commands that are left, up to the first line that is none, or that keeps another outcome than the desk's; each swap sends its
/// cycle before the next line is read.
pub fn play_rest<S: Source, A: Sink>(
    alloc: Global,
    lines: &mut LineReader<S>,
    course: &mut Course,
    air: &mut A,
) -> Result<(), PlayStop>
    requires going { lines.old.stop ≡ None }
    requires ready { CanPlay course.old }
    ensures plays { (before : DeskState) → IsAt before before course.old.desk
        → PlaysRest S.left lines.old lines.new before course.old.player
        (A.written air.old) (A.written air.new) course.new result }
    ensures stays { Stays course.old.desk course.new.desk }
    ensures ended { OnOk result (course.new.player.left ≡ []) }
    ensures behind { IfErr result IsStopBehind }
    ensures read { HasRead S.left S.faults S.same lines.old.source lines.new.source
        (result ≡ Ok tt) result }
    ensures cause { HasAirCause (A.faults air.old) (A.faults air.new) result }
{
    'items: loop {
        match do_item(alloc, lines, &mut course.desk) {
            Ok(ItemDone::Swap) => {
                if let Err(stop) = send_on_air(alloc, &course.desk.desk, &mut course.player, air) {
                    return Err(stop_of(stop));
                }
            }
            Ok(ItemDone::Other) => {}
            Ok(ItemDone::End) => return Ok(()),
            Err(stop) => return Err(stop),
        }
    }
}
