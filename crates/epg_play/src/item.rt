// The items of a script, done one after the other.
ghost use Rattle.std.specs.Prelude.{◌≡◌, ◌<◌, Some, None, Ok, IfErr, IfSome, OnOk};
ghost use Rattle.si_causes.specs.Reading.{Reading};
ghost use Rattle.desk_core.specs.Desks.{DeskState};
ghost use Rattle.journal_model.specs.Steps.{IsInWindow};
ghost use Rattle.journal_air.specs.OnAir.{is_swap};
ghost use Rattle.epg_play.specs.Items.{Falls, IsAt, IsReady, ItemLeft, Stays, Went};
ghost use Rattle.epg_play.specs.Outcomes.{is_outcome};
ghost use Rattle.epg_play.specs.Played.{HasRead, IsDifference, IsItemStop, late_difference, read_stop};

use crate::desk::ScriptDesk;
use crate::stop::PlayStop;
use journal_model::{Outcome, Step};
use journal_text::{ScriptItem, next_item};
use script_lines::EditStop;
use si_causes::{LineReader, Source};
use std::alloc::Global;

/// What an item of a script did.
#[derive(Clone, Copy, PartialEq, Eq)]
pub enum ItemDone {
    /// The desk did a swap.
    Swap,
    /// The desk did another step, or the outcome that is kept is its.
    Other,
    /// There is no further item.
    End,
}

fn swaps(step: &Step) -> bool
    ensures { result ≡ is_swap step.now }
{
    matches!(step, Step::Swap)
}

/// Whether an outcome that is kept is the desk's.
pub fn agree(kept: Outcome, found: Outcome) -> bool
    ensures { result ≡ is_outcome kept found }
{
    kept == found
}

// The stop at outcome line `number`, where it keeps another outcome than the one that was made just before.
fn disagreement(made: Option<Outcome>, number: u64, kept: Outcome) -> Option<PlayStop>
    requires kept { IsInWindow kept }
    requires made { IfSome made IsInWindow }
    ensures stop { IsDifference (late_difference made (Some (number, kept))) result }
    ensures behind { IfSome result IsItemStop }
{
    let found = made?;
    if agree(kept, found) {
        return None;
    }
    Some(PlayStop::Disagrees(number, kept, found))
}

fn stop_of(stop: EditStop) -> PlayStop
    ensures { result ≡ read_stop stop }
{
    match stop {
        EditStop::NoCommand(number) => PlayStop::NoCommand(number),
        EditStop::Read(stop) => PlayStop::Read(stop),
        EditStop::Memory => PlayStop::Memory,
    }
}

/// Does the next item of a script at its desk: its step, or the comparison of the outcome that is kept with that of the step just before.
/// It gives what the item did. Where memory runs out, the desk stays as it was.
///
/// `NoCommand`, `Disagrees`, `Read` and `Memory` say why the script is not played on, as [`crate::run_play`] does; no other stop comes.
pub fn do_item<S: Source>(
    alloc: Global,
    lines: &mut LineReader<S>,
    desk: &mut ScriptDesk,
) -> Result<ItemDone, PlayStop>
    requires going { lines.old.stop ≡ None }
    requires ready { IsReady desk.old }
    ensures left { (first : Reading S) (before state : DeskState) → IsAt before state desk.old
        → Went desk.old.shift S.left first lines.old before state desk.old.last
        → ItemLeft S.left first lines.new before state desk.new result }
    ensures going { OnOk result (lines.new.stop ≡ None) }
    ensures stays { Stays desk.old desk.new }
    ensures behind { IfErr result IsItemStop }
    ensures falls { Falls lines.old lines.new result }
    ensures read { HasRead S.left S.faults S.same lines.old.source lines.new.source
        (result ≡ Ok ItemDone.End) result }
{
    match next_item(alloc, lines, desk.last.is_some()) {
        Ok(ScriptItem::Step(who, step)) => {
            let is_swap = swaps(&step);
            desk.step(who, step)?;
            if is_swap {
                Ok(ItemDone::Swap)
            } else {
                Ok(ItemDone::Other)
            }
        }
        Ok(ScriptItem::Kept(number, kept)) => {
            if let Some(stop) = disagreement(desk.last, number, kept) {
                return Err(stop);
            }
            desk.last = None;
            Ok(ItemDone::Other)
        }
        Ok(ScriptItem::End) => Ok(ItemDone::End),
        Err(stop) => Err(stop_of(stop)),
    }
}
