// The lines of a script that is followed, done one after the other.
ghost use Rattle.std.specs.Prelude.{◌≡◌, ◌≤◌, ◌<◌, ◌∷◌, ◌++◌, false, [], Bool, List, None, Some, Ok, Err, IfErr, IfOk, OnOk};
ghost use Rattle.journal_model.specs.Steps.{IsEntryInWindow, IsInWindow, IsStepWithin};
ghost use Rattle.journal_model.specs.declared.step.Entry.{Entry as AnEntry};
ghost use Rattle.script_lines.specs.declared.script.ScriptItem.TheVariants.{Step as AStep, Kept};
ghost use Rattle.script_notes.specs.declared.noting.Noting.TheVariants.{Bad, Item};
ghost use Rattle.script_notes.specs.Whys.{CanBeSaid};
ghost use Rattle.journal_air.specs.OnAir.{is_swap};
ghost use Rattle.desk_core.specs.Lean.{StandsFor};
ghost use Rattle.script_notes.specs.Pieces.{Entered, Noted, piece_text};
ghost use Rattle.epg_report.specs.Told.{told};
ghost use Rattle.desk_core.specs.Journal.{entry_after};
ghost use Rattle.epg_report.specs.Told.{ReportTaken};
ghost use Rattle.epg_follow.specs.Course.{entered};
ghost use Rattle.epg_follow.specs.Items.{CanFollow, CanFollowOn, CanRead, Falls, HasEntered, HaveCauses, IsSaid, ItemDid, LineDid, StaysReady, TookNothing, Writes, as_item};
ghost use Rattle.epg_follow.specs.declared.follower.Follower.{Follower as AFollower};
ghost use Rattle.epg_follow.specs.Stops.{read_stop};
ghost use Rattle.std.specs.Io.KnownBytes.{IsAtEnd};

use crate::follower::Follower;
use crate::stop::FollowStop;
use epg_play::agree;
use input_lines::EditStop;
use journal_air::{SendStop, send_on_air};
use journal_model::{Entry, Outcome, Step, raise};
use journal_text::{ScriptItem, write_entry};
use script_notes::{Noting, Why, next_noting, put_comment};
use si_causes::{LineReader, Sink, Source, write_all};
use std::alloc::{AllocError, Global};

fn swaps(step: &Step) -> bool
    ensures { result ≡ is_swap step.now }
{
    matches!(step, Step::Swap)
}

// Writes a text whole, or says that the report failed.
fn write_out<R: Sink>(text: &[u8], report: &mut R) -> Result<(), FollowStop>
    ensures writes { Writes text.now (told R.written R.faults report.old report.new) result }
    ensures later { R.faults report.old ≤ R.faults report.new }
    ensures same { R.same report.old report.new }
{
    match write_all(report, text) {
        Ok(()) => Ok(()),
        Err(_) => Err(FollowStop::Report),
    }
}

// Reports an entry.
fn report_entry<R: Sink>(alloc: Global, entry: &Entry, report: &mut R) -> Result<(), FollowStop>
    requires { IsEntryInWindow entry.now }
    ensures writes { Writes (piece_text (Entered entry.now))
        (told R.written R.faults report.old report.new) result }
    ensures later { R.faults report.old ≤ R.faults report.new }
    ensures same { R.same report.old report.new }
{
    let mut text = Vec::new(alloc);
    write_entry(alloc, entry, &mut text)?;
    write_out(&text, report)
}

// Reports a comment.
fn report_comment<R: Sink>(
    alloc: Global,
    number: u64,
    why: &Why,
    report: &mut R,
) -> Result<(), FollowStop>
    requires { CanBeSaid why.now }
    ensures writes { Writes (piece_text (Noted number why.now))
        (told R.written R.faults report.old report.new) result }
    ensures later { R.faults report.old ≤ R.faults report.new }
    ensures same { R.same report.old report.new }
{
    let mut text = Vec::new(alloc);
    put_comment(alloc, number, why, &mut text)?;
    write_out(&text, report)
}

// Does a command at the desk, and says its entry as it is reported.
fn entry_of(follower: &mut Follower, who: u32, step: Step) -> Result<Entry, AllocError>
    requires ready { CanFollow follower.old }
    requires within { IsStepWithin step }
    ensures entry { (journal : List AnEntry) → StandsFor journal follower.old.desk
        → IfOk result (λ entry. entry
        ≡ entered follower.old.shift follower.old.desk.mux journal (who, step)) }
    ensures stands { (journal : List AnEntry) → StandsFor journal follower.old.desk → OnOk result
        (StandsFor (journal ++ entry_after follower.old.desk.mux journal (who, step)
        ∷ []) follower.new.desk) }
    ensures window { IfOk result IsEntryInWindow }
    ensures mux { follower.new.desk.mux ≡ follower.old.desk.mux }
    ensures others { follower.new ≡ record follower.old { desk = follower.new.desk } }
{
    let outcome = follower.desk.step(&step)?;
    let outcome = raise(outcome, follower.shift);
    Ok(Entry { who, step, outcome })
}

// Reports an entry that the desk has, and sends the cycle of a swap.
fn carry_out<A: Sink, R: Sink>(
    alloc: Global,
    follower: &mut Follower,
    entry: &Entry,
    air: &mut A,
    report: &mut R,
) -> Result<(), FollowStop>
    requires ready { CanFollow follower.old }
    requires window { IsEntryInWindow entry.now }
    ensures did { (keep : Bool) (journal : List AnEntry) (before : AFollower)
        → HasEntered journal before follower.old entry.now
        → LineDid keep journal before follower.new (Item (AStep entry.now.who entry.now.step))
        (told A.written A.faults air.old air.new)
        (told R.written R.faults report.old report.new) result }
    ensures stays { StaysReady follower.old follower.new result }
    ensures held { follower.new.held ≡ follower.old.held }
    ensures said { IfErr result IsSaid }
    ensures air_later { A.faults air.old ≤ A.faults air.new }
    ensures report_later { R.faults report.old ≤ R.faults report.new }
{
    if let Err(stop) = report_entry(alloc, entry, report) {
        return Err(stop);
    }
    follower.made = Some(entry.outcome);
    if !swaps(&entry.step) {
        return Ok(());
    }
    match send_on_air(alloc, &follower.desk, &mut follower.player, air) {
        Ok(()) => Ok(()),
        Err(SendStop::Air) => Err(FollowStop::Air),
        Err(SendStop::Memory) => Err(FollowStop::Memory),
    }
}

// Does a command: the desk does it, its entry is reported, and a swap sends its cycle.
fn enter<A: Sink, R: Sink>(
    alloc: Global,
    follower: &mut Follower,
    who: u32,
    step: Step,
    air: &mut A,
    report: &mut R,
) -> Result<(), FollowStop>
    requires ready { CanFollow follower.old }
    requires within { IsStepWithin step }
    ensures did { (keep : Bool) (journal : List AnEntry) → StandsFor journal follower.old.desk
        → LineDid keep journal follower.old follower.new (Item (AStep who step))
        (told A.written A.faults air.old air.new)
        (told R.written R.faults report.old report.new) result }
    ensures stays { StaysReady follower.old follower.new result }
    ensures held { follower.new.held ≡ follower.old.held }
    ensures said { IfErr result IsSaid }
    ensures air_later { A.faults air.old ≤ A.faults air.new }
    ensures report_later { R.faults report.old ≤ R.faults report.new }
{
    let entry = entry_of(follower, who, step)?;
    carry_out(alloc, follower, &entry, air, report)
}

// Compares the outcome that a line keeps with the one that was reported last.
fn compare<R: Sink>(
    alloc: Global,
    follower: &mut Follower,
    number: u64,
    kept: Outcome,
    keep: bool,
    report: &mut R,
) -> Result<(), FollowStop>
    requires ready { CanFollow follower.old }
    requires window { IsInWindow kept }
    ensures did { (journal : List AnEntry) → StandsFor journal follower.old.desk
        → (air : ReportTaken) → TookNothing air
        → LineDid keep journal follower.old follower.new (Item (Kept number kept))
        air (told R.written R.faults report.old report.new) result }
    ensures others { follower.new ≡ record follower.old { made = None } }
    ensures later { R.faults report.old ≤ R.faults report.new }
    ensures said { IfErr result IsSaid }
{
    let Some(found) = follower.made else {
        return Ok(());
    };
    follower.made = None;
    if agree(kept, found) {
        return Ok(());
    }
    if !keep {
        return Err(FollowStop::Disagrees(number, kept, found));
    }
    report_comment(alloc, number, &Why::Disagrees(kept, found), report)
}

// Passes over a line at fault with a comment, or stops there.
fn pass_over<R: Sink>(
    alloc: Global,
    follower: &mut Follower,
    number: u64,
    why: Why,
    keep: bool,
    report: &mut R,
) -> Result<(), FollowStop>
    requires ready { CanFollow follower.old }
    requires said { CanBeSaid why }
    ensures did { (journal : List AnEntry) → StandsFor journal follower.old.desk
        → (air : ReportTaken) → TookNothing air
        → LineDid keep journal follower.old follower.new (Bad number why)
        air (told R.written R.faults report.old report.new) result }
    ensures others { follower.new ≡ record follower.old { made = None } }
    ensures later { R.faults report.old ≤ R.faults report.new }
    ensures said { IfErr result IsSaid }
{
    follower.made = None;
    if !keep {
        return Err(FollowStop::NoCommand(number, why));
    }
    report_comment(alloc, number, &why, report)
}

fn item_of(done: Result<(), FollowStop>) -> Result<bool, FollowStop>
    ensures { result ≡ as_item done }
{
    match done {
        Ok(()) => Ok(true),
        Err(stop) => Err(stop),
    }
}

fn stop_of(stop: EditStop) -> FollowStop
    ensures { result ≡ read_stop stop }
{
    match stop {
        EditStop::Read(stop) => FollowStop::Read(stop),
        _ => FollowStop::Memory,
    }
}

/// Follows the next line of a script: a command is done at the desk, its entry is reported, and then a swap sends its cycle; an outcome is
/// compared with the one that was reported last; a line at fault is passed over with a comment if `keep` says so. It gives `false` at the
/// end of the script.
///
/// `NoCommand` and `Disagrees` come only where `keep` is false, and have done nothing. After `Report` a proper front of the text was taken
/// and no packet sent; after `Air` a proper front of the cycle. `Memory` sends nothing; perhaps a swap was reported.
pub fn follow_item<S: Source, A: Sink, R: Sink>(
    alloc: Global,
    lines: &mut LineReader<S>,
    follower: &mut Follower,
    keep: bool,
    air: &mut A,
    report: &mut R,
) -> Result<bool, FollowStop>
    requires { CanFollowOn S.left lines.old follower.old }
    ensures did { (journal : List AnEntry) → StandsFor journal follower.old.desk
        → ItemDid keep S.left S.faults lines.old lines.new journal follower.old follower.new
        (told A.written A.faults air.old air.new)
        (told R.written R.faults report.old report.new) result }
    ensures stays { StaysReady follower.old follower.new result }
    ensures reader { OnOk result (CanRead S.left lines.new follower.new) }
    ensures falls { Falls follower.old.held follower.new.held lines.old lines.new result }
    ensures said { IfErr result IsSaid }
    ensures end { result ≡ Ok false → IsAtEnd (S.left lines.new.source) }
    ensures causes { HaveCauses (S.faults lines.old.source) (S.faults lines.new.source)
        (told A.written A.faults air.old air.new)
        (told R.written R.faults report.old report.new) result }
    ensures same { S.same lines.old.source lines.new.source }
{
    let after = follower.made.is_some();
    match next_noting(alloc, lines, &mut follower.held, after) {
        Ok(Noting::Item(ScriptItem::Step(who, step))) => {
            item_of(enter(alloc, follower, who, step, air, report))
        }
        Ok(Noting::Item(ScriptItem::Kept(number, kept))) => {
            item_of(compare(alloc, follower, number, kept, keep, report))
        }
        Ok(Noting::Item(ScriptItem::End)) => Ok(false),
        Ok(Noting::Bad(number, why)) => {
            item_of(pass_over(alloc, follower, number, why, keep, report))
        }
        Err(stop) => Err(stop_of(stop)),
    }
}
