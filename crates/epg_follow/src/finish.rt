// How a run ends that followed a script.
ghost use Rattle.std.specs.Prelude.{◌≡◌, ◌≤◌, ◌++◌, [], IfErr, IfOk, OnOk};
ghost use Rattle.epg_report.specs.Texts.{CanBeSaid, fault_lines};
ghost use Rattle.epg_report.specs.Told.{told};
ghost use Rattle.script_notes.specs.Pieces.{pieces_text};
ghost use Rattle.epg_follow.specs.Finish.{Closes, EndsIdle, FinishedBy, closing_text, comment_of, is_given_up, is_unreported};
ghost use Rattle.epg_follow.specs.Items.{IsSaid};
ghost use Rattle.epg_follow.specs.Stops.{met_by};

use crate::follower::Follower;
use crate::stop::{FollowStop, met_of};
use epg_report::{Outlet, Status, ended, out_of_memory, put_fault_line, put_rate_line};
use script_notes::put_comment;
use si_causes::{Sink, write_all};
use std::alloc::{AllocError, Global};

// Appends the comment on the line that ended the script.
fn put_last_comment(
    alloc: Global,
    followed: Result<(), FollowStop>,
    out: &mut Vec<u8>,
) -> Result<(), AllocError>
    requires { IfErr followed IsSaid }
    ensures { OnOk result (out.new.items ≡ out.old.items ++ pieces_text (comment_of followed)) }
{
    match followed {
        Err(FollowStop::NoCommand(line, why)) => put_comment(alloc, line, &why, out),
        _ => Ok(()),
    }
}

// The text with which the report ends.
fn ending_of(
    alloc: Global,
    follower: &Follower,
    followed: Result<(), FollowStop>,
) -> Result<Vec<u8>, AllocError>
    requires { IfErr followed IsSaid }
    ensures { IfOk result (λ text. text.items
        ≡ closing_text follower.now followed ++ fault_lines (met_by followed)) }
{
    let mut text = Vec::new(alloc);
    put_last_comment(alloc, followed, &mut text)?;
    put_rate_line(
        alloc,
        &mut text,
        follower.desk.mux().rate,
        follower.player.tally(),
    )?;
    put_fault_line(alloc, &mut text, met_of(followed))?;
    Ok(text)
}

// Writes the text with which the report ends.
fn close<R: Sink>(
    alloc: Global,
    follower: &Follower,
    followed: Result<(), FollowStop>,
    report: &mut R,
) -> Status
    requires { IfErr followed IsSaid }
    ensures closed { Closes follower.now followed
        (told R.written R.faults report.old report.new) result }
    ensures later { R.faults report.old ≤ R.faults report.new }
{
    let Ok(text) = ending_of(alloc, follower, followed) else {
        return out_of_memory(report);
    };
    let written = write_all(report, &text);
    ended(met_of(followed), written)
}

fn is_unreported(followed: Result<(), FollowStop>) -> bool
    ensures { result ≡ is_unreported followed }
{
    matches!(followed, Err(FollowStop::Report))
}

fn is_given_up(followed: Result<(), FollowStop>) -> bool
    ensures { result ≡ is_given_up followed }
{
    matches!(followed, Err(FollowStop::Memory))
}

/// Ends the report of a run that followed a script so, and says its status. A report that failed is not written to.
pub(crate) fn finish<R: Sink>(
    alloc: Global,
    follower: &Follower,
    followed: Result<(), FollowStop>,
    report: &mut R,
) -> Status
    requires { IfErr followed IsSaid }
    ensures finished { FinishedBy follower.now followed
        (told R.written R.faults report.old report.new) result }
    ensures later { R.faults report.old ≤ R.faults report.new }
{
    if is_unreported(followed) {
        return Status::WriteFault(Outlet::Report);
    }
    if is_given_up(followed) {
        return out_of_memory(report);
    }
    close(alloc, follower, followed, report)
}

/// Ends a run for which no step was done: the report is the line of the fault.
pub(crate) fn end_idle<R: Sink>(alloc: Global, met: Status, report: &mut R) -> Status
    requires { CanBeSaid met }
    ensures ended { EndsIdle met (told R.written R.faults report.old report.new) result }
    ensures later { R.faults report.old ≤ R.faults report.new }
{
    let mut text = Vec::new(alloc);
    let Ok(()) = put_fault_line(alloc, &mut text, met) else {
        return out_of_memory(report);
    };
    let written = write_all(report, &text);
    ended(met, written)
}
