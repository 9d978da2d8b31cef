// How a run ends: its report and its status.
ghost use Rattle.std.specs.Prelude.{◌≡◌, ◌++◌, true, Some, IfOk, IfSome, OnOk};
ghost use Rattle.journal_text.specs.Entries.{journal_text};
ghost use Rattle.journal_model.specs.Steps.{AreInWindow};
ghost use Rattle.desk_checkpoint.specs.HandedOver.{HandsOver};
ghost use Rattle.epg_report.specs.Texts.{CanBeSaid};
ghost use Rattle.epg_report.specs.Told.{told};
ghost use Rattle.epg_play.specs.Courses.{Appended, Finished, HandedBy, IsCourse, IsCourseText, IsReportText, is_done, made_text};

use crate::played::{Course, Played};
use desk_checkpoint::write_lean_checkpoint;
use epg_report::{Status, ended, out_of_memory, put_fault_line, put_rate_line};
use journal_model::Entry;
use journal_text::write_entry;
use si_causes::{Sink, write_all};
use std::alloc::{AllocError, Global};

// Appends the text of entries.
fn put_entries(alloc: Global, out: &mut Vec<u8>, entries: &[Entry]) -> Result<(), AllocError>
    requires { AreInWindow entries.now }
    ensures { OnOk result (out.new.items ≡ out.old.items ++ journal_text entries.now) }
{
    for entry in entries {
        write_entry(alloc, entry, out)?;
    }
    Ok(())
}

// Appends what is said of what was made: the text of the entries, and the line on the bit rate,
// where the multiplex has one.
fn put_made(alloc: Global, out: &mut Vec<u8>, course: &Course) -> Result<(), AllocError>
    requires { AreInWindow course.now.desk.made.items }
    ensures { OnOk result (out.new.items ≡ out.old.items ++ made_text course.now) }
{
    put_entries(alloc, out, &course.desk.made)?;
    let rate = course.desk.desk.mux().rate;
    put_rate_line(alloc, out, rate, course.player.tally())
}

// Appends the checkpoint.
fn put_checkpoint(alloc: Global, out: &mut Vec<u8>, course: &Course) -> Result<(), AllocError>
    requires { IsCourse Status.Done course.now }
    ensures text { OnOk result
        (Appended (IsCourseText true course.now Status.Done) out.old.items out.new.items) }
    ensures handed { OnOk result (HandsOver course.now.player) }
{
    let desk = &course.desk;
    write_lean_checkpoint(alloc, &desk.desk, desk.shift, &course.player, out)
}

fn is_done(met: Status) -> bool
    ensures { result ≡ is_done met }
{
    matches!(met, Status::Done)
}

// Appends what the report has before the line of a fault.
fn put_course(
    alloc: Global,
    out: &mut Vec<u8>,
    course: &Course,
    met: Status,
    fold: bool,
) -> Result<(), AllocError>
    requires { IsCourse met course.now }
    ensures text { OnOk result
        (Appended (IsCourseText fold course.now met) out.old.items out.new.items) }
    ensures handed { OnOk result (HandedBy fold met (Some course.now)) }
{
    if !fold {
        put_made(alloc, out, course)
    } else if is_done(met) {
        put_checkpoint(alloc, out, course)
    } else {
        Ok(())
    }
}

// The whole report: what was played, and the line of the fault where there is one.
fn report_of(alloc: Global, played: &Played, fold: bool) -> Result<Vec<u8>, AllocError>
    requires course { IfSome played.now.course (IsCourse played.now.met) }
    requires said { CanBeSaid played.now.met }
    ensures text { IfOk result (λ text. IsReportText fold played.now text.items) }
    ensures handed { OnOk result (HandedBy fold played.now.met played.now.course) }
{
    let mut text = Vec::new(alloc);
    if let Some(course) = &played.course {
        put_course(alloc, &mut text, course, played.met, fold)?;
    }
    put_fault_line(alloc, &mut text, played.met)?;
    Ok(text)
}

/// Reports what was played, and says how the run ends. A report that fails changes only the status of a whole script.
pub(crate) fn finish<R: Sink>(alloc: Global, played: &Played, fold: bool, report: &mut R) -> Status
    requires course { IfSome played.now.course (IsCourse played.now.met) }
    requires said { CanBeSaid played.now.met }
    ensures { Finished fold played.now (told R.written R.faults report.old report.new) result }
{
    let Ok(text) = report_of(alloc, played, fold) else {
        return out_of_memory(report);
    };
    let written = write_all(report, &text);
    ended(played.met, written)
}
