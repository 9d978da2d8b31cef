// The report of a run.
ghost use Rattle.std.specs.Prelude.{◌≡◌, ◌⊎◌, ◌++◌, IfOk, OnOk};
ghost use Rattle.std.specs.List.{AllByRecursion};
ghost use Rattle.journal_text.specs.Back.{IsWritten};
ghost use Rattle.guide_text.specs.Fields.{optional};
ghost use Rattle.guide_text.specs.Guides.{guide_text};
ghost use Rattle.epg_report.specs.Texts.{CanBeSaid, fault_lines};
ghost use Rattle.epg_report.specs.Told.{told};
ghost use Rattle.epg_report.specs.Ends.{ReportEnds};
ghost use Rattle.epg_live.specs.Ends.{done_text, entries_of, observed_text, line_done, run_text};
ghost use Rattle.epg_live.specs.Met.{none_ran};
ghost use Rattle.epg_live.specs.Runs.{nothing_observed};
ghost use Rattle.epg_live.specs.Views.{id_text, view_head, view_text, views_text};

use cycle_player::Tally;
use desk_core::Desk;
use epg_report::{Status, ended, journal_of, out_of_memory, put_fault_line, put_rate_line};
use guide_receiver::{DoneKey, write_done};
use guide_text::print_heard;
use headend_live::{DoneLine, DoneLines, Heard, Slot, ViewLine, ViewLines};
use si_base::put_number;
use si_causes::{Sink, write_all};
use std::alloc::{AllocError, Global};

/// What was observed of a run: the completions that were heard of its air, and where no fault was
/// met the lines of its views, and the guide that was heard. At a bit rate also that rate, and
/// the tally of the cycles.
#[derive(Drop)]
pub struct Observed {
    pub dones: DoneLines,
    pub views: ViewLines,
    pub guide: Option<Heard>,
    pub rate: Option<u32>,
    pub tally: Tally,
}

impl Observed {
    /// Nothing. It takes no memory.
    pub(crate) fn nothing(alloc: Global) -> Observed
        ensures { result ≡ nothing_observed }
    {
        Observed {
            dones: DoneLines::new(alloc),
            views: ViewLines::new(alloc),
            guide: None,
            rate: None,
            tally: Tally::none(),
        }
    }
}

/// What ran: the desk, where jobs started, what was observed, and the status that was met; Done where no fault was.
#[derive(Drop)]
pub struct LiveResult {
    pub desk: Option<Desk>,
    pub observed: Observed,
    pub met: Status,
}

impl LiveResult {
    /// No job started, for this reason. It takes no memory.
    pub(crate) fn none(alloc: Global, met: Status) -> LiveResult
        ensures { result ≡ none_ran met }
    {
        LiveResult {
            desk: None,
            observed: Observed::nothing(alloc),
            met,
        }
    }
}

fn done_of(line: &DoneLine) -> DoneKey
    ensures { result ≡ line_done line.now }
{
    DoneKey {
        key: line.key,
        version: line.version,
    }
}

// Appends the lines of completions.
fn put_dones(alloc: Global, out: &mut Vec<u8>, dones: &[DoneLine]) -> Result<(), AllocError>
    ensures { OnOk result (out.new.items ≡ out.old.items ++ done_text dones.now) }
{
    for line in dones {
        write_done(alloc, line.packet, done_of(line), out)?;
    }
    Ok(())
}

// Appends the text of the guide, where there is one.
fn put_guide(alloc: Global, out: &mut Vec<u8>, guide: &Option<Heard>) -> Result<(), AllocError>
    ensures { OnOk result (out.new.items ≡ out.old.items ++ optional guide_text guide.now) }
{
    match guide {
        Some(guide) => print_heard(alloc, guide, out),
        None => Ok(()),
    }
}

// Appends the id of an event, or nothing.
fn put_id(alloc: Global, out: &mut Vec<u8>, slot: Option<Slot>) -> Result<(), AllocError>
    ensures { OnOk result (out.new.items ≡ out.old.items ++ id_text slot) }
{
    match slot {
        Some(slot) => put_number(alloc, out, u64::from(slot.event)),
        None => Ok(()),
    }
}

// Appends what the line of a view begins with.
fn put_view_head(alloc: Global, out: &mut Vec<u8>, line: ViewLine) -> Result<(), AllocError>
    ensures { OnOk result (out.new.items ≡ out.old.items ++ view_head line) }
{
    out.extend_from_slice(b"view\t")?;
    put_number(alloc, out, u64::from(line.service))?;
    out.extend_from_slice(b"\t")?;
    put_number(alloc, out, line.read.number)
}

// Appends the line of a view.
fn put_view(alloc: Global, out: &mut Vec<u8>, line: ViewLine) -> Result<(), AllocError>
    ensures { OnOk result (out.new.items ≡ out.old.items ++ view_text line) }
{
    put_view_head(alloc, out, line)?;
    out.extend_from_slice(b"\t")?;
    put_id(alloc, out, line.read.now)?;
    out.extend_from_slice(b"\t")?;
    put_id(alloc, out, line.read.next)?;
    out.extend_from_slice(b"\n")
}

// Appends the lines of views.
fn put_views(alloc: Global, out: &mut Vec<u8>, lines: &[ViewLine]) -> Result<(), AllocError>
    ensures { OnOk result (out.new.items ≡ out.old.items ++ views_text lines.now) }
{
    for line in lines {
        put_view(alloc, out, *line)?;
    }
    Ok(())
}

// Appends the lines of what was observed: the completions, the views, the guide, and then the bit
// rate.
fn put_observed(alloc: Global, out: &mut Vec<u8>, observed: &Observed) -> Result<(), AllocError>
    ensures { OnOk result (out.new.items ≡ out.old.items ++ observed_text observed.now) }
{
    put_dones(alloc, out, observed.dones.as_slice())?;
    put_views(alloc, out, observed.views.as_slice())?;
    put_guide(alloc, out, &observed.guide)?;
    put_rate_line(alloc, out, observed.rate, observed.tally)
}

// The whole report.
fn report_of(alloc: Global, run: &LiveResult) -> Result<Vec<u8>, AllocError>
    requires { CanBeSaid run.now.met }
    ensures text { IfOk result (λ text. text.items ≡ run_text (entries_of run.now.desk) run.now.observed ++ fault_lines run.now.met) }
    ensures written { OnOk result (AllByRecursion IsWritten (entries_of run.now.desk)) }
{
    let mut text = match &run.desk {
        Some(desk) => journal_of(alloc, desk)?,
        None => Vec::new(alloc),
    };
    put_observed(alloc, &mut text, &run.observed)?;
    put_fault_line(alloc, &mut text, run.met)?;
    Ok(text)
}

/// Reports what ran, and says how the run ends. A report that fails changes the status of a run without a fault alone.
pub(crate) fn finish<R: Sink>(alloc: Global, run: &LiveResult, report: &mut R) -> Status
    requires { CanBeSaid run.now.met }
    ensures ends { (result ≡ Status.Memory)
        ⊎ ReportEnds run.now.met (run_text (entries_of run.now.desk) run.now.observed)
        (told R.written R.faults report.old report.new) result }
    ensures written { (result ≡ Status.Memory) ⊎ AllByRecursion IsWritten (entries_of run.now.desk) }
{
    let Ok(text) = report_of(alloc, run) else {
        return out_of_memory(report);
    };
    let written = write_all(report, &text);
    ended(run.met, written)
}
