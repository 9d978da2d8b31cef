// How an audit ends: its report and its status.
ghost use Rattle.std.specs.Prelude.{◌≡◌, ◌⊎◌, ◌++◌, IfErr, OnOk, IfOk};
ghost use Rattle.epg_report.specs.Ends.{ReportEnds};
ghost use Rattle.epg_report.specs.Texts.{CanBeSaid, fault_lines};
ghost use Rattle.epg_report.specs.Told.{told};
ghost use Rattle.epg_audit.specs.Ends.{air_line, count_text, met_by, nulls_field};

use crate::cycles::AirCount;
use epg_report::{Status, ended, out_of_memory, put_fault_line};
use si_base::put_number;
use si_causes::{Sink, write_all};
use std::alloc::{AllocError, Global};

// Appends how many null packets were passed over, where they may stand.
fn put_nulls(alloc: Global, out: &mut Vec<u8>, nulls: Option<u64>) -> Result<(), AllocError>
    ensures { OnOk result (out.new.items ≡ out.old.items ++ nulls_field nulls) }
{
    if let Some(nulls) = nulls {
        out.extend_from_slice(b"\t")?;
        put_number(alloc, out, nulls)?;
    }
    Ok(())
}

// Appends the line of an air.
fn put_air_line(alloc: Global, out: &mut Vec<u8>, count: AirCount) -> Result<(), AllocError>
    ensures { OnOk result (out.new.items ≡ out.old.items ++ air_line count) }
{
    out.extend_from_slice(b"air\t")?;
    put_number(alloc, out, count.packets)?;
    out.extend_from_slice(b"\t")?;
    put_number(alloc, out, count.swaps)?;
    put_nulls(alloc, out, count.nulls)?;
    out.extend_from_slice(b"\n")
}

fn met_of(audited: Result<AirCount, Status>) -> Status
    ensures { result ≡ met_by audited }
{
    match audited {
        Ok(_) => Status::Done,
        Err(status) => status,
    }
}

// The whole report: the line of the air, or that of the fault.
fn report_of(alloc: Global, audited: Result<AirCount, Status>) -> Result<Vec<u8>, AllocError>
    requires { IfErr audited CanBeSaid }
    ensures { IfOk result (λ text. text.items ≡ count_text audited ++ fault_lines (met_by audited)) }
{
    let mut text = Vec::new(alloc);
    match audited {
        Ok(count) => put_air_line(alloc, &mut text, count)?,
        Err(status) => put_fault_line(alloc, &mut text, status)?,
    }
    Ok(text)
}

/// Reports what was audited, and says how the run ends. A report that fails changes only the status of a run without a fault.
pub(crate) fn finish<R: Sink>(
    alloc: Global,
    audited: Result<AirCount, Status>,
    report: &mut R,
) -> Status
    requires { IfErr audited CanBeSaid }
    ensures { (result ≡ Status.Memory) ⊎ ReportEnds (met_by audited) (count_text audited) (told R.written R.faults report.old report.new) result }
{
    let Ok(text) = report_of(alloc, audited) else {
        return out_of_memory(report);
    };
    let written = write_all(report, &text);
    ended(met_of(audited), written)
}
