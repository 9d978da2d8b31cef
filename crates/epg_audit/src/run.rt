// An audit of a recording by the script of the input.
ghost use Rattle.std.specs.Prelude.{◌≡◌, [], None, IfErr, IfOk, OnOk};
ghost use Rattle.std.specs.Io.KnownBytes.{IsAtEnd};
ghost use Rattle.si_causes.specs.Reading.{fresh};
ghost use Rattle.packet_reader.specs.Reading.{fresh as unread};
ghost use Rattle.mux_model.specs.Sound.{IsSound};
ghost use Rattle.air_audit.specs.CycleChecking.{IsAtEnd as IsAtCycleEnd, IsOf, StandsAt, form_of};
ghost use Rattle.journal_air.specs.Air.{mux_form};
ghost use Rattle.epg_report.specs.Texts.{CanBeSaid};
ghost use Rattle.epg_report.specs.Told.{asked};
ghost use Rattle.epg_audit.specs.Audits.{HasAuditCause, RecordingAudited};
ghost use Rattle.epg_audit.specs.Ends.{met_by};
ghost use Rattle.epg_report.specs.Asked.{HasAskedFor};
ghost use Rattle.epg_audit.specs.Finds.{Finds, HasMetCause, IsMetBehind, IsMetByAudit};
ghost use Rattle.epg_audit.specs.Leaves.{AuditRan};

use crate::cycles::{AirCount, audit_rest, swap_count};
use crate::ending::finish;
use air_audit::CycleChecker;
use desk_core::LeanDesk;
use epg_play::{ScriptDesk, mux_stop_of, status_of};
use epg_report::{Status, out_of_memory};
use mux_config::read_mux;
use mux_model::Mux;
use packet_reader::PacketReader;
use si_causes::{LineReader, Opener, Sink, Source};
use std::alloc::{AllocError, Global};

// An auditor of the cycles of a multiplex, at its bit rate where it has one, of its quota and with
// its offsets of local time.
fn open_checker(alloc: Global, mux: &Mux, nulls: bool) -> Result<CycleChecker, AllocError>
    requires { IsSound mux.now }
    ensures stands { IfOk result (StandsAt [] []) }
    ensures at_end { IfOk result IsAtCycleEnd }
    ensures form { IfOk result (λ checker. form_of checker ≡ mux_form mux.now) }
    ensures kind { IfOk result (IsOf mux.now.rate nulls) }
{
    let offsets = mux.offsets.copy()?;
    Ok(CycleChecker::open(alloc, mux.rate, mux.quota, offsets, nulls))
}

// Audits the recording by the script after the description of this multiplex.
fn audit_recording<S: Source, F: Source>(
    alloc: Global,
    lines: &mut LineReader<S>,
    mux: Mux,
    packets: &mut PacketReader<F>,
    nulls: bool,
) -> Result<AirCount, Status>
    requires sound { IsSound mux }
    requires going { lines.old.stop ≡ None }
    requires unread { packets.old ≡ unread packets.old.source }
    ensures audited { RecordingAudited nulls S.left F.left lines.old lines.new packets.old mux
        result }
    ensures said { IfErr result CanBeSaid }
    ensures known { IfErr result IsMetBehind }
    ensures end { OnOk result (IsAtEnd (S.left lines.new.source)) }
    ensures cause { HasAuditCause (S.faults lines.old.source) (S.faults lines.new.source)
        (F.faults packets.old.source) (F.faults packets.new.source) result }
    ensures same { S.same lines.old.source lines.new.source }
{
    let Ok(mut checker) = open_checker(alloc, &mux, nulls) else {
        return Err(Status::Memory);
    };
    let Ok(desk) = LeanDesk::open(alloc, mux) else {
        return Err(Status::Memory);
    };
    let mut desk = ScriptDesk::open(alloc, desk, 0, true);
    let mut passed = nulls.then_some(0);
    audit_rest(alloc, lines, &mut desk, packets, &mut checker, &mut passed)?;
    Ok(AirCount {
        packets: packets.number(),
        swaps: swap_count(&desk.made),
        nulls: passed,
    })
}

// Reads the description of the multiplex, opens the recording, and audits it.
fn audit<O: Opener, S: Source>(
    alloc: Global,
    lines: &mut LineReader<S>,
    path: &str,
    nulls: bool,
    opener: &mut O,
) -> Result<AirCount, Status>
    requires unread { lines.old ≡ fresh lines.old.source }
    ensures finds { Finds path.now nulls
        (asked O.files O.tried O.faults O.read_faults opener.old opener.new)
        S.left lines.old.source lines.new.source result }
    ensures said { IfErr result CanBeSaid }
    ensures end { OnOk result (IsAtEnd (S.left lines.new.source)) }
    ensures cause { IfErr result (HasMetCause (S.faults lines.old.source) (S.faults lines.new.source)
        (asked O.files O.tried O.faults O.read_faults opener.old opener.new)) }
    ensures asked { HasAskedFor path.now (O.tried opener.old) (O.tried opener.new) (met_by result) }
    ensures known { IfErr result IsMetByAudit }
    ensures same { S.same lines.old.source lines.new.source }
{
    let mux = match read_mux(alloc, lines) {
        Ok(mux) => mux,
        Err(stop) => return Err(status_of(mux_stop_of(stop))),
    };
    let Ok(source) = opener.open(path) else {
        return Err(Status::OpenFault(0));
    };
    let Ok(mut packets) = PacketReader::open(alloc, source) else {
        return Err(Status::Memory);
    };
    let audited = audit_recording(alloc, lines, mux, &mut packets, nulls);
    opener.close(packets.close());
    audited
}

/// Holds a recording against the air of a journal: reads the script of the input as [`epg_play::run_play`] does, and after each swap
/// the packets of its cycle from the file of this path, which is opened after the description of the multiplex. Whoever made the
/// recording, it is an air of the journal exactly where the run ends with Done, faults of the outside and want of memory aside. The
/// report is one line: `air`, how many packets it has and how many swaps, or what is at fault (ISO/IEC 13818-1, 2.4.3 and 2.4.4;
/// EN 300 468, 5.1). With `nulls` null packets may stand anywhere in the recording (ISO/IEC 13818-1, 2.4.3.3): they are passed over, and
/// the line says last how many there were. At a bit rate the recording is the air of the player, and
/// with `nulls` the null packets of that air are not asked for.
pub fn run_audit<O: Opener, S: Source, R: Sink>(
    alloc: Global,
    path: &str,
    nulls: bool,
    opener: &mut O,
    input: &mut S,
    report: &mut R,
) -> Status
    ensures run { AuditRan path.now nulls
        O.files O.tried O.faults O.read_faults opener.old opener.new
        S.left S.faults input.old input.new R.written R.faults report.old report.new result }
{
    let Ok(mut lines) = LineReader::open(alloc, &mut *input) else {
        return out_of_memory(report);
    };
    let audited = audit(alloc, &mut lines, path, nulls, opener);
    let _source = lines.close();
    finish(alloc, audited, report)
}
