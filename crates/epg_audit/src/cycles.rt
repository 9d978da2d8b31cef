// The commands of a script, done one after the other, and the cycles that they put on air, held against a recording.
ghost use Rattle.std.specs.Prelude.{◌≡◌, ◌≤◌, ◌++◌, ◌∷◌, [], Bool, List, ℕ, Option, None, Some, IfErr, OnOk, is_some, length};
ghost use Rattle.std.specs.Io.KnownBytes.{IsAtEnd as IsReadToEnd};
ghost use Rattle.desk_core.specs.Desks.{DeskState};
ghost use Rattle.desk_core.specs.Lean.{IsLean};
ghost use Rattle.desk_core.specs.Publications.{aired_by, swaps};
ghost use Rattle.packet_reader.specs.Reading.{PacketReading, bytes_left};
ghost use Rattle.ts_packets.specs.WholePackets.{whole_packets};
ghost use Rattle.version_book.specs.Airings.{AiredTables};
ghost use Rattle.air_audit.specs.CycleChecking.{IsAtEnd, IsOf, StandsAt, form_of};
ghost use Rattle.journal_air.specs.OnAir.{airing_on};
ghost use Rattle.epg_report.specs.Texts.{CanBeSaid};
ghost use Rattle.epg_play.specs.Items.{Stands};
ghost use Rattle.epg_audit.specs.Audits.{CanAudit, DeskAudited, HasAuditCause};
ghost use Rattle.epg_audit.specs.Finds.{IsMetBehind};
ghost use Rattle.epg_audit.specs.Checks.{Checks, Follows, HasReadCause, IsBetweenCycles, IsOfCheck};
ghost use Rattle.epg_audit.specs.Recorded.{passed_over};

use crate::recording::{check_cycle, check_end};
use air_audit::CycleChecker;
use desk_core::LeanDesk;
use epg_play::{ItemDone, ScriptDesk, do_item, status_of};
use epg_report::Status;
use journal_model::{Entry, Outcome};
use packet_reader::PacketReader;
use publication::build;
use si_causes::{LineReader, Source};
use std::alloc::{AllocError, Global};

/// How many packets a recording of an air has, how many swaps put it on air, and how many null packets were passed over, where these may
/// stand in it.
#[derive(Clone, Copy)]
pub(crate) struct AirCount {
    pub(crate) packets: u64,
    pub(crate) swaps: u64,
    pub(crate) nulls: Option<u64>,
}

// Has the checker begin the cycle of what is on air at the desk.
fn begin_cycle(alloc: Global, desk: &LeanDesk, checker: &mut CycleChecker) -> Result<(), AllocError>
    requires lean { IsLean desk.now }
    requires at_end { IsAtEnd checker.old }
    ensures begun { (state : DeskState) → Stands state desk.now
        → (airings : List AiredTables) (accepted : List (List ℕ))
        → StandsAt airings accepted checker.old → OnOk result (StandsAt
        (airings ++ airing_on state (form_of checker.old) ∷ []) accepted checker.new) }
    ensures form { form_of checker.new ≡ form_of checker.old }
    ensures kind { (rate : Option ℕ) (nulls : Bool) → IsOf rate nulls checker.old
        → IsOf rate nulls checker.new }
{
    let airing = desk.on_air()?;
    let tables = build(alloc, desk.mux(), &airing.guide)?;
    checker.swap(tables, airing.moment)
}

// Checks the cycle of what is on air at the desk.
fn check_on_air<F: Source>(
    alloc: Global,
    desk: &LeanDesk,
    packets: &mut PacketReader<F>,
    checker: &mut CycleChecker,
    passed: &mut Option<u64>,
) -> Result<(), Status>
    requires lean { IsLean desk.now }
    requires between { IsBetweenCycles packets.old checker.old }
    ensures checks { (state : DeskState) → Stands state desk.now
        → (rate : Option ℕ) (nulls : Bool) (start : PacketReading F) (past : List AiredTables)
        → Follows rate nulls F.left start packets.old past checker.old passed.old
        → Checks rate nulls F.left start packets.new
        (past ++ airing_on state (form_of checker.old) ∷ []) checker.new passed.new result }
    ensures between { OnOk result (IsBetweenCycles packets.new checker.new) }
    ensures form { form_of checker.new ≡ form_of checker.old }
    ensures known { IfErr result IsOfCheck }
    ensures cause { HasReadCause (F.faults packets.old.source) (F.faults packets.new.source) result }
    ensures later { F.faults packets.old.source ≤ F.faults packets.new.source }
{
    let Ok(()) = begin_cycle(alloc, desk, checker) else {
        return Err(Status::Memory);
    };
    check_cycle(packets, checker, passed)
}

/// Does the commands that are left, up to the first line that is none, or that keeps another outcome than the desk's. After each swap
/// the packets of its cycle are read and checked before the next line is read. After the last command none is to come. Null packets
/// may stand anywhere where they are counted.
pub(crate) fn audit_rest<S: Source, F: Source>(
    alloc: Global,
    lines: &mut LineReader<S>,
    desk: &mut ScriptDesk,
    packets: &mut PacketReader<F>,
    checker: &mut CycleChecker,
    passed: &mut Option<u64>,
) -> Result<(), Status>
    requires going { lines.old.stop ≡ None }
    requires ready { CanAudit packets.old checker.old passed.old desk.old }
    ensures did { (nulls : Bool) → passed.old ≡ passed_over nulls []
        → DeskAudited nulls S.left F.left lines.old lines.new packets.old desk.old desk.new result }
    ensures counted { (nulls : Bool) (bytes : List ℕ) → passed.old ≡ passed_over nulls []
        → bytes_left F.left packets.old ≡ Some bytes
        → OnOk result ((packets.new.number ≡ length (whole_packets bytes))
        × (passed.new ≡ passed_over nulls (whole_packets bytes))) }
    ensures said { IfErr result CanBeSaid }
    ensures known { IfErr result IsMetBehind }
    ensures end { OnOk result (IsReadToEnd (S.left lines.new.source)) }
    ensures cause { HasAuditCause (S.faults lines.old.source) (S.faults lines.new.source)
        (F.faults packets.old.source) (F.faults packets.new.source) result }
    ensures same { S.same lines.old.source lines.new.source }
{
    'items: loop {
        match do_item(alloc, lines, desk) {
            Ok(ItemDone::Swap) => {
                if let Err(status) = check_on_air(alloc, &desk.desk, packets, checker, passed) {
                    return Err(status);
                }
            }
            Ok(ItemDone::Other) => {}
            Ok(ItemDone::End) => return check_end(packets, passed),
            Err(stop) => return Err(status_of(stop)),
        }
    }
}

fn is_swapped(entry: &Entry) -> bool
    ensures { result ≡ is_some (aired_by entry.now.outcome) }
{
    matches!(entry.outcome, Outcome::Swapped(..))
}

/// How many swaps these entries have.
pub(crate) fn swap_count(entries: &[Entry]) -> u64
    ensures { result ≡ length (swaps entries.now) }
{
    let mut count = 0;
    for entry in entries {
        if is_swapped(entry) {
            count += 1;
        }
    }
    count
}
