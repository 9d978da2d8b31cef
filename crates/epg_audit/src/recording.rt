// The packets of a recording, held against the cycle that is on air.
ghost use Rattle.std.specs.Prelude.{◌≡◌, ◌≤◌, ◌↔◌, ◌++◌, ◌∷◌, [], None, IfErr, IfNone, IfSome, IsNone, OnOk, Bool, false, List, ℕ, Option, length};
ghost use Rattle.packet_reader.specs.Reading.{PacketReading};
ghost use Rattle.packet_reader.specs.Recordings.{packet_limit};
ghost use Rattle.version_book.specs.Airings.{AiredTables};
ghost use Rattle.air_audit.specs.TimedAirs.{seen};
ghost use Rattle.air_audit.specs.CycleAirs.{BeginAirAt};
ghost use Rattle.air_audit.specs.CycleChecking.{Auditing, IsOf, StandsAt, form_of, rule_at};
ghost use Rattle.epg_audit.specs.Checks.{Checks, Ends, Follows, HasReadCause, IsBetweenCycles, IsOfCheck, recording_status};
ghost use Rattle.epg_audit.specs.Recorded.{is_passed, passed_over};

use air_audit::{CycleChecker, is_null};
use air_model::Rule;
use epg_report::{Origin, Status};
use packet_reader::{PacketReader, PacketStop};
use si_causes::Source;

// The status of a recording that gives no further packet; where a piece of the length of a packet is none, it breaks this rule.
fn status_of<F: Source>(packets: &PacketReader<F>, stop: PacketStop, rule: Rule) -> Status
    ensures value { result ≡ recording_status packets.now stop rule }
    ensures known { IsOfCheck result }
{
    match stop {
        PacketStop::Failed => Status::ReadFault(Origin::Recording),
        PacketStop::TooLong => Status::TooLong(Origin::Recording),
        PacketStop::Broken(number) => match packets.broken_piece() {
            Some(_) => Status::NotAir(number, rule),
            None => Status::BadStream(number),
        },
    }
}

// Whether a packet is passed over: a null packet, where null packets may stand. It is then counted.
fn pass_over(packet: &[u8; 188], passed: &mut Option<u64>) -> bool
    ensures null { (nulls : Bool) (packets : List (List ℕ))
        → passed.old ≡ passed_over nulls packets → result ≡ is_passed nulls packet.now }
    ensures counted { (nulls : Bool) (packets : List (List ℕ)) → length packets ≤ packet_limit
        → passed.old ≡ passed_over nulls packets
        → passed.new ≡ passed_over nulls (packets ++ packet.now ∷ []) }
    ensures kept { result ≡ false → passed.new ≡ passed.old }
{
    let Some(count) = *passed else {
        return false;
    };
    if !is_null(packet) {
        return false;
    }
    *passed = Some(count.saturating_add(1));
    true
}

// Checks the next packet. Where null packets may stand, one of them is passed over and counted.
fn check_packet(
    checker: &mut CycleChecker,
    packet: &[u8; 188],
    passed: &mut Option<u64>,
) -> Option<Rule>
    ensures accepted { (nulls : Bool) (airings : List AiredTables) (packets : List (List ℕ))
        → passed.old ≡ passed_over nulls packets
        → StandsAt airings (seen nulls packets) checker.old
        → IfNone result (StandsAt airings (seen nulls (packets ++ packet.now ∷ [])) checker.new) }
    ensures exactly { (rate : Option ℕ) (nulls : Bool) (airings : List AiredTables)
        (packets : List (List ℕ)) → passed.old ≡ passed_over nulls packets
        → IsOf rate nulls checker.old → StandsAt airings (seen nulls packets) checker.old
        → IsNone result
        ↔ BeginAirAt rate nulls airings (seen nulls (packets ++ packet.now ∷ [])) }
    ensures rule { (nulls : Bool) (airings : List AiredTables) (packets : List (List ℕ))
        → passed.old ≡ passed_over nulls packets
        → StandsAt airings (seen nulls packets) checker.old
        → IfSome result (λ rule. rule ≡ rule_at (seen nulls packets) checker.old packet.now) }
    ensures counted { (nulls : Bool) (packets : List (List ℕ)) → length packets ≤ packet_limit
        → passed.old ≡ passed_over nulls packets
        → passed.new ≡ passed_over nulls (packets ++ packet.now ∷ []) }
    ensures form { form_of checker.new ≡ form_of checker.old }
    ensures kind { (rate : Option ℕ) (nulls : Bool) → IsOf rate nulls checker.old
        → IsOf rate nulls checker.new }
{
    if pass_over(packet, passed) {
        return None;
    }
    checker.check(packet)
}

/// Reads and checks packets up to the end of the cycle that the checker is in. The first packet that is no part of an air is refused, and
/// so is a recording that ends before. Where null packets may stand, those that are passed over are counted.
pub(crate) fn check_cycle<F: Source>(
    packets: &mut PacketReader<F>,
    checker: &mut CycleChecker,
    passed: &mut Option<u64>,
) -> Result<(), Status>
    requires going { packets.old.stop ≡ None }
    ensures checks { (rate : Option ℕ) (nulls : Bool) (start : PacketReading F)
        (airings : List AiredTables)
        → Follows rate nulls F.left start packets.old airings checker.old passed.old
        → Checks rate nulls F.left start packets.new airings checker.new passed.new result }
    ensures between { OnOk result (IsBetweenCycles packets.new checker.new) }
    ensures form { form_of checker.new ≡ form_of checker.old }
    ensures known { IfErr result IsOfCheck }
    ensures cause { HasReadCause (F.faults packets.old.source) (F.faults packets.new.source) result }
    ensures later { F.faults packets.old.source ≤ F.faults packets.new.source }
{
    while !checker.at_end() {
        match packets.next() {
            Ok(Some(number)) => {
                if let Some(rule) = check_packet(checker, packets.packet(), passed) {
                    return Err(Status::NotAir(number, rule));
                }
            }
            Ok(None) => return Err(Status::Short(packets.number())),
            Err(stop) => return Err(status_of(packets, stop, Rule::Shape)),
        }
    }
    Ok(())
}

/// After the last cycle no packet is to come, but null packets where these may stand: any other that does has a PID of which no cycle has
/// a byte left.
pub(crate) fn check_end<F: Source>(
    packets: &mut PacketReader<F>,
    passed: &mut Option<u64>,
) -> Result<(), Status>
    requires going { packets.old.stop ≡ None }
    ensures ends { (rate : Option ℕ) (nulls : Bool) (start : PacketReading F)
        (airings : List AiredTables) (c : Auditing)
        → Follows rate nulls F.left start packets.old airings c passed.old
        → Ends rate nulls F.left start packets.new airings c passed.new result }
    ensures known { IfErr result IsOfCheck }
    ensures cause { HasReadCause (F.faults packets.old.source) (F.faults packets.new.source) result }
    ensures later { F.faults packets.old.source ≤ F.faults packets.new.source }
{
    'nulls: loop {
        match packets.next() {
            Ok(None) => return Ok(()),
            Ok(Some(number)) => {
                if !pass_over(packets.packet(), passed) {
                    return Err(Status::NotAir(number, Rule::Pid));
                }
            }
            Err(stop) => return Err(status_of(packets, stop, Rule::Pid)),
        }
    }
}
