// A recording, heard from the input.
ghost use Rattle.std.specs.Prelude.{◌≡◌, ◌≤◌, true, false, List, ℕ, Some, OnOk};
ghost use Rattle.std.specs.Io.KnownBytes.{IsAtEnd};
ghost use Rattle.command_words.specs.Commands.{options_said};
ghost use Rattle.epg_listen.specs.Lines.{nothing_heard};
ghost use Rattle.epg_listen.specs.Leaves.{ListenRan, without_options};
ghost use Rattle.epg_listen.specs.Hearing.{HasHeard, HasReadCause, HasReportCause};

use crate::listen::{ListenStop, end_report, hear_all};
use crate::listener::Listener;
use crate::resync::Resync;
use command_words::ListenWords;
use epg_report::Status;
use guide_receiver::Receiver;
use packet_reader::PacketReader;
use si_causes::{Sink, Source};
use std::alloc::Global;
use strict_receiver::Strict;

/// Hears the recording of the input: packets of 188 bytes from its first byte on. It reports one line for each completion of a
/// sub-table, before it reads the next packet, and then the guide that it heard, or a line that names the fault (ISO/IEC 13818-1, 2.4;
/// EN 300 468, 5.1 and 5.2). Where a section that counts ends in packet n and brings the 65,537th key, it answers `TooMany(n)`, and reports
/// nothing of that packet but the fault.
pub fn run_listen<S: Source, R: Sink>(alloc: Global, input: &mut S, report: &mut R) -> Status
    ensures run { ListenRan without_options S.left S.faults input.old input.new
        R.written R.faults report.old report.new result }
{
    let words = ListenWords {
        details: false,
        partial: false,
        resync: false,
        strict: false,
    };
    run_listen_as(alloc, words, input, report)
}

/// As [`run_listen`], with the options of these words.
///
/// With `strict` it notices losses: at each break of a PID's continuity_counters (ISO/IEC 13818-1, 2.4.3.3) it forgets the sections that it
/// has gathered on that PID, and reports a line `lost` before the completions of that packet.
///
/// With `resync` the recording may be damaged, and its packets may be 188, 192 or 204 bytes apart. Where sync is lost, it passes over the
/// bytes up to the next row of packets, and reports a line `junk`, the number of the next packet, and how many bytes; with `strict` it
/// starts afresh there. It then answers `BadStream(0)` exactly where the recording has a byte and no packet is found.
///
/// With `details` the guide has also the descriptors that no other line shows whole, as `guide_text::print_heard_with` says.
///
/// With `partial` the guide has a line `wanting` for each need that is not met, and then what is held of each table: the content that was
/// completed last, or else the sections of one version that came last, with `strict` those since the last loss on its PID.
pub fn run_listen_as<S: Source, R: Sink>(
    alloc: Global,
    words: ListenWords,
    input: &mut S,
    report: &mut R,
) -> Status
    ensures run { ListenRan (options_said words) S.left S.faults input.old input.new
        R.written R.faults report.old report.new result }
{
    if words.strict {
        let mut strict = Strict::open(alloc);
        run_with(alloc, words, &mut strict, input, report)
    } else {
        let mut receiver = Receiver::open(alloc);
        run_with(alloc, words, &mut receiver, input, report)
    }
}

// Hears the recording of the input by what has heard nothing yet.
fn run_with<L: Listener, S: Source, R: Sink>(
    alloc: Global,
    words: ListenWords,
    listener: &mut L,
    input: &mut S,
    report: &mut R,
) -> Status
    requires strict { words.strict ≡ L.strict }
    requires unheard { L.stands listener.old nothing_heard }
    ensures run { ListenRan (options_said words) S.left S.faults input.old input.new
        R.written R.faults report.old report.new result }
{
    let heard = hear_input(alloc, words.resync, listener, input, report);
    end_report(alloc, heard, words, listener, report)
}

// Hears all pieces of the input: with `resync` those that are found in it, and else its packets.
fn hear_input<L: Listener, S: Source, R: Sink>(
    alloc: Global,
    resync: bool,
    listener: &mut L,
    input: &mut S,
    report: &mut R,
) -> Result<(), ListenStop>
    requires unheard { L.stands listener.old nothing_heard }
    ensures heard { (bytes : List ℕ) → S.left input.old ≡ Some bytes
        → HasHeard resync L.strict bytes (S.left input.new) (L.stands listener.new) (R.written report.old) (R.written report.new) result }
    ensures end { OnOk result (IsAtEnd (S.left input.new)) }
    ensures read_cause { HasReadCause (S.faults input.old) (S.faults input.new) result }
    ensures report_cause { HasReportCause (R.faults report.old) (R.faults report.new) result }
    ensures later { R.faults report.old ≤ R.faults report.new }
{
    if resync {
        hear_found(alloc, listener, input, report)
    } else {
        hear_packets(alloc, listener, input, report)
    }
}

// Hears the packets of the input, up to the first piece that is none.
fn hear_packets<L: Listener, S: Source, R: Sink>(
    alloc: Global,
    listener: &mut L,
    input: &mut S,
    report: &mut R,
) -> Result<(), ListenStop>
    requires unheard { L.stands listener.old nothing_heard }
    ensures heard { (bytes : List ℕ) → S.left input.old ≡ Some bytes
        → HasHeard false L.strict bytes (S.left input.new) (L.stands listener.new) (R.written report.old) (R.written report.new) result }
    ensures end { OnOk result (IsAtEnd (S.left input.new)) }
    ensures read_cause { HasReadCause (S.faults input.old) (S.faults input.new) result }
    ensures report_cause { HasReportCause (R.faults report.old) (R.faults report.new) result }
    ensures later { R.faults report.old ≤ R.faults report.new }
{
    let Ok(mut packets) = PacketReader::open(alloc, &mut *input) else {
        return Err(ListenStop::Memory);
    };
    let heard = hear_all(alloc, &mut packets, listener, report);
    let _source = packets.close();
    heard
}

// Hears all pieces that are found in the input.
fn hear_found<L: Listener, S: Source, R: Sink>(
    alloc: Global,
    listener: &mut L,
    input: &mut S,
    report: &mut R,
) -> Result<(), ListenStop>
    requires unheard { L.stands listener.old nothing_heard }
    ensures heard { (bytes : List ℕ) → S.left input.old ≡ Some bytes
        → HasHeard true L.strict bytes (S.left input.new) (L.stands listener.new) (R.written report.old) (R.written report.new) result }
    ensures end { OnOk result (IsAtEnd (S.left input.new)) }
    ensures read_cause { HasReadCause (S.faults input.old) (S.faults input.new) result }
    ensures report_cause { HasReportCause (R.faults report.old) (R.faults report.new) result }
    ensures later { R.faults report.old ≤ R.faults report.new }
{
    let Ok(mut pieces) = Resync::open(alloc, &mut *input) else {
        return Err(ListenStop::Memory);
    };
    let heard = hear_all(alloc, &mut pieces, listener, report);
    let _source = pieces.close();
    heard
}
