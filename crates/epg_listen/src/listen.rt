// A recording, heard piece by piece.
ghost use Rattle.std.specs.Prelude.{◌≡◌, ◌≤◌, ◌++◌, ◌∷◌, [], List, ℕ, Ok, IfOk, OnOk, length, slice_index};
ghost use Rattle.std.specs.Io.KnownBytes.{IsAtEnd};
ghost use Rattle.packet_finder.specs.Pieces.{Piece, Piece.Packet, Piece.Junk};
ghost use Rattle.packet_finder.specs.Laws.{packets_of};
ghost use Rattle.packet_finder.specs.Finding.{piece_of};
ghost use Rattle.packet_finder.specs.declared.found.Found.TheVariants as was;
ghost use Rattle.command_words.specs.Commands.{options_said};
ghost use Rattle.epg_report.specs.Texts.{fault_line, fault_text};
ghost use Rattle.epg_report.specs.Told.{told};
ghost use Rattle.epg_listen.specs.Lines.{History, nothing_heard, after, heard_of, piece_lines};
ghost use Rattle.epg_listen.specs.Leaves.{packet_stop_status};
ghost use Rattle.epg_listen.specs.Giving.{IsGivenPacket, IsNumbered};
ghost use Rattle.epg_listen.specs.Hearing.{ReportsLines, HasHeard, HasReadCause, HasReportCause, IsNoReadStop, IsTooManyAt, IsOfRecording, EndsHeard, EndsBy};

use crate::lines::junk_line_of;
use crate::listener::Listener;
use crate::piece_reader::PieceReader;
use command_words::ListenWords;
use epg_report::{Origin, Outlet, Status, out_of_memory, put_fault_line};
use guide_receiver::HearStop;
use packet_finder::Found;
use packet_reader::PacketStop;
use si_causes::{Sink, write_all};
use std::alloc::{AllocError, Global};

/// Why a recording is not heard on: no further piece, a key too many in a packet, the report, or want of memory.
#[derive(Clone, Copy, PartialEq, Eq)]
pub(crate) enum ListenStop {
    Read(PacketStop),
    TooMany(u64),
    Report,
    Memory,
}

// Hears the packet with this number, and reports its lines.
fn hear_packet<L: Listener, R: Sink>(
    alloc: Global,
    listener: &mut L,
    number: u64,
    packet: &[u8; 188],
    report: &mut R,
) -> Result<(), ListenStop>
    requires sync { slice_index packet.now 0 ≡ 0x47 }
    ensures reports { (h : History) → L.stands listener.old h
        → ReportsLines (R.written report.old) (R.written report.new) (piece_lines L.strict number h (Packet packet.now)) result }
    ensures stands { (h : History) → L.stands listener.old h → OnOk result (L.stands listener.new (after L.strict h (Packet packet.now))) }
    ensures too_many { (h : History) → L.stands listener.old h → IsTooManyAt (was.Packet number) (after L.strict h (Packet packet.now)) result }
    ensures cause { HasReportCause (R.faults report.old) (R.faults report.new) result }
    ensures no_read { IsNoReadStop result }
    ensures later { R.faults report.old ≤ R.faults report.new }
{
    let text = match listener.hear_lines(alloc, number, packet) {
        Ok(text) => text,
        Err(HearStop::Sync) => unreachable!(),
        Err(HearStop::TooMany) => return Err(ListenStop::TooMany(number)),
        Err(HearStop::Memory) => return Err(ListenStop::Memory),
    };
    match write_all(report, &text) {
        Ok(()) => Ok(()),
        Err(_) => Err(ListenStop::Report),
    }
}

// Passes over so many bytes before the packet with this number, and reports them.
fn pass_over<L: Listener, R: Sink>(
    alloc: Global,
    listener: &mut L,
    number: u64,
    count: u64,
    report: &mut R,
) -> Result<(), ListenStop>
    ensures reports { (h : History) → ReportsLines (R.written report.old) (R.written report.new) (piece_lines L.strict number h (Junk count)) result }
    ensures stands { (h : History) → L.stands listener.old h → OnOk result (L.stands listener.new (after L.strict h (Junk count))) }
    ensures too_many { (h : History) → IsTooManyAt (was.Junk count) h result }
    ensures cause { HasReportCause (R.faults report.old) (R.faults report.new) result }
    ensures no_read { IsNoReadStop result }
    ensures later { R.faults report.old ≤ R.faults report.new }
{
    let Ok(text) = junk_line_of(alloc, number, count) else {
        return Err(ListenStop::Memory);
    };
    listener.pass_over();
    match write_all(report, &text) {
        Ok(()) => Ok(()),
        Err(_) => Err(ListenStop::Report),
    }
}

// Hears the piece that was given last, and reports its lines.
fn hear_piece<P: PieceReader, L: Listener, R: Sink>(
    alloc: Global,
    pieces: &P,
    found: Found,
    listener: &mut L,
    report: &mut R,
) -> Result<(), ListenStop>
    requires packet { IsGivenPacket (P.last pieces.now) found }
    ensures reports { (bytes : List ℕ) (heard : List Piece) → P.gave pieces.now bytes (heard ++ piece_of (P.last pieces.now) found ∷ [])
        → IsNumbered heard found → L.stands listener.old (heard_of L.strict heard)
        → ReportsLines (R.written report.old) (R.written report.new) (piece_lines L.strict (length (packets_of heard)) (heard_of L.strict heard) (piece_of (P.last pieces.now) found)) result }
    ensures stands { (h : History) → L.stands listener.old h → OnOk result (L.stands listener.new (after L.strict h (piece_of (P.last pieces.now) found))) }
    ensures too_many { (h : History) → L.stands listener.old h → IsTooManyAt found (after L.strict h (piece_of (P.last pieces.now) found)) result }
    ensures cause { HasReportCause (R.faults report.old) (R.faults report.new) result }
    ensures no_read { IsNoReadStop result }
    ensures later { R.faults report.old ≤ R.faults report.new }
{
    match found {
        Found::Packet(number) => hear_packet(alloc, listener, number, pieces.last_packet(), report),
        Found::Junk(count) => pass_over(alloc, listener, pieces.packet_count(), count, report),
    }
}

/// Hears all pieces of a recording; the lines of a piece are written before the next piece is read.
pub(crate) fn hear_all<P: PieceReader, L: Listener, R: Sink>(
    alloc: Global,
    pieces: &mut P,
    listener: &mut L,
    report: &mut R,
) -> Result<(), ListenStop>
    requires going { P.going pieces.old }
    requires unheard { L.stands listener.old nothing_heard }
    ensures heard { (bytes : List ℕ) → P.gave pieces.old bytes []
        → HasHeard P.resync L.strict bytes (P.left pieces.new) (L.stands listener.new) (R.written report.old) (R.written report.new) result }
    ensures end { OnOk result (IsAtEnd (P.left pieces.new)) }
    ensures read_cause { HasReadCause (P.faults pieces.old) (P.faults pieces.new) result }
    ensures report_cause { HasReportCause (R.faults report.old) (R.faults report.new) result }
    ensures later { R.faults report.old ≤ R.faults report.new }
    ensures same { P.same pieces.old pieces.new }
{
    loop {
        match pieces.next_piece() {
            Ok(Some(found)) => {
                if let Err(stop) = hear_piece(alloc, pieces, found, listener, report) {
                    return Err(stop);
                }
            }
            Ok(None) => return Ok(()),
            Err(stop) => return Err(ListenStop::Read(stop)),
        }
    }
}

fn status_of(stop: PacketStop) -> Status
    ensures { result ≡ packet_stop_status stop }
{
    match stop {
        PacketStop::Broken(number) => Status::BadStream(number),
        PacketStop::TooLong => Status::TooLong(Origin::Input),
        PacketStop::Failed => Status::ReadFault(Origin::Input),
    }
}

// The line of a fault of the recording.
fn fault_of(alloc: Global, fault: Status) -> Result<Vec<u8>, AllocError>
    requires { IsOfRecording fault }
    ensures { IfOk result (λ text. text.items ≡ fault_line (fault_text fault)) }
{
    let mut text = Vec::new(alloc);
    put_fault_line(alloc, &mut text, fault)?;
    Ok(text)
}

// Reports why the recording is not heard on.
fn report_fault<R: Sink>(alloc: Global, fault: Status, report: &mut R) -> Status
    requires { IsOfRecording fault }
    ensures ends { EndsBy fault (told R.written R.faults report.old report.new) result }
    ensures later { R.faults report.old ≤ R.faults report.new }
{
    let Ok(text) = fault_of(alloc, fault) else {
        return out_of_memory(report);
    };
    let _ = write_all(report, &text);
    fault
}

// Reports the guide of what was heard.
#[tactic(auto, using(crate::proofs::ListenFacts::guide_told, crate::proofs::ListenFacts::guide_front))]
fn report_guide<L: Listener, R: Sink>(
    alloc: Global,
    words: ListenWords,
    listener: &L,
    report: &mut R,
) -> Status
    ensures ends { EndsHeard (options_said words) L.strict (L.stands listener.now) (Ok tt)
        (told R.written R.faults report.old report.new) result }
    ensures later { R.faults report.old ≤ R.faults report.new }
{
    let Ok(text) = listener.guide_text(alloc, words) else {
        return out_of_memory(report);
    };
    match write_all(report, &text) {
        Ok(()) => Status::Done,
        Err(_) => Status::WriteFault(Outlet::Report),
    }
}

/// Ends the report of what was heard, and says how the run ends.
pub(crate) fn end_report<L: Listener, R: Sink>(
    alloc: Global,
    heard: Result<(), ListenStop>,
    words: ListenWords,
    listener: &L,
    report: &mut R,
) -> Status
    ensures ends { EndsHeard (options_said words) L.strict (L.stands listener.now) heard
        (told R.written R.faults report.old report.new) result }
    ensures later { R.faults report.old ≤ R.faults report.new }
{
    match heard {
        Ok(()) => report_guide(alloc, words, listener, report),
        Err(ListenStop::Read(stop)) => report_fault(alloc, status_of(stop), report),
        Err(ListenStop::TooMany(number)) => report_fault(alloc, Status::TooMany(number), report),
        Err(ListenStop::Report) => Status::WriteFault(Outlet::Report),
        Err(ListenStop::Memory) => out_of_memory(report),
    }
}
