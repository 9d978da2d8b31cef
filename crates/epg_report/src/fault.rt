// The lines of faults.
ghost use Rattle.std.specs.Prelude.{◌≡◌, ◌≤◌, ◌++◌, OnOk, codes, decimal};
ghost use Rattle.journal_text.specs.Entries.{outcome_text};
ghost use Rattle.journal_model.specs.Steps.{IsInWindow};
ghost use Rattle.epg_report.specs.Told.{Reported, told};
ghost use Rattle.epg_report.specs.Texts.{CanBeSaid, fault_lines, fault_text, has_line, mux_fault_text, opened as opened_by, origin_text, rule_text, word_text};

use crate::status::{Origin, Outlet, Status};
use air_model::Rule;
use journal_model::Outcome;
use journal_text::write_outcome;
use mux_config::{MuxFault, Word};
use si_base::put_number;
use si_causes::{Sink, write_all};
use std::alloc::{AllocError, Global};

fn word_of(word: Word) -> &'static str
    ensures { result.now ≡ word_text word }
{
    match word {
        Word::Network => "network",
        Word::Stream => "stream",
        Word::Service => "service",
        Word::End => "end",
    }
}

// Appends `mux line N`.
fn put_mux_line(alloc: Global, out: &mut Vec<u8>, line: u64) -> Result<(), AllocError>
    ensures { OnOk result (out.new.items ≡ out.old.items ++ codes "mux line " ++ decimal line) }
{
    out.extend_from_slice(b"mux line ")?;
    put_number(alloc, out, line)
}

// Appends what the line of a fault of the description says.
fn put_mux_fault(alloc: Global, out: &mut Vec<u8>, fault: MuxFault) -> Result<(), AllocError>
    ensures { OnOk result (out.new.items ≡ out.old.items ++ mux_fault_text fault) }
{
    match fault {
        MuxFault::Line(line) => {
            put_mux_line(alloc, out, line)?;
            out.extend_from_slice(b" unreadable")
        }
        MuxFault::Range(line) => {
            put_mux_line(alloc, out, line)?;
            out.extend_from_slice(b" out of range")
        }
        MuxFault::Twice(line, earlier) => {
            put_mux_line(alloc, out, line)?;
            out.extend_from_slice(b" repeats line ")?;
            put_number(alloc, out, earlier)
        }
        MuxFault::Full(line) => {
            put_mux_line(alloc, out, line)?;
            out.extend_from_slice(b" has no room")
        }
        MuxFault::Missing(word) => {
            out.extend_from_slice(b"mux lacks ")?;
            out.extend_from_slice(word_of(word).as_bytes())
        }
    }
}

// Appends what the line of a disagreement says.
fn put_disagreement(
    alloc: Global,
    out: &mut Vec<u8>,
    line: u64,
    kept: Outcome,
    found: Outcome,
) -> Result<(), AllocError>
    requires kept { IsInWindow kept }
    requires found { IsInWindow found }
    ensures { OnOk result (out.new.items ≡ out.old.items ++ (codes "input line " ++ decimal line ++ codes " kept " ++ outcome_text kept ++ codes " found " ++ outcome_text found)) }
{
    out.extend_from_slice(b"input line ")?;
    put_number(alloc, out, line)?;
    out.extend_from_slice(b" kept ")?;
    write_outcome(alloc, &kept, out)?;
    out.extend_from_slice(b" found ")?;
    write_outcome(alloc, &found, out)
}

// Appends `input`, `feed F`, or `recording`.
fn put_origin(alloc: Global, out: &mut Vec<u8>, origin: Origin) -> Result<(), AllocError>
    ensures { OnOk result (out.new.items ≡ out.old.items ++ origin_text origin) }
{
    match origin {
        Origin::Input => out.extend_from_slice(b"input"),
        Origin::Feed(feed) => {
            out.extend_from_slice(b"feed ")?;
            put_number(alloc, out, u64::from(feed))
        }
        Origin::Recording => out.extend_from_slice(b"recording"),
    }
}

// What is opened by this number.
fn opened(number: u8) -> Origin
    ensures { result ≡ opened_by number }
{
    if number == 0 {
        Origin::Recording
    } else {
        Origin::Feed(number)
    }
}

fn rule_word(rule: Rule) -> &'static str
    ensures { result.now ≡ rule_text rule }
{
    match rule {
        Rule::Shape => "shape",
        Rule::Pid => "pid",
        Rule::Counter => "counter",
        Rule::Pointer => "pointer",
        Rule::Bytes => "bytes",
    }
}

// Appends a text and a number behind it.
fn put_numbered(
    alloc: Global,
    out: &mut Vec<u8>,
    front: &[u8],
    number: u64,
) -> Result<(), AllocError>
    ensures { OnOk result (out.new.items ≡ out.old.items ++ (front.now ++ decimal number)) }
{
    out.extend_from_slice(front)?;
    put_number(alloc, out, number)
}

// Appends `packet N`, and what stands behind it.
fn put_packet(
    alloc: Global,
    out: &mut Vec<u8>,
    packet: u64,
    befell: &[u8],
) -> Result<(), AllocError>
    ensures { OnOk result (out.new.items ≡ out.old.items ++ (codes "packet " ++ decimal packet ++ befell.now)) }
{
    out.extend_from_slice(b"packet ")?;
    put_number(alloc, out, packet)?;
    out.extend_from_slice(befell)
}

// Appends `packet N breaks R`.
fn put_breach(alloc: Global, out: &mut Vec<u8>, packet: u64, rule: Rule) -> Result<(), AllocError>
    ensures { OnOk result (out.new.items ≡ out.old.items ++ (codes "packet " ++ decimal packet ++ codes " breaks " ++ rule_text rule)) }
{
    put_packet(alloc, out, packet, b" breaks ")?;
    out.extend_from_slice(rule_word(rule).as_bytes())
}

// Appends `input line N is no command`, or the same of a feed.
fn put_no_command(
    alloc: Global,
    out: &mut Vec<u8>,
    origin: Origin,
    line: u64,
) -> Result<(), AllocError>
    ensures { OnOk result (out.new.items ≡ out.old.items ++ (origin_text origin ++ codes " line " ++ decimal line ++ codes " is no command")) }
{
    put_origin(alloc, out, origin)?;
    out.extend_from_slice(b" line ")?;
    put_number(alloc, out, line)?;
    out.extend_from_slice(b" is no command")
}

// Appends what befell a text.
fn put_of(alloc: Global, out: &mut Vec<u8>, origin: Origin, befell: &[u8]) -> Result<(), AllocError>
    ensures { OnOk result (out.new.items ≡ out.old.items ++ (origin_text origin ++ befell.now)) }
{
    put_origin(alloc, out, origin)?;
    out.extend_from_slice(befell)
}

// Appends what the line of a fault says.
fn put_fault(alloc: Global, out: &mut Vec<u8>, status: Status) -> Result<(), AllocError>
    requires { CanBeSaid status }
    ensures { OnOk result (out.new.items ≡ out.old.items ++ fault_text status) }
{
    match status {
        Status::Done => Ok(()),
        Status::Usage => out.extend_from_slice(b"usage"),
        Status::BadScript(line) => put_no_command(alloc, out, Origin::Input, line),
        Status::Disagrees(line, kept, found) => put_disagreement(alloc, out, line, kept, found),
        Status::BadMux(fault) => put_mux_fault(alloc, out, fault),
        Status::BadFeed(feed, line) => put_no_command(alloc, out, Origin::Feed(feed), line),
        Status::BadStream(packet) => put_numbered(alloc, out, b"packet ", packet),
        Status::TooLong(origin) => put_of(alloc, out, origin, b" too long"),
        Status::OpenFault(number) => put_of(alloc, out, opened(number), b" not opened"),
        Status::ReadFault(origin) => put_of(alloc, out, origin, b" not read"),
        Status::WriteFault(Outlet::Air) => out.extend_from_slice(b"air not written"),
        Status::WriteFault(Outlet::Report) => Ok(()),
        Status::Memory => out.extend_from_slice(b"memory"),
        Status::TooMany(packet) => {
            out.extend_from_slice(b"packet ")?;
            put_number(alloc, out, packet)?;
            out.extend_from_slice(b" has a key too many")
        }
        Status::NoView(service) => { put_numbered(alloc, out, b"no service ", u64::from(service)) }
        Status::NotAir(packet, rule) => put_breach(alloc, out, packet, rule),
        Status::Short(packet) => put_packet(alloc, out, packet, b" is missing"),
        Status::BadCheckpoint(line) => put_numbered(alloc, out, b"checkpoint line ", line),
    }
}

fn has_line(status: Status) -> bool
    ensures { result ≡ has_line status }
{
    !matches!(status, Status::Done | Status::WriteFault(Outlet::Report))
}

/// Appends the line that names the fault of a status. `Done` has none, nor has a report that could not be written.
pub fn put_fault_line(alloc: Global, out: &mut Vec<u8>, status: Status) -> Result<(), AllocError>
    requires { CanBeSaid status }
    ensures { OnOk result (out.new.items ≡ out.old.items ++ fault_lines status) }
{
    if !has_line(status) {
        return Ok(());
    }
    out.extend_from_slice(b"fault: ")?;
    put_fault(alloc, out, status)?;
    out.extend_from_slice(b"\n")
}

/// Ends a run for want of memory: the report takes the line that says so, or a front of it where it fails, which changes no status.
pub fn out_of_memory<R: Sink>(report: &mut R) -> Status
    ensures status { result ≡ Status.Memory }
    ensures took { Reported (told R.written R.faults report.old report.new) (fault_lines Status.Memory) }
    ensures later { R.faults report.old ≤ R.faults report.new }
{
    let _ = write_all(report, b"fault: memory\n");
    Status::Memory
}
