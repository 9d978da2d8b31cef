// Reading a description from the lines of a text.
ghost use Rattle.std.specs.Prelude.{◌≡◌, ◌∷◌, ◌++◌, [], IfOk, OnOk, if◌then◌else◌};
ghost use Rattle.mux_config.specs.Descriptions.{fault_of, is_end as ends_here, numbered};
ghost use Rattle.mux_lines.specs.Fields.{found_line as found_there};
ghost use Rattle.mux_model.specs.Sound.{IsSound};
ghost use Rattle.mux_config.specs.Reads.{ReadMux, TookLine};
ghost use Rattle.mux_lines.specs.declared.record.RecordFound.TheVariants.{Is};

use crate::fault::{MuxFault, Word};
use crate::kinds::{has_no_place, repeated_at};
use crate::room::is_full;
use crate::stop::MuxStop;
use crate::whole::multiplex;
use input_lines::next_record_line;
use mux_lines::{Numbered, Record, RecordFound, found_line};
use mux_model::Mux;
use si_causes::{LineReader, Source};
use std::alloc::{AllocError, Global};

fn is_end(says: &Record) -> bool
    ensures { result ≡ ends_here (Is says.now) }
{
    matches!(says, Record::End)
}

// Takes a line, which has this number, into the records, and tells whether it ends them.
fn take_line(
    alloc: Global,
    records: &mut Vec<Numbered>,
    number: u64,
    line: &[u8],
) -> Result<bool, MuxStop>
    ensures { TookLine records.old.items number (found_there line.now) records.new.items result }
{
    let says = match found_line(alloc, line)? {
        RecordFound::NoRecord => return Err(MuxStop::Fault(MuxFault::Line(number))),
        RecordFound::OutOfRange => return Err(MuxStop::Fault(MuxFault::Range(number))),
        RecordFound::Is(says) => says,
    };
    take_record(records, number, says)
}

// One record more, unless it is not to be taken.
fn add_unless(
    records: &mut Vec<Numbered>,
    is_left_out: bool,
    line: u64,
    says: Record,
) -> Result<(), AllocError>
    ensures { OnOk result (records.new.items ≡ (if is_left_out then records.old.items else records.old.items ++ numbered line says ∷ [])) }
{
    if is_left_out {
        return Ok(());
    }
    add(records, line, says)
}

fn add(records: &mut Vec<Numbered>, line: u64, says: Record) -> Result<(), AllocError>
    ensures { OnOk result (records.new.items ≡ records.old.items ++ numbered line says ∷ []) }
{
    records.push(Numbered { line, says })?;
    Ok(())
}

// The fault of the record of a line after these.
fn fault_of(before: &[Numbered], number: u64, says: &Record) -> Option<MuxFault>
    ensures { result ≡ fault_of before.now number (Is says.now) }
{
    if has_no_place(before, says) {
        return Some(MuxFault::Range(number));
    }
    if let Some(earlier) = repeated_at(before, says) {
        return Some(MuxFault::Twice(number, earlier));
    }
    if is_full(before, says) {
        return Some(MuxFault::Full(number));
    }
    None
}

// Takes the record of a line.
fn take_record(records: &mut Vec<Numbered>, number: u64, says: Record) -> Result<bool, MuxStop>
    ensures { TookLine records.old.items number (Is says) records.new.items result }
{
    let fault = fault_of(records.as_slice(), number, &says);
    let is_last = is_end(&says);
    add_unless(records, fault.is_some() || is_last, number, says)?;
    match fault {
        Some(fault) => Err(MuxStop::Fault(fault)),
        None => Ok(is_last),
    }
}

/// Reads the description of a multiplex up to its `end` line, and leaves the lines behind it in the reader.
///
/// It gives the multiplex of the description's lines, which is sound, or their first fault. Lines count from the
/// reader's first; those that are passed over count too. `Read` tells that the reader stopped: where a read of the
/// source failed, the lines that were whole in the bytes taken have neither a fault nor the end. Want of memory gives up
/// what was read. The lines that were handed out make the multiplex, or have the fault, whatever lines are behind them;
/// but a missing end is the fault of all lines that were left.
pub fn read_mux<S: Source>(alloc: Global, lines: &mut LineReader<S>) -> Result<Mux, MuxStop>
    ensures read { ReadMux S.left S.faults S.same lines.old lines.new result }
    ensures sound { IfOk result IsSound }
{
    let mut records = Vec::new(alloc);
    'lines: loop {
        match next_record_line(lines) {
            Ok(Some(number)) => {
                match take_line(alloc, &mut records, number, lines.line()) {
                    Ok(true) => return multiplex(alloc, &records),
                    Ok(false) => {}
                    Err(stop) => return Err(stop),
                }
            }
            Ok(None) => return Err(MuxStop::Fault(MuxFault::Missing(Word::End))),
            Err(stop) => return Err(MuxStop::Read(stop)),
        }
    }
}
