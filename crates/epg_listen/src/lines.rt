// The lines of a piece.
ghost use Rattle.std.specs.Prelude.{◌≡◌, ◌++◌, IfOk, OnOk, map, option_map};
ghost use Rattle.guide_receiver.specs.Dones.{at_packet};
ghost use Rattle.guide_receiver.specs.Texts.{field_text, done_lines};
ghost use Rattle.epg_listen.specs.Lines.{junk_line, lost_line, lost_lines};

use guide_receiver::{DoneKey, write_done};
use si_base::put_number;
use std::alloc::{AllocError, Global};
use strict_receiver::{Lost, StrictHeard};

/// The lines of the completions that the packet with this number shows.
pub(crate) fn lines_of(alloc: Global, number: u64, dones: &[DoneKey]) -> Result<Vec<u8>, AllocError>
    ensures { IfOk result (λ text. text.items ≡ done_lines (map (at_packet number) dones.now)) }
{
    let mut text = Vec::new(alloc);
    for done in dones {
        write_done(alloc, number, *done, &mut text)?;
    }
    Ok(text)
}

// Appends a tab and a number.
fn put_field(alloc: Global, out: &mut Vec<u8>, n: u64) -> Result<(), AllocError>
    ensures { OnOk result (out.new.items ≡ out.old.items ++ field_text n) }
{
    out.extend_from_slice(b"\t")?;
    put_number(alloc, out, n)
}

// The line of a break at the packet with this number.
fn lost_line_of(alloc: Global, number: u64, lost: Lost) -> Result<Vec<u8>, AllocError>
    ensures { IfOk result (λ text. text.items ≡ lost_line number lost.pid) }
{
    let mut text = Vec::from_slice(alloc, b"lost")?;
    put_field(alloc, &mut text, number)?;
    put_field(alloc, &mut text, u64::from(lost.pid))?;
    text.extend_from_slice(b"\n")?;
    Ok(text)
}

// The line of a break, where there is one.
fn lost_text(alloc: Global, number: u64, lost: Option<Lost>) -> Result<Vec<u8>, AllocError>
    ensures { IfOk result (λ text. text.items ≡ lost_lines number (option_map (λ l. l.pid) lost)) }
{
    match lost {
        Some(lost) => lost_line_of(alloc, number, lost),
        None => Ok(Vec::new(alloc)),
    }
}

/// The line of the break that the packet with this number is, and those of the completions that it shows.
pub(crate) fn lost_and_lines_of(
    alloc: Global,
    number: u64,
    heard: &StrictHeard,
) -> Result<Vec<u8>, AllocError>
    ensures { IfOk result (λ text. text.items ≡ lost_lines number (option_map (λ l. l.pid) heard.now.lost) ++ done_lines (map (at_packet number) heard.now.dones)) }
{
    let mut text = lost_text(alloc, number, heard.lost)?;
    let lines = lines_of(alloc, number, heard.dones.as_slice())?;
    text.extend_from_slice(&lines)?;
    Ok(text)
}

/// The line of so many bytes that were passed over before the packet with this number.
pub(crate) fn junk_line_of(alloc: Global, number: u64, count: u64) -> Result<Vec<u8>, AllocError>
    ensures { IfOk result (λ text. text.items ≡ junk_line number count) }
{
    let mut text = Vec::from_slice(alloc, b"junk")?;
    put_field(alloc, &mut text, number)?;
    put_field(alloc, &mut text, count)?;
    text.extend_from_slice(b"\n")?;
    Ok(text)
}
