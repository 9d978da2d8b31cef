// The text of a guide of parts.
ghost use Rattle.std.specs.Prelude.{◌≡◌, ◌++◌, IfOk, OnOk, OnErr};
ghost use Rattle.guide_parts.specs.PartTexts.{part_text, part_text_with};

use crate::PartGuide;
use crate::screen::put_part_screen;
use guide_text::put_needs;
use std::alloc::{AllocError, Global};

// The text of a guide of parts in a list of its own.
fn text_of(alloc: Global, details: bool, guide: &PartGuide) -> Result<Vec<u8>, AllocError>
    ensures { IfOk result (λ text. text.items ≡ part_text_with details guide.now) }
{
    let mut text = Vec::new(alloc);
    put_needs(alloc, &mut text, guide.wanting.as_slice())?;
    put_part_screen(alloc, &mut text, details, &guide.shown)?;
    text.extend_from_slice(b"end\n")?;
    Ok(text)
}

/// Appends the text of a guide of parts: a line `wanting` for each need, and then the lines of what
/// was heard, in the order of a whole guide: `clock`, `local` for each offset, `network`, `stream`,
/// `cable`, and of each service `service`, `component`, `now`, `next` and `event`; then those of other
/// streams, and the line `end`.
///
/// What was not heard has no line, and in a line an empty field: without a TDT there is no `clock`
/// and no `local`, without a NIT no `network` and no `cable`, without SDT, PAT and EIT no `stream`.
/// The fields are written as those of a whole guide (EN 300 468, 5.2). Want of memory leaves `out`
/// with what it had.
pub fn print_parts(alloc: Global, guide: &PartGuide, out: &mut Vec<u8>) -> Result<(), AllocError>
    ensures text { OnOk result (out.new.items ≡ out.old.items ++ part_text guide.now) }
    ensures kept { OnErr result (out.new.items ≡ out.old.items) }
{
    print_parts_with(alloc, false, guide, out)
}

/// Appends the text of a guide of parts, with details or without: as `print_parts`, and with details
/// also the lines that `guide_text::print_heard_with` says. Want of memory leaves `out` with what it
/// had.
pub fn print_parts_with(
    alloc: Global,
    details: bool,
    guide: &PartGuide,
    out: &mut Vec<u8>,
) -> Result<(), AllocError>
    ensures text { OnOk result (out.new.items ≡ out.old.items ++ part_text_with details guide.now) }
    ensures kept { OnErr result (out.new.items ≡ out.old.items) }
{
    let text = text_of(alloc, details, guide)?;
    out.extend_from_slice(&text)
}
