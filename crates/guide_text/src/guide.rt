// The text of a guide.
ghost use Rattle.std.specs.Prelude.{◌≡◌, ◌++◌, IfOk, OnOk, OnErr};
ghost use Rattle.guide_text.specs.Guides.{guide_text, guide_text_with};

use crate::need::put_needs;
use crate::screen::put_screen;
use guide_screen::Heard;
use std::alloc::{AllocError, Global};

// The text of a guide in a list of its own.
fn text_of(alloc: Global, details: bool, heard: &Heard) -> Result<Vec<u8>, AllocError>
    ensures { IfOk result (λ text. text.items ≡ guide_text_with details heard.now) }
{
    let mut text = Vec::new(alloc);
    match heard {
        Heard::Whole(screen) => put_screen(alloc, &mut text, details, screen)?,
        Heard::Wanting(needs) => put_needs(alloc, &mut text, needs.as_slice())?,
    }
    text.extend_from_slice(b"end\n")?;
    Ok(text)
}

/// Appends the text of a guide: of a whole screen the lines `clock`, `local` for each offset,
/// `network`, `stream`, `cable` where it is told, and of each service `service`, `component`,
/// `now`, `next` and `event`; otherwise a line `wanting` for each need. Then the line `end`.
///
/// The fields of a line stand behind tabs. A number is decimal, a text as it is, and bytes that are
/// no text are `hex:` and two lower-case digits a byte; so are three-byte codes that are not of
/// letters. What is missing is an empty field. So is a moment that 16 bits of days can't say, and a
/// duration of 100 hours or more, which no section carries (EN 300 468, 5.2.4 and annex C). Want of
/// memory leaves `out` with what it had.
pub fn print_heard(alloc: Global, heard: &Heard, out: &mut Vec<u8>) -> Result<(), AllocError>
    ensures text { OnOk result (out.new.items ≡ out.old.items ++ guide_text heard.now) }
    ensures kept { OnErr result (out.new.items ≡ out.old.items) }
{
    print_heard_with(alloc, false, heard, out)
}

/// Appends the text of a guide, with details or without. With details each line `network`, `service`,
/// `component`, `now`, `next`, `event`, `other` and `remote`, and the lines `stream` and `cable`, are
/// followed by a line `descriptor` for each descriptor that they do not show whole, in the order in
/// which these stand: its tag, its length and its body, two lower-case digits a byte (EN 300 468,
/// 6.1). Those of the program of a service follow with the word `program`. Want of memory leaves
/// `out` with what it had.
pub fn print_heard_with(
    alloc: Global,
    details: bool,
    heard: &Heard,
    out: &mut Vec<u8>,
) -> Result<(), AllocError>
    ensures text { OnOk result (out.new.items ≡ out.old.items ++ guide_text_with details heard.now) }
    ensures kept { OnErr result (out.new.items ≡ out.old.items) }
{
    let text = text_of(alloc, details, heard)?;
    out.extend_from_slice(&text)
}
