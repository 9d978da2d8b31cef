// Why a line is at fault in its place.
ghost use Rattle.std.specs.Prelude.{◌≡◌, IfOk};
ghost use Rattle.script_notes.specs.Faults.{why_item_line, why_line, why_unread};
ghost use Rattle.script_notes.specs.Notings.{is_attached, told};

use crate::why::Why;
use crate::why_fields::{why_fields, why_item};
use guide_model::has_control;
use input_lines::fields;
use std::alloc::{AllocError, Global};

/// The most bytes that a line may have.
const LONGEST_LINE: usize = 16_384;

// Why no fields are asked for.
fn why_unread(line: &[u8]) -> Option<Why>
    ensures { result ≡ why_unread line.now }
{
    if line.len() > LONGEST_LINE {
        return Some(Why::TooLong);
    }
    let Ok(text) = str::from_utf8(line) else {
        return Some(Why::NotUtf8);
    };
    if has_control(text) {
        return Some(Why::ControlCharacter);
    }
    None
}

// A line that is asked for is at fault.
fn told(why: Option<Why>) -> Why
    ensures { result ≡ told why }
{
    match why {
        Some(why) => why,
        None => Why::NoItem,
    }
}

/// Why a line is at fault in place of a command; `after` says whether a command came just before.
pub(crate) fn why_of_line(alloc: Global, line: &[u8], after: bool) -> Result<Why, AllocError>
    ensures { IfOk result (λ why. why ≡ told (why_line after line.now)) }
{
    match fields(alloc, line)? {
        Some(fields) => Ok(told(why_fields(alloc, fields.as_slice(), after)?)),
        None => Ok(told(why_unread(line))),
    }
}

/// Why a line is at fault in place of an item.
pub(crate) fn why_of_item(alloc: Global, line: &[u8]) -> Result<Why, AllocError>
    ensures { IfOk result (λ why. why ≡ told (why_item_line line.now)) }
{
    match fields(alloc, line)? {
        Some(fields) => Ok(told(why_item(alloc, fields.as_slice())?)),
        None => Ok(told(why_unread(line))),
    }
}

/// Whether a line belongs to the command before it: it begins with `item` or `=`. It takes no memory.
pub(crate) fn is_attached(line: &[u8]) -> bool
    ensures { result ≡ is_attached line.now }
{
    line == b"item".as_slice()
        || line.starts_with(b"item,")
        || line == b"=".as_slice()
        || line.starts_with(b"=,")
}
