// extended_event_descriptor.
ghost use Rattle.std.specs.Prelude.{◌≡◌, ◌+◌, ◌<◌, ◌≤◌, ◌++◌, length, IfOk, OnOk, OnErr};
ghost use Rattle.si_base.specs.Room.{Appended, HasRoom};
ghost use Rattle.descriptors.specs.Descriptors.{descriptor};
ghost use Rattle.descriptors.specs.ExtendedEvent.{extended_event, extended_event_fields, extended_event_in};

use crate::{Coded, behind_length, split_length};
use si_base::{Bytes, Items, put};
use std::alloc::{AllocError, Global};

/// What an extended_event_descriptor holds: descriptor_number and last_descriptor_number (4 bits each), the language
/// (three letters) and the coded bytes of its piece of the text. Items are in no value (EN 300 468, 6.2.15).
#[derive(Drop)]
pub struct ExtendedPiece {
    pub number: u8,
    pub last: u8,
    pub language: [u8; 3],
    pub text: Bytes,
}

/// descriptor_tag of an extended_event_descriptor.
const TAG: u8 = 0x4E;

/// Appends an extended_event_descriptor without items (EN 300 468, 6.2.15). It needs numbers below 16 and a text of at
/// most 249 bytes, so that the length fits its field. Want of memory leaves `out` unchanged.
pub fn write_extended_event(piece: &ExtendedPiece, out: &mut Vec<u8>) -> Result<(), AllocError>
    requires number { piece.now.number < 16 }
    requires last { piece.now.last < 16 }
    requires length { length piece.now.text ≤ 249 }
    ensures written { OnOk result (out.new.items ≡ out.old.items ++ extended_event piece.now) }
    ensures memory { OnErr result (out.new.items ≡ out.old.items) }
{
    let text = Coded::of_bytes(piece.text.as_slice());
    out.reserve(8 + text.len())?;
    put_extended_event(piece.number, piece.last, &piece.language, &text, out);
    Ok(())
}

/// Appends an extended_event_descriptor to a buffer that has room for it.
pub(crate) fn put_extended_event(
    number: u8,
    last: u8,
    language: &[u8; 3],
    text: &Coded,
    out: &mut Vec<u8>,
)
    requires number { number < 16 }
    requires last { last < 16 }
    requires length { length text.now ≤ 249 }
    requires room { HasRoom out.old (8 + length text.now) }
    ensures { Appended out.old out.new (descriptor 0x4E (extended_event_fields number last language.now text.now)) }
{
    put(out, &[TAG, (6 + text.len()) as u8, 16 * number + last]);
    put(out, language);
    put(out, &[0]);
    text.put_with_length(out);
}

/// The piece of the body of an extended_event_descriptor, or `None` exactly where a length runs past the end or bytes
/// are left over (EN 300 468, 6.2.15).
pub fn read_extended_event(alloc: Global, body: &[u8]) -> Result<Option<ExtendedPiece>, AllocError>
    ensures { IfOk result (λ read. read ≡ extended_event_in body.now) }
{
    let [numbers, a, b, c, behind @ ..] = body else {
        return Ok(None);
    };
    let Some((_items, behind)) = split_length(behind) else {
        return Ok(None);
    };
    let Some(text) = behind_length(behind) else {
        return Ok(None);
    };
    Ok(Some(ExtendedPiece {
        number: *numbers / 16,
        last: *numbers % 16,
        language: [*a, *b, *c],
        text: Items::of(Vec::from_slice(alloc, text)?),
    }))
}
