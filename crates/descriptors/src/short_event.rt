// short_event_descriptor.
ghost use Rattle.std.specs.Prelude.{◌≡◌, ◌+◌, ◌≤◌, ◌++◌, length, IfOk, OnOk, OnErr};
ghost use Rattle.si_base.specs.Room.{Appended, HasRoom};
ghost use Rattle.guide_model.specs.Decoding.{shown_bytes};
ghost use Rattle.descriptors.specs.Descriptors.{descriptor};
ghost use Rattle.descriptors.specs.ShortEvent.{short_event, short_event_fields, short_event_in};

use crate::{Coded, behind_length, split_length};
use guide_model::{Shown, decode_text};
use si_base::put;
use std::alloc::{AllocError, Global};

/// What a short_event_descriptor holds: the language of its texts (three letters), the name of the event and a short
/// text (EN 300 468, 6.2.37).
#[derive(Drop)]
pub struct ShortEvent {
    pub language: [u8; 3],
    pub name: Shown,
    pub short: Shown,
}

/// descriptor_tag of a short_event_descriptor.
const TAG: u8 = 0x4D;

/// Appends a short_event_descriptor (EN 300 468, 6.2.37). It needs texts whose bytes are at most 250 together, so
/// that the length fits its field. Want of memory leaves `out` unchanged.
pub fn write_short_event(event: &ShortEvent, out: &mut Vec<u8>) -> Result<(), AllocError>
    requires { length (shown_bytes event.now.name) + length (shown_bytes event.now.short) ≤ 250 }
    ensures written { OnOk result (out.new.items ≡ out.old.items ++ short_event event.now) }
    ensures memory { OnErr result (out.new.items ≡ out.old.items) }
{
    let name = Coded::of_shown(&event.name);
    let short = Coded::of_shown(&event.short);
    out.reserve(short_event_len(&event.language, &name, &short))?;
    put_short_event(&event.language, &name, &short, out);
    Ok(())
}

/// How many bytes a short_event_descriptor has.
pub(crate) fn short_event_len(language: &[u8; 3], name: &Coded, text: &Coded) -> usize
    requires { length name.now + length text.now ≤ 250 }
    ensures size { result ≡ length (descriptor 0x4D (short_event_fields language.now name.now text.now)) }
    ensures at_most { result ≤ 257 }
{
    4 + language.len() + name.len() + text.len()
}

/// Appends a short_event_descriptor to a buffer that has room for it.
pub(crate) fn put_short_event(language: &[u8; 3], name: &Coded, text: &Coded, out: &mut Vec<u8>)
    requires length { length name.now + length text.now ≤ 250 }
    requires room { HasRoom out.old (length (descriptor 0x4D (short_event_fields language.now name.now text.now))) }
    ensures { Appended out.old out.new (descriptor 0x4D (short_event_fields language.now name.now text.now)) }
{
    put(out, &[TAG, (5 + name.len() + text.len()) as u8]);
    put(out, language);
    name.put_with_length(out);
    text.put_with_length(out);
}

/// The short_event of the body of a short_event_descriptor, or `None` exactly where a length runs past the end or
/// bytes are left over (EN 300 468, 6.2.37).
pub fn read_short_event(alloc: Global, body: &[u8]) -> Result<Option<ShortEvent>, AllocError>
    ensures { IfOk result (λ read. read ≡ short_event_in body.now) }
{
    let [a, b, c, texts @ ..] = body else {
        return Ok(None);
    };
    let Some((name, behind)) = split_length(texts) else {
        return Ok(None);
    };
    let Some(short) = behind_length(behind) else {
        return Ok(None);
    };
    Ok(Some(ShortEvent {
        language: [*a, *b, *c],
        name: decode_text(alloc, name)?,
        short: decode_text(alloc, short)?,
    }))
}
