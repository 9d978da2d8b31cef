// ISO_639_language_descriptor.
ghost use Rattle.std.specs.Prelude.{◌≡◌, ◌*◌, ◌≤◌, ◌++◌, length, IfOk, OnOk, OnErr, ◌+◌};
ghost use Rattle.si_base.specs.Room.{Appended, HasRoom};
ghost use Rattle.descriptors.specs.Languages.{iso_639_language, languages_in};

use si_base::{Items, put};
use std::alloc::{AllocError, Global};

/// Language codes of three letters (ISO 639-2), in the order in which they stand.
pub type Languages = Items<[u8; 3]>;

/// descriptor_tag of an ISO_639_language_descriptor.
const TAG: u8 = 0x0A;

/// Appends an ISO_639_language_descriptor whose entries have audio_type 0 (ISO/IEC 13818-1, 2.6.18). It needs at most 63 languages,
/// so that the length fits its field. Want of memory leaves `out` unchanged.
pub fn write_iso_639_language(languages: &[[u8; 3]], out: &mut Vec<u8>) -> Result<(), AllocError>
    requires { 4 * length languages.now ≤ 255 }
    ensures written { OnOk result (out.new.items ≡ out.old.items ++ iso_639_language languages.now) }
    ensures memory { OnErr result (out.new.items ≡ out.old.items) }
{
    out.reserve(2 + 4 * languages.len())?;
    put_languages(languages, out);
    Ok(())
}

// Appends it to a buffer that has room for it.
fn put_languages(languages: &[[u8; 3]], out: &mut Vec<u8>)
    requires length { 4 * length languages.now ≤ 255 }
    requires room { HasRoom out.old (2 + 4 * length languages.now) }
    ensures { Appended out.old out.new (iso_639_language languages.now) }
{
    put(out, &[TAG, 4 * languages.len() as u8]);
    for language in languages {
        put(out, language);
        put(out, &[0]);
    }
}

/// The languages of the body of an ISO_639_language_descriptor, or `None` exactly where it ends within an entry. audio_type may have
/// any value (ISO/IEC 13818-1, 2.6.18).
pub fn read_iso_639_language(alloc: Global, body: &[u8]) -> Result<Option<Languages>, AllocError>
    ensures { IfOk result (λ read. read ≡ languages_in body.now) }
{
    let mut languages = Vec::with_capacity(alloc, body.len() / 4)?;
    let mut rest = body;
    while let [a, b, c, _, behind @ ..] = rest {
        languages.push([*a, *b, *c])?;
        rest = behind;
    }
    if !rest.is_empty() {
        return Ok(None);
    }
    Ok(Some(Items::of(languages)))
}
