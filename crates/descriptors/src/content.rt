// content_descriptor.
ghost use Rattle.std.specs.Prelude.{◌≡◌, ◌*◌, ◌≤◌, ◌++◌, length, IfOk, OnOk, OnErr, ◌+◌};
ghost use Rattle.std.specs.List.{All};
ghost use Rattle.si_base.specs.Room.{Appended, HasRoom};
ghost use Rattle.descriptors.specs.Content.{content, content_in, HasNibbles};

use guide_model::{Genre, Genres};
use si_base::{Items, put};
use std::alloc::{AllocError, Global};

/// descriptor_tag of a content_descriptor.
const TAG: u8 = 0x54;

/// Appends a content_descriptor (EN 300 468, 6.2.9). It needs levels below 16 and at most 127 genres, so that the
/// length fits its field. Want of memory leaves `out` unchanged.
pub fn write_content(genres: &[Genre], out: &mut Vec<u8>) -> Result<(), AllocError>
    requires levels { All HasNibbles genres.now }
    requires length { 2 * length genres.now ≤ 255 }
    ensures written { OnOk result (out.new.items ≡ out.old.items ++ content genres.now) }
    ensures memory { OnErr result (out.new.items ≡ out.old.items) }
{
    out.reserve(2 + 2 * genres.len())?;
    put_content(genres, out);
    Ok(())
}

/// Appends it to a buffer that has room for it.
pub(crate) fn put_content(genres: &[Genre], out: &mut Vec<u8>)
    requires levels { All HasNibbles genres.now }
    requires length { 2 * length genres.now ≤ 255 }
    requires room { HasRoom out.old (2 + 2 * length genres.now) }
    ensures { Appended out.old out.new (content genres.now) }
{
    put(out, &[TAG, 2 * genres.len() as u8]);
    for genre in genres {
        put(out, &[16 * genre.level1 + genre.level2, genre.user]);
    }
}

/// The genres of the body of a content_descriptor, or `None` exactly where it ends within an entry
/// (EN 300 468, 6.2.9).
pub fn read_content(alloc: Global, body: &[u8]) -> Result<Option<Genres>, AllocError>
    ensures { IfOk result (λ read. read ≡ content_in body.now) }
{
    let mut genres = Vec::with_capacity(alloc, body.len() / 2)?;
    let mut rest = body;
    while let [levels, user, behind @ ..] = rest {
        genres.push(Genre {
            level1: levels / 16,
            level2: levels % 16,
            user: *user,
        })?;
        rest = behind;
    }
    if !rest.is_empty() {
        return Ok(None);
    }
    Ok(Some(Items::of(genres)))
}
