// Genres.
ghost use Rattle.std.specs.Prelude.{◌≡◌, ◌++◌, OnOk};
ghost use Rattle.guide_model.specs.Genres.{genre_text, genres_text};

use crate::Genre;
use si_base::put_number;
use std::alloc::{AllocError, Global};

// Appends a genre: its two levels and its user byte, with points between.
fn put_genre(alloc: Global, out: &mut Vec<u8>, genre: Genre) -> Result<(), AllocError>
    ensures { OnOk result (out.new.items ≡ out.old.items ++ genre_text genre) }
{
    put_number(alloc, out, u64::from(genre.level1))?;
    out.extend_from_slice(b".")?;
    put_number(alloc, out, u64::from(genre.level2))?;
    out.extend_from_slice(b".")?;
    put_number(alloc, out, u64::from(genre.user))
}

/// Appends genres with single spaces between, each by its two levels and its user byte with points between, as in `1.2.0 3.4.255`
/// (EN 300 468, 6.2.9). Of no genres it appends nothing.
pub fn put_genres(alloc: Global, out: &mut Vec<u8>, genres: &[Genre]) -> Result<(), AllocError>
    ensures { OnOk result (out.new.items ≡ out.old.items ++ genres_text genres.now) }
{
    let Some((first, rest)) = genres.split_first() else {
        return Ok(());
    };
    put_genre(alloc, out, *first)?;
    for genre in rest {
        out.extend_from_slice(b" ")?;
        put_genre(alloc, out, *genre)?;
    }
    Ok(())
}
