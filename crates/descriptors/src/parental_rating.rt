// parental_rating_descriptor.
ghost use Rattle.std.specs.Prelude.{◌≡◌, ◌*◌, ◌≤◌, ◌++◌, length, IfOk, OnOk, OnErr, ◌+◌};
ghost use Rattle.si_base.specs.Room.{Appended, HasRoom};
ghost use Rattle.descriptors.specs.ParentalRating.{parental_rating, parental_rating_in};

use guide_model::Rating;
use si_base::{Items, put};
use std::alloc::{AllocError, Global};

/// Ratings in the order in which they stand.
pub type Ratings = Items<Rating>;

/// descriptor_tag of a parental_rating_descriptor.
const TAG: u8 = 0x55;

/// Appends a parental_rating_descriptor (EN 300 468, 6.2.28). It needs at most 63 ratings, so that the length fits
/// its field. Want of memory leaves `out` unchanged.
pub fn write_parental_rating(ratings: &[Rating], out: &mut Vec<u8>) -> Result<(), AllocError>
    requires { 4 * length ratings.now ≤ 255 }
    ensures written { OnOk result (out.new.items ≡ out.old.items ++ parental_rating ratings.now) }
    ensures memory { OnErr result (out.new.items ≡ out.old.items) }
{
    out.reserve(2 + 4 * ratings.len())?;
    put_parental_rating(ratings, out);
    Ok(())
}

/// Appends it to a buffer that has room for it.
pub(crate) fn put_parental_rating(ratings: &[Rating], out: &mut Vec<u8>)
    requires length { 4 * length ratings.now ≤ 255 }
    requires room { HasRoom out.old (2 + 4 * length ratings.now) }
    ensures { Appended out.old out.new (parental_rating ratings.now) }
{
    put(out, &[TAG, 4 * ratings.len() as u8]);
    for rating in ratings {
        put(out, &rating.country);
        put(out, &[rating.value]);
    }
}

/// The ratings of the body of a parental_rating_descriptor, or `None` exactly where it ends within an entry
/// (EN 300 468, 6.2.28).
pub fn read_parental_rating(alloc: Global, body: &[u8]) -> Result<Option<Ratings>, AllocError>
    ensures { IfOk result (λ read. read ≡ parental_rating_in body.now) }
{
    let mut ratings = Vec::with_capacity(alloc, body.len() / 4)?;
    let mut rest = body;
    while let [a, b, c, value, behind @ ..] = rest {
        ratings.push(Rating {
            country: [*a, *b, *c],
            value: *value,
        })?;
        rest = behind;
    }
    if !rest.is_empty() {
        return Ok(None);
    }
    Ok(Some(Items::of(ratings)))
}
