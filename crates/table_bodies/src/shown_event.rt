// What the descriptors of an event show.
ghost use Rattle.std.specs.Prelude.{◌≡◌, ◌==◌, ◌&&◌, [], bytes_eq, slice_index, IfOk, OnOk};
ghost use Rattle.guide_model.specs.declared.shown.Shown.TheVariants.{Text, Hex};
ghost use Rattle.std.specs.List.{concat};
ghost use Rattle.descriptors.specs.ShortEvent.{short_event_in};
ghost use Rattle.descriptors.specs.Content.{content_in};
ghost use Rattle.descriptors.specs.ParentalRating.{is_one_rating, parental_rating_in};
ghost use Rattle.descriptors.specs.ExtendedEvent.{extended_event_in};
ghost use Rattle.descriptors.specs.First.{always, without_first};
ghost use Rattle.table_bodies.specs.ShownEvent.{short_of, genres_of, rating_of, pieces_in, joined};
ghost use Rattle.table_bodies.specs.ShownEvent.{is_in_language, is_plain_piece, without_pieces};

use descriptors::descriptor_kinds::{Content, ParentalRating, ShortText};
use descriptors::{
    ShortEvent, behind_length, no_text, read_extended_event, split_length, take_first,
};
use guide_model::{Genres, Rating, RawDesc, Shown, Txt, decode_text};
use si_base::{Bytes, Items};
use std::alloc::{AllocError, Global};

/// The first short_event, which is taken out of the list; without one the language is und and both texts are empty.
pub(crate) fn take_short(alloc: Global, descs: &mut Vec<RawDesc>) -> Result<ShortEvent, AllocError>
    ensures event { IfOk result (λ event. event ≡ short_of descs.old.items) }
    ensures rest { OnOk result (descs.new.items ≡ without_first 0x4D short_event_in always descs.old.items) }
{
    if let Some(event) = take_first::<ShortText>(alloc, descs)? {
        return Ok(event);
    }
    Ok(ShortEvent {
        language: *b"und",
        name: no_text(alloc)?,
        short: no_text(alloc)?,
    })
}

/// The genres of the first content, which is taken out of the list.
pub(crate) fn take_genres(alloc: Global, descs: &mut Vec<RawDesc>) -> Result<Genres, AllocError>
    ensures genres { IfOk result (λ genres. genres ≡ genres_of descs.old.items) }
    ensures rest { OnOk result (descs.new.items ≡ without_first 0x54 content_in always descs.old.items) }
{
    match take_first::<Content>(alloc, descs)? {
        Some(genres) => Ok(genres),
        None => Ok(Genres::new(alloc)),
    }
}

/// The first rating of the first parental_rating, which is taken out of the list where it has no other.
pub(crate) fn take_rating(
    alloc: Global,
    descs: &mut Vec<RawDesc>,
) -> Result<Option<Rating>, AllocError>
    ensures rating { IfOk result (λ rating. rating ≡ rating_of descs.old.items) }
    ensures rest { OnOk result (descs.new.items ≡ without_first 0x55 parental_rating_in is_one_rating descs.old.items) }
{
    match take_first::<ParentalRating>(alloc, descs)? {
        Some(ratings) => Ok(ratings.as_slice().first().copied()),
        None => Ok(None),
    }
}

// Whether two codes of three letters are the same.
fn same_code(a: &[u8; 3], b: &[u8; 3]) -> bool
    ensures { result ≡ bytes_eq a.now b.now }
{
    a.as_slice() == b.as_slice()
}

/// The extended text in this language.
pub(crate) fn extended_of(
    alloc: Global,
    language: &[u8; 3],
    descs: &[RawDesc],
) -> Result<Shown, AllocError>
    ensures { IfOk result (λ shown. shown ≡ joined (pieces_in language.now descs.now)) }
{
    let pieces = pieces_in(alloc, language, descs)?;
    joined(alloc, pieces.as_slice())
}

// The coded texts of the pieces in this language, in the order in which they stand.
fn pieces_in(alloc: Global, language: &[u8; 3], descs: &[RawDesc]) -> Result<Vec<Bytes>, AllocError>
    ensures { IfOk result (λ pieces. pieces.items ≡ pieces_in language.now descs.now) }
{
    let mut pieces = Vec::new(alloc);
    for desc in descs {
        if desc.tag == 0x4E {
            if let Some(piece) = read_extended_event(alloc, desc.body.as_slice())? {
                if same_code(&piece.language, language) {
                    pieces.push(piece.text)?;
                }
            }
        }
    }
    Ok(pieces)
}

// The texts of pieces one after the other, or all their coded bytes where one is shown as Hex.
fn joined(alloc: Global, pieces: &[Bytes]) -> Result<Shown, AllocError>
    ensures { IfOk result (λ shown. shown ≡ joined pieces.now) }
{
    let mut text = String::new(alloc);
    for piece in pieces {
        match decode_text(alloc, piece.as_slice())? {
            Shown::Text(piece) => text.push_str(piece.as_str())?,
            Shown::Hex(_) => return all_bytes(alloc, pieces),
        }
    }
    // what kept texts join to has no control character either
    Ok(Shown::Text(Txt::of_kept(alloc, text.as_str())?))
}

// All bytes of pieces as Hex.
fn all_bytes(alloc: Global, pieces: &[Bytes]) -> Result<Shown, AllocError>
    ensures { IfOk result (λ shown. shown ≡ Hex (concat pieces.now)) }
{
    let mut bytes = Vec::new(alloc);
    for piece in pieces {
        bytes.extend_from_slice(piece.as_slice())?;
    }
    Ok(Shown::Hex(Items::of(bytes)))
}

// Whether a body is that of a piece in this language.
fn is_in_language(language: &[u8; 3], body: &[u8]) -> bool
    ensures { result ≡ is_in_language language.now (extended_event_in body.now) }
{
    let [_numbers, a, b, c, behind @ ..] = body else {
        return false;
    };
    let Some((_items, behind)) = split_length(behind) else {
        return false;
    };
    behind_length(behind).is_some() && same_code(&[*a, *b, *c], language)
}

// Whether a descriptor is a piece in this language without items.
fn is_plain_piece(language: &[u8; 3], desc: &RawDesc) -> bool
    ensures { result ≡ is_plain_piece language.now desc.now }
{
    let body = desc.body.as_slice();
    desc.tag == 0x4E && has_no_items(body) && is_in_language(language, body)
}

// Whether length_of_items is 0, or missing, as in no piece.
fn has_no_items(body: &[u8]) -> bool
    ensures { result ≡ (slice_index body.now 4 == 0) }
{
    match body.get(4) {
        Some(length) => *length == 0,
        None => true,
    }
}

/// Takes out of the list the pieces in this language without items, where their text is shown as text.
pub(crate) fn without_pieces(language: &[u8; 3], extended: &Shown, descs: &mut Vec<RawDesc>)
    ensures { descs.new.items ≡ without_pieces language.now extended.now descs.old.items }
{
    if let Shown::Text(_) = extended {
        descs.retain(|desc| !is_plain_piece(language, desc));
    }
}
