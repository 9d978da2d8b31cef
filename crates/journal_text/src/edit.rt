// The lines of an edit.
ghost use Rattle.std.specs.Prelude.{◌≡◌, ◌++◌, ◌∷◌, OnOk, IfOk, codes, decimal, flat_map};
ghost use Rattle.guide_model.specs.Genres.{genres_text};
ghost use Rattle.script_lines.specs.EditFields.{country_field, edit_fields, further_fields, item_fields, rating_field};
ghost use Rattle.journal_text.specs.Lines.{and_field, and_fields, item_text, items_of, IsOpenFor};

use crate::line::LineWriter;
use guide_model::{Genre, RawDesc, put_descriptors, put_genres};
use journal_model::{Edit, Item, RawRating};
use std::alloc::{AllocError, Global};

// Genres with a space between.
fn text_of_genres(alloc: Global, genres: &[Genre]) -> Result<Vec<u8>, AllocError>
    ensures { IfOk result (λ text. text.items ≡ genres_text genres.now) }
{
    let mut text = Vec::new(alloc);
    put_genres(alloc, &mut text, genres)?;
    Ok(text)
}

fn country_of(rating: &Option<RawRating>) -> &[u8]
    ensures { result.now ≡ country_field rating.now }
{
    match rating {
        Some(rating) => rating.country.as_str().as_bytes(),
        None => b"",
    }
}

// Adds the value of a rating, or an empty field.
fn add_value(
    alloc: Global,
    row: &mut LineWriter,
    rating: &Option<RawRating>,
) -> Result<(), AllocError>
    requires { IsOpenFor 0 row.old }
    ensures { OnOk result (row.new ≡ and_field row.old (rating_field rating.now)) }
{
    match rating {
        Some(rating) => row.number(alloc, u64::from(rating.value)),
        None => row.field(b""),
    }
}

// Adds the text of further descriptors, where there are some.
fn add_further(alloc: Global, row: &mut LineWriter, descs: &[RawDesc]) -> Result<(), AllocError>
    requires { IsOpenFor 0 row.old }
    ensures { OnOk result (row.new ≡ and_fields row.old (further_fields descs.now)) }
{
    if descs.is_empty() {
        return Ok(());
    }
    let mut text = Vec::new(alloc);
    put_descriptors(alloc, &mut text, descs)?;
    row.field(&text)
}

// Adds the fields of an item.
fn add_item(alloc: Global, row: &mut LineWriter, item: &Item) -> Result<(), AllocError>
    requires { IsOpenFor 12 row.old }
    ensures { OnOk result (row.new ≡ and_fields row.old (item_fields item.now)) }
{
    row.number(alloc, u64::from(item.id))?;
    row.field(&item.start.0)?;
    row.field(&item.length.0)?;
    row.field(item.language.as_str().as_bytes())?;
    row.field(item.name.as_str().as_bytes())?;
    row.field(item.short.as_str().as_bytes())?;
    row.field(item.extended.as_str().as_bytes())?;
    row.field(country_of(&item.rating))?;
    add_value(alloc, row, &item.rating)?;
    let genres = text_of_genres(alloc, item.genres.as_slice())?;
    row.field(&genres)?;
    add_further(alloc, row, item.descriptors.as_slice())
}

// Appends the line of an item of a day.
fn put_item(alloc: Global, out: &mut Vec<u8>, item: &Item) -> Result<(), AllocError>
    ensures { OnOk result (out.new.items ≡ out.old.items ++ item_text item.now) }
{
    let mut row = LineWriter::open(alloc);
    row.field(b"item")?;
    add_item(alloc, &mut row, item)?;
    row.end(out)
}

/// Appends the lines of items.
pub(crate) fn put_items(alloc: Global, out: &mut Vec<u8>, items: &[Item]) -> Result<(), AllocError>
    ensures { OnOk result (out.new.items ≡ out.old.items ++ flat_map item_text items.now) }
{
    for item in items {
        put_item(alloc, out, item)?;
    }
    Ok(())
}

/// The items of a day; of another edit none.
pub(crate) fn items_of(edit: &Edit) -> &[Item]
    ensures { result.now ≡ items_of edit.now }
{
    match edit {
        Edit::Day(_, _, items) => items.as_slice(),
        _ => &[],
    }
}

// Adds the fields of a put.
fn add_put(alloc: Global, row: &mut LineWriter, service: u16, item: &Item) -> Result<(), AllocError>
    requires { IsOpenFor 20 row.old }
    ensures { OnOk result (row.new ≡ and_fields row.old (codes "put" ∷ decimal service ∷ item_fields item.now)) }
{
    row.field(b"put")?;
    row.number(alloc, u64::from(service))?;
    add_item(alloc, row, item)
}

/// Adds the fields of an edit.
pub(crate) fn add_edit(alloc: Global, row: &mut LineWriter, edit: &Edit) -> Result<(), AllocError>
    requires { IsOpenFor 20 row.old }
    ensures { OnOk result (row.new ≡ and_fields row.old (edit_fields edit.now)) }
{
    match edit {
        Edit::Put(service, item) => add_put(alloc, row, *service, item),
        Edit::Withdraw(service, event) => {
            row.field(b"withdraw")?;
            row.number(alloc, u64::from(*service))?;
            row.number(alloc, u64::from(*event))
        }
        Edit::Clear(service) => {
            row.field(b"clear")?;
            row.number(alloc, u64::from(*service))
        }
        Edit::Name(service, provider, name) => {
            row.field(b"name")?;
            row.number(alloc, u64::from(*service))?;
            row.field(provider.as_str().as_bytes())?;
            row.field(name.as_str().as_bytes())
        }
        Edit::Day(service, day, items) => {
            row.field(b"day")?;
            row.number(alloc, u64::from(*service))?;
            row.field(&day.0)?;
            row.number(alloc, items.len() as u64)
        }
    }
}
