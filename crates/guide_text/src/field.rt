// The fields of a line, each behind a tab.
ghost use Rattle.std.specs.Prelude.{◌≡◌, ◌++◌, ◌∷◌, IfOk, OnOk, Option, decimal};
ghost use Rattle.std.specs.Char.{is_ascii_alphabetic};
ghost use Rattle.std.specs.List.{list_all};
ghost use Rattle.guide_model.specs.Genres.{genres_text};
ghost use Rattle.guide_text.specs.Fields.{hex_text, shown_text, code_text, moment_field, duration_field, optional};

use guide_model::{Genre, Shown};
use si_base::put_number;
use si_time::{Moment, write_duration, write_moment};
use std::alloc::{AllocError, Global};

/// The seconds of 16 bits of days.
pub(crate) const WINDOW: u64 = 65_536 * 86_400;

/// The seconds of 100 hours.
const HUNDRED_HOURS: u32 = 360_000;

/// Appends a field.
pub fn put_field(out: &mut Vec<u8>, field: &[u8]) -> Result<(), AllocError>
    ensures { OnOk result (out.new.items ≡ out.old.items ++ 9 ∷ field.now) }
{
    out.extend_from_slice(b"\t")?;
    out.extend_from_slice(field)
}

/// Appends a number.
pub fn put_decimal(alloc: Global, out: &mut Vec<u8>, number: u64) -> Result<(), AllocError>
    ensures { OnOk result (out.new.items ≡ out.old.items ++ 9 ∷ decimal number) }
{
    out.extend_from_slice(b"\t")?;
    put_number(alloc, out, number)
}

/// Appends a number, or an empty field.
pub fn put_optional(alloc: Global, out: &mut Vec<u8>, number: Option<u16>) -> Result<(), AllocError>
    ensures { OnOk result (out.new.items ≡ out.old.items ++ 9 ∷ optional decimal number) }
{
    match number {
        Some(number) => put_decimal(alloc, out, u64::from(number)),
        None => put_field(out, b""),
    }
}

// Appends bytes in hexadecimal digits.
fn put_hex(alloc: Global, out: &mut Vec<u8>, bytes: &[u8]) -> Result<(), AllocError>
    ensures { OnOk result (out.new.items ≡ out.old.items ++ 9 ∷ hex_text bytes.now) }
{
    let digits = hex::encode(alloc, bytes)?;
    put_field(out, b"hex:")?;
    out.extend_from_slice(digits.as_bytes())
}

/// Appends a text, or the bytes of what is no text.
pub fn put_shown(alloc: Global, out: &mut Vec<u8>, shown: &Shown) -> Result<(), AllocError>
    ensures { OnOk result (out.new.items ≡ out.old.items ++ 9 ∷ shown_text shown.now) }
{
    match shown {
        Shown::Text(text) => put_field(out, text.as_str().as_bytes()),
        Shown::Hex(bytes) => put_hex(alloc, out, bytes.as_slice()),
    }
}

fn is_of_letters(code: &[u8]) -> bool
    ensures { result ≡ list_all is_ascii_alphabetic code.now }
{
    code.iter().all(|b| b.is_ascii_alphabetic())
}

/// Appends a three-byte code.
pub(crate) fn put_code(alloc: Global, out: &mut Vec<u8>, code: [u8; 3]) -> Result<(), AllocError>
    ensures { OnOk result (out.new.items ≡ out.old.items ++ 9 ∷ code_text code) }
{
    if is_of_letters(&code) {
        put_field(out, &code)
    } else {
        put_hex(alloc, out, &code)
    }
}

/// Appends a three-byte code, or an empty field.
pub(crate) fn put_optional_code(
    alloc: Global,
    out: &mut Vec<u8>,
    code: Option<[u8; 3]>,
) -> Result<(), AllocError>
    ensures { OnOk result (out.new.items ≡ out.old.items ++ 9 ∷ optional code_text code) }
{
    match code {
        Some(code) => put_code(alloc, out, code),
        None => put_field(out, b""),
    }
}

/// Appends a moment.
pub(crate) fn put_moment(out: &mut Vec<u8>, at: Moment) -> Result<(), AllocError>
    ensures { OnOk result (out.new.items ≡ out.old.items ++ 9 ∷ moment_field at.0) }
{
    if at.0 < WINDOW {
        put_field(out, &write_moment(at))
    } else {
        put_field(out, b"")
    }
}

/// Appends a duration.
pub(crate) fn put_duration(out: &mut Vec<u8>, seconds: u32) -> Result<(), AllocError>
    ensures { OnOk result (out.new.items ≡ out.old.items ++ 9 ∷ duration_field seconds) }
{
    if seconds < HUNDRED_HOURS {
        put_field(out, &write_duration(seconds))
    } else {
        put_field(out, b"")
    }
}

/// Appends genres.
pub(crate) fn put_genres(
    alloc: Global,
    out: &mut Vec<u8>,
    genres: &[Genre],
) -> Result<(), AllocError>
    ensures { OnOk result (out.new.items ≡ out.old.items ++ 9 ∷ genres_text genres.now) }
{
    out.extend_from_slice(b"\t")?;
    guide_model::put_genres(alloc, out, genres)
}
