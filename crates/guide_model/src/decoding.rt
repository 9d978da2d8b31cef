// What the bytes of a coded text are shown as.
ghost use Rattle.std.specs.Prelude.{◌≡◌, ℕ, List, IfOk, MatchOption, Some, None, true, false};
ghost use Rattle.std.specs.Str.{is_utf8};
ghost use Rattle.guide_model.specs.Coding.{coded_text};
ghost use Rattle.guide_model.specs.Decoding.{IsKept, IsAsDecoded, decoded, text_in};
ghost use Rattle.guide_model.specs.declared.shown.Shown.TheVariants.{Text};

use crate::coding::{UTF8, is_all_plain};
use crate::shown::Shown;
use crate::txt::Txt;
use si_base::Bytes;
use std::alloc::{AllocError, Global};

/// What the bytes are shown as: no byte is the empty text, bytes of the plain set are that text, and behind the byte
/// 0x15 UTF-8 without a control character is that text. Everything else is Hex of all the bytes (EN 300 468, annex A).
pub fn decode_text(alloc: Global, bytes: &[u8]) -> Result<Shown, AllocError>
    ensures { IfOk result (λ shown. shown ≡ decoded bytes.now) }
{
    if let Some(text) = text_in(bytes) {
        if let Some(text) = Txt::of(alloc, text)? {
            return Ok(Shown::Text(text));
        }
    }
    Ok(Shown::Hex(Bytes::of(Vec::from_slice(alloc, bytes)?)))
}

// The text that the bytes are a form of; it may have control characters.
fn text_in(bytes: &[u8]) -> Option<&str>
    ensures { MatchOption result (text_in bytes.now ≡ None) (λ text. text_in bytes.now ≡ Some text.now) }
{
    if is_all_plain(bytes) {
        return utf8_in(bytes);
    }
    match bytes.split_first() {
        Some((&UTF8, text)) => utf8_in(text),
        _ => None,
    }
}

fn utf8_in(bytes: &[u8]) -> Option<&str>
    ensures { MatchOption result (is_utf8 bytes.now ≡ false) (λ text. (is_utf8 bytes.now ≡ true) × (text.now ≡ bytes.now)) }
{
    str::from_utf8(bytes).ok()
}

/// What was encoded from a text that may be kept decodes to Text of it. What is shown, encoded again, is shown the same.
pub fn coded_texts_decode()
    ensures text { (text : List ℕ) → IsKept text → decoded (coded_text text) ≡ Text text }
    ensures again { (bytes : List ℕ) → IsAsDecoded (decoded bytes) }
{}
