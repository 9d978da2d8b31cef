// Texts that are kept.
ghost use Rattle.std.specs.Prelude.{◌≡◌, IfOk, Some, None, true, false, if◌then◌else◌, IsUtf8};
ghost use Rattle.std.specs.Str.{chars};
ghost use Rattle.std.specs.List.{list_any};
ghost use Rattle.guide_model.specs.Coding.{all_plain, coded_size};
ghost use Rattle.guide_model.specs.Control.{all_printing, is_control, has_control, is_printing};

use crate::coding::is_all_plain;
use crate::stored::Stored;
use std::alloc::{AllocError, Global};
use std::marker::Model;

/// A text without control characters (U+0000 to U+001F, U+007F to U+009F and U+E080 to U+E09F), which contracts
/// see as its UTF-8 bytes. It knows whether all its characters are of the plain set.
#[derive(Drop)]
pub struct Txt {
    stored: Stored,
}

impl Model for Txt {
    ghost use Rattle.std.specs.Prelude.{◌≡◌, List, ℕ, false};
    ghost use Rattle.guide_model.specs.Coding.{all_plain};
    ghost use Rattle.guide_model.specs.Control.{has_control};
    ghost use Rattle.guide_model.specs.Stores.{stored_bytes, stored_plain};

    ghost Value = { List ℕ };

    ghost view = { λ t. stored_bytes t.stored };

    ghost invariant = { λ t. (has_control (stored_bytes t.stored) ≡ false) × (stored_plain t.stored ≡ all_plain (stored_bytes t.stored)) };
}

impl Txt {
    /// The text, or `None` exactly where it has a control character.
    pub fn of(alloc: Global, text: &str) -> Result<Option<Txt>, AllocError>
        ensures { IfOk result (λ made. made ≡ (if has_control text.now then None else Some text.now)) }
    {
        if has_control(text) {
            return Ok(None);
        }
        Ok(Some(Txt::of_kept(alloc, text)?))
    }

    /// The text, which is known to have no control character: for these it is not looked at again.
    pub fn of_kept(alloc: Global, text: &str) -> Result<Txt, AllocError>
        requires { has_control text.now ≡ false }
        ensures { IfOk result (λ made. made ≡ text.now) }
    {
        let is_plain = is_all_plain(text.as_bytes());
        let stored = Stored::own(alloc, text, is_plain)?;
        Ok(Txt { stored })
    }

    /// The text, which is known to be all of the plain set: it is not looked at. A long one is stored as its first copy
    /// would be.
    pub fn of_plain(alloc: Global, text: &str) -> Result<Txt, AllocError>
        requires { all_plain text.now ≡ true }
        ensures { IfOk result (λ made. made ≡ text.now) }
    {
        let stored = Stored::for_copies(alloc, text, true)?;
        Ok(Txt { stored })
    }

    /// A copy. Copies of a long text share its bytes.
    pub fn copy(&self) -> Result<Txt, AllocError>
        ensures { IfOk result (λ copy. copy ≡ self.now) }
    {
        let stored = self.stored.copy()?;
        Ok(Txt { stored })
    }

    /// Whether all its characters are of the plain set. It looks at none of them.
    pub fn is_plain(&self) -> bool
        ensures { result ≡ all_plain self.now }
    {
        self.stored.is_plain()
    }

    /// The number of bytes that it is coded as. It looks at no character.
    pub fn coded_len(&self) -> usize
        ensures { result ≡ coded_size self.now }
    {
        let len = self.stored.as_str().len();
        if self.stored.is_plain() { len } else { 1 + len }
    }

    /// The text.
    pub fn as_str(&self) -> &str
        ensures value { result.now ≡ self.now }
        ensures clean { has_control self.now ≡ false }
        ensures utf8 { IsUtf8 self.now }
    {
        self.stored.as_str()
    }
}

fn is_control_char(c: char) -> bool
    ensures { result ≡ is_control c }
{
    matches!(c, '\0'..='\u{1F}' | '\u{7F}'..='\u{9F}' | '\u{E080}'..='\u{E09F}')
}

fn is_printing_byte(b: u8) -> bool
    ensures { result ≡ is_printing b }
{
    matches!(b, 0x20..=0x7E)
}

fn is_all_printing(bytes: &[u8]) -> bool
    ensures { result ≡ all_printing bytes.now }
{
    bytes.iter().all(|b| is_printing_byte(*b))
}

/// Whether a text has a control character. It takes no memory.
pub fn has_control(text: &str) -> bool
    ensures { result ≡ has_control text.now }
{
    // the characters of other texts are decoded
    if is_all_printing(text.as_bytes()) {
        return false;
    }
    text.chars().any(
        |c: char| -> bool
            ensures { result ≡ is_control c }
        { is_control_char(c) },
    )
}
