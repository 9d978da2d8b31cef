// The coded form of a text, without a copy of it.
ghost use Rattle.std.specs.Prelude.{◌≡◌, ◌+◌, ◌<◌, [], length, IfOk};
ghost use Rattle.si_base.specs.Room.{Appended, HasRoom};
ghost use Rattle.guide_model.specs.Coding.{coded_text};
ghost use Rattle.guide_model.specs.Decoding.{shown_bytes};
ghost use Rattle.guide_model.specs.declared.shown.Shown.TheVariants.{Text};
ghost use Rattle.descriptors.specs.Lengths.{with_length};

use guide_model::{Shown, Txt, coded_len};
use si_base::put;
use std::alloc::{AllocError, Global};
use std::marker::Model;

/// The first byte of a text in UTF-8 (EN 300 468, annex A, table A.3).
const UTF8: u8 = 0x15;

/// The bytes of a coded text, which contracts see as their list.
#[derive(Drop)]
pub struct Coded<'a> {
    is_utf8: bool,
    bytes: &'a [u8],
}

impl<'a> Model for Coded<'a> {
    ghost use Rattle.std.specs.Prelude.{List, ℕ, ◌∷◌, if◌then◌else◌};

    ghost Value = { List ℕ };

    ghost view = { λ c. (if c.is_utf8 then 0x15 ∷ c.bytes.now else c.bytes.now) };
}

impl<'a> Coded<'a> {
    /// The bytes that a text is coded as.
    pub fn of_text(text: &'a str) -> Coded<'a>
        ensures { result ≡ coded_text text.now }
    {
        Coded {
            is_utf8: coded_len(text) != text.len(),
            bytes: text.as_bytes(),
        }
    }

    /// The bytes that a kept text is coded as. It looks at none of its characters.
    pub fn of_txt(text: &'a Txt) -> Coded<'a>
        ensures { result ≡ coded_text text.now }
    {
        Coded {
            is_utf8: !text.is_plain(),
            bytes: text.as_str().as_bytes(),
        }
    }

    /// These bytes, which are coded.
    pub fn of_bytes(bytes: &'a [u8]) -> Coded<'a>
        ensures { result ≡ bytes.now }
    {
        Coded {
            is_utf8: false,
            bytes,
        }
    }

    /// The bytes of what is shown.
    pub fn of_shown(shown: &'a Shown) -> Coded<'a>
        ensures { result ≡ shown_bytes shown.now }
    {
        match shown {
            Shown::Text(text) => Coded::of_txt(text),
            Shown::Hex(bytes) => Coded::of_bytes(bytes.as_slice()),
        }
    }

    /// How many they are.
    pub fn len(&self) -> usize
        ensures { result ≡ length self.now }
    {
        if self.is_utf8 {
            1 + self.bytes.len()
        } else {
            self.bytes.len()
        }
    }

    /// Appends them to a buffer that has room.
    pub fn put(&self, out: &mut Vec<u8>)
        requires room { HasRoom out.old (length self.now) }
        ensures { Appended out.old out.new self.now }
    {
        if self.is_utf8 {
            put(out, &[UTF8]);
        }
        put(out, self.bytes);
    }

    /// Appends their length and them to a buffer that has room. They are at most 255.
    pub fn put_with_length(&self, out: &mut Vec<u8>)
        requires length { length self.now < 256 }
        requires room { HasRoom out.old (1 + length self.now) }
        ensures { Appended out.old out.new (with_length self.now) }
    {
        put(out, &[self.len() as u8]);
        self.put(out);
    }
}

/// The empty text, for a text that no descriptor tells.
pub fn no_text(alloc: Global) -> Result<Shown, AllocError>
    ensures { IfOk result (λ shown. shown ≡ Text []) }
{
    Ok(Shown::Text(Txt::of_kept(alloc, "")?))
}
