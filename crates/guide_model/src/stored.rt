// How the bytes of a text are stored.
ghost use Rattle.std.specs.Prelude.{◌≡◌, ◌≤◌, length, IfOk};
ghost use Rattle.guide_model.specs.Stores.{stored_bytes, stored_plain};

use arrayvec::ArrayString;
use std::alloc::{AllocError, Global};
use std::sync::Arc;

/// Most bytes of a text that is stored in place.
const SHORT: usize = 16;

/// Most bytes of a text that each copy has for itself: of a longer one, shared bytes and their count take less memory.
const COPIED: usize = 40;

/// Whether a text is all of the plain set, and its bytes: in place, in memory of its own, or in memory that it shares
/// with its copies. It takes 32 bytes, whatever it is.
#[derive(Drop)]
pub(crate) enum Stored {
    Short(bool, ArrayString<SHORT>),
    Own(bool, String),
    Shared(bool, Arc<String>),
}

// A text in place.
fn short(text: &str) -> ArrayString<SHORT>
    requires { length text.now ≤ 16 }
    ensures { result.bytes ≡ text.now }
{
    let mut short = ArrayString::new();
    short.push_str(text);
    short
}

impl Stored {
    /// The text in memory of its own.
    pub(crate) fn own(alloc: Global, text: &str, is_plain: bool) -> Result<Stored, AllocError>
        ensures bytes { IfOk result (λ stored. stored_bytes stored ≡ text.now) }
        ensures plain { IfOk result (λ stored. stored_plain stored ≡ is_plain) }
    {
        Ok(Stored::Own(is_plain, String::from_str(alloc, text)?))
    }

    /// The text as one that will be copied: a long one in memory that its copies share.
    pub(crate) fn for_copies(
        alloc: Global,
        text: &str,
        is_plain: bool,
    ) -> Result<Stored, AllocError>
        ensures bytes { IfOk result (λ stored. stored_bytes stored ≡ text.now) }
        ensures plain { IfOk result (λ stored. stored_plain stored ≡ is_plain) }
    {
        if text.len() <= SHORT {
            return Ok(Stored::Short(is_plain, short(text)));
        }
        let bytes = String::from_str(alloc, text)?;
        if text.len() <= COPIED {
            return Ok(Stored::Own(is_plain, bytes));
        }
        Ok(Stored::Shared(is_plain, Arc::new(alloc, bytes)?))
    }

    /// The same text: one more owner of its bytes where they are shared.
    pub(crate) fn copy(&self) -> Result<Stored, AllocError>
        ensures bytes { IfOk result (λ stored. stored_bytes stored ≡ stored_bytes self.now) }
        ensures plain { IfOk result (λ stored. stored_plain stored ≡ stored_plain self.now) }
    {
        match self {
            Stored::Short(is_plain, text) => Ok(Stored::Short(*is_plain, *text)),
            Stored::Own(is_plain, text) => {
                Stored::for_copies(*text.allocator(), text.as_str(), *is_plain)
            }
            Stored::Shared(is_plain, text) => {
                Ok(Stored::Shared(*is_plain, Arc::try_clone(text)?))
            }
        }
    }

    /// Whether it was stored as plain.
    pub(crate) fn is_plain(&self) -> bool
        ensures { result ≡ stored_plain self.now }
    {
        match self {
            Stored::Short(is_plain, _) => *is_plain,
            Stored::Own(is_plain, _) => *is_plain,
            Stored::Shared(is_plain, _) => *is_plain,
        }
    }

    /// The text.
    pub(crate) fn as_str(&self) -> &str
        ensures { result.now ≡ stored_bytes self.now }
    {
        match self {
            Stored::Short(_, text) => text.as_str(),
            Stored::Own(_, text) => text.as_str(),
            Stored::Shared(_, text) => text.as_str(),
        }
    }
}
