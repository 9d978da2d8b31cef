// What a coded text is shown as.
ghost use Rattle.std.specs.Prelude.{◌≡◌, ◌++◌, length, IfOk, OnOk, OnErr};
ghost use Rattle.guide_model.specs.Decoding.{shown_bytes};

use crate::coding::append_text;
use crate::txt::Txt;
use si_base::{Bytes, Copies};
use std::alloc::AllocError;

/// What the bytes of a coded text are shown as: their text, or all the bytes where they are of no text that may be
/// kept (EN 300 468, annex A).
#[derive(Drop)]
pub enum Shown {
    Text(Txt),
    Hex(Bytes),
}

impl Shown {
    /// The number of its bytes: those of the coded form of a text, or all of Hex. It takes no memory.
    pub fn coded_len(&self) -> usize
        ensures { result ≡ length (shown_bytes self.now) }
    {
        match self {
            Shown::Text(text) => text.coded_len(),
            Shown::Hex(bytes) => bytes.len(),
        }
    }

    /// Appends its bytes: the coded form of a text, or all of Hex. Want of memory changes nothing.
    pub fn append_to(&self, out: &mut Vec<u8>) -> Result<(), AllocError>
        ensures ok { OnOk result (out.new.items ≡ out.old.items ++ shown_bytes self.now) }
        ensures memory { OnErr result (out.new.items ≡ out.old.items) }
    {
        match self {
            Shown::Text(text) => append_text(text.as_str(), out),
            Shown::Hex(bytes) => out.extend_from_slice(bytes.as_slice()),
        }
    }
}

impl Copies for Shown {
    fn copy(&self) -> Result<Shown, AllocError> {
        match self {
            Shown::Text(text) => Ok(Shown::Text(text.copy()?)),
            Shown::Hex(bytes) => Ok(Shown::Hex(Bytes::of(Vec::from_slice(
                bytes.allocator(),
                bytes.as_slice(),
            )?))),
        }
    }
}
