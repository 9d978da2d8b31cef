// The coded form of a text.
ghost use Rattle.std.specs.Prelude.{◌≡◌, ◌++◌, length, IfOk, OnOk, OnErr};
ghost use Rattle.guide_model.specs.Coding.{is_plain, all_plain, coded_text, coded_size};

use si_base::Bytes;
use std::alloc::{AllocError, Global};

/// The first byte of a text in UTF-8 (EN 300 468, annex A, table A.3).
pub(crate) const UTF8: u8 = 0x15;

// For each byte 1 where it is a character of the plain set, and else 0.
static PLAIN: [u8; 256] = [
    0, 0, 0, 0, 0, 0, 0, 0, 0, 0, 0, 0, 0, 0, 0, 0, 0, 0, 0, 0, 0, 0, 0, 0, 0, 0, 0, 0, 0, 0, 0, 0,
    1, 1, 1, 0, 0, 1, 1, 1, 1, 1, 1, 1, 1, 1, 1, 1, 1, 1, 1, 1, 1, 1, 1, 1, 1, 1, 1, 1, 0, 0, 0, 1,
    0, 1, 1, 1, 1, 1, 1, 1, 1, 1, 1, 1, 1, 1, 1, 1, 1, 1, 1, 1, 1, 1, 1, 1, 1, 1, 1, 0, 0, 0, 0, 0,
    0, 1, 1, 1, 1, 1, 1, 1, 1, 1, 1, 1, 1, 1, 1, 1, 1, 1, 1, 1, 1, 1, 1, 1, 1, 1, 1, 0, 0, 0, 0, 0,
    0, 0, 0, 0, 0, 0, 0, 0, 0, 0, 0, 0, 0, 0, 0, 0, 0, 0, 0, 0, 0, 0, 0, 0, 0, 0, 0, 0, 0, 0, 0, 0,
    0, 0, 0, 0, 0, 0, 0, 0, 0, 0, 0, 0, 0, 0, 0, 0, 0, 0, 0, 0, 0, 0, 0, 0, 0, 0, 0, 0, 0, 0, 0, 0,
    0, 0, 0, 0, 0, 0, 0, 0, 0, 0, 0, 0, 0, 0, 0, 0, 0, 0, 0, 0, 0, 0, 0, 0, 0, 0, 0, 0, 0, 0, 0, 0,
    0, 0, 0, 0, 0, 0, 0, 0, 0, 0, 0, 0, 0, 0, 0, 0, 0, 0, 0, 0, 0, 0, 0, 0, 0, 0, 0, 0, 0, 0, 0, 0,
];

/// Whether a byte is a character of the plain set, which is coded as it is. It takes no memory.
pub fn is_plain_byte(b: u8) -> bool
    ensures { result ≡ is_plain b }
{
    PLAIN[usize::from(b)] == 1
}

/// Whether all bytes are characters of the plain set. It takes no memory.
pub fn is_all_plain(bytes: &[u8]) -> bool
    ensures { result ≡ all_plain bytes.now }
{
    bytes.iter().all(|b| is_plain_byte(*b))
}

/// The number of bytes that a text is coded as. It takes no memory.
pub fn coded_len(text: &str) -> usize
    ensures { result ≡ coded_size text.now }
{
    if is_all_plain(text.as_bytes()) {
        text.len()
    } else {
        1 + text.len()
    }
}

/// The bytes that a text is coded as: none for the empty text, the ASCII bytes of a text of the plain set, and
/// 0x15 before the UTF-8 bytes of any other.
pub fn encode_text(alloc: Global, text: &str) -> Result<Bytes, AllocError>
    ensures bytes { IfOk result (λ coded. coded ≡ coded_text text.now) }
    ensures size { IfOk result (λ coded. length coded ≡ coded_size text.now) }
{
    let mut coded = Vec::with_capacity(alloc, 1 + text.len())?;
    append_text(text, &mut coded)?;
    Ok(Bytes::of(coded))
}

/// Appends the bytes that a text is coded as. Want of memory changes nothing.
pub fn append_text(text: &str, out: &mut Vec<u8>) -> Result<(), AllocError>
    ensures ok { OnOk result (out.new.items ≡ out.old.items ++ coded_text text.now) }
    ensures memory { OnErr result (out.new.items ≡ out.old.items) }
{
    let bytes = text.as_bytes();
    if is_all_plain(bytes) {
        return out.extend_from_slice(bytes);
    }
    out.push(UTF8)?;
    if let Err(error) = out.extend_from_slice(bytes) {
        out.pop();
        return Err(error);
    }
    Ok(())
}
