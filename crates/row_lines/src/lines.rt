// Readers of texts that are cut into pieces.
use crate::buffer::Buffer;
use input_lines::numeral;
use si_causes::{LineReader, MemSource};
use std::alloc::{AllocError, Global};

/// How a text comes: in pieces of so many bytes, from a source whose read with this number, from 0, fails.
#[derive(Clone, Copy)]
pub struct Cut {
    pub piece: u32,
    pub fails_at: u32,
}

/// No read of a row's text has this number.
pub const NEVER: u32 = 999_999_999;

/// A text in pieces of 4,096 bytes, none of whose reads fails.
pub const WHOLE: Cut = Cut {
    piece: 4_096,
    fails_at: NEVER,
};

pub type Lines = LineReader<MemSource>;

// The bytes of a text, in which a slash stands for LF, and a tilde for the byte FF.
fn bytes_of(alloc: Global, text: &str) -> Result<Vec<u8>, AllocError> {
    let mut bytes = Vec::new(alloc);
    for byte in text.as_bytes() {
        bytes.push(match byte {
            b'/' => b'\n',
            b'~' => 0xFF,
            other => *other,
        })?;
    }
    Ok(bytes)
}

/// A reader of a text, in which a slash stands for LF, and a tilde for the byte FF.
pub fn reader(alloc: Global, text: &str, cut: Cut) -> Result<Lines, AllocError> {
    let bytes = bytes_of(alloc, text)?;
    let fails = vec![in alloc; u64::from(cut.fails_at); 1]?;
    let source = MemSource::open(bytes, (cut.piece as usize).max(1), fails);
    LineReader::open(alloc, source)
}

/// The number that a text begins with, and what stands after it and a space.
pub fn numbered(text: &str) -> Option<(u32, &str)> {
    let (number, text) = text.split_once(' ').unwrap_or((text, ""));
    Some((numeral(number)?, text))
}

/// Appends what `tell` gives for a text in pieces of 1, 7 and 4,096 bytes to an empty answer, if it
/// is the same.
pub fn tell_in_pieces<F: Fn(Cut, &mut Buffer)>(alloc: Global, out: &mut Buffer, tell: F)
    requires { F.IsAlwaysCallable tell }
{
    let mut again = Buffer::open(alloc);
    for piece in [1, 7, 4_096] {
        let cut = Cut {
            piece,
            fails_at: NEVER,
        };
        again.clear();
        tell(cut, &mut again);
        out.note_of(&again);
        if piece == 1 {
            out.put(again.as_slice());
        } else if again.as_slice() != out.as_slice() {
            out.clear();
            return out.say("pieces differ");
        }
    }
}
