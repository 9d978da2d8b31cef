// The pieces of a text that is too long for one descriptor.
ghost use Rattle.std.specs.Prelude.{◌≡◌, true, ℕ, ◌<◌, ◌≤◌, ◌+◌, ◌*◌, List, [], ◌∷◌, length, take, drop, IsUtf8, IsCharBoundary};
ghost use Rattle.std.specs.List.{concat, AllByRecursion};
ghost use Rattle.guide_model.specs.Coding.{all_plain, coded_size};
ghost use Rattle.guide_model.specs.Cutting.{cut_size, pieces, ArePieces};
ghost use Rattle.guide_model.specs.Decoding.{IsKept};

use crate::coding::is_all_plain;

/// Most bytes of the coded form of a piece: an extended_event_descriptor has up to 255 bytes behind its length, and
/// six of them are no text (EN 300 468, 6.2.15).
const PIECE: usize = 249;

/// The byte length of the longest front of the text, cut at a character, whose coded form has at most 249 bytes.
/// It reads none behind the first 249 bytes, and takes no memory.
pub fn cut_len(text: &str) -> usize
    ensures size { result ≡ cut_size text.now }
    ensures whole { IsCharBoundary text.now result }
    ensures fits { coded_size (take result text.now) ≤ 249 }
    ensures longest { (n : ℕ) → result < n → IsCharBoundary text.now n → 249 < coded_size (take n text.now) }
{
    let front = PIECE.min(text.len());
    if is_all_plain(&text.as_bytes()[..front]) {
        front
    } else {
        text.floor_char_boundary(PIECE - 1)
    }
}

/// The same of a text whose characters are all of the plain set: it reads none of them.
pub fn plain_cut_len(text: &str) -> usize
    requires { all_plain text.now ≡ true }
    ensures size { result ≡ cut_size text.now }
    ensures whole { IsCharBoundary text.now result }
    ensures fits { coded_size (take result text.now) ≤ 249 }
{
    PIECE.min(text.len())
}

/// The pieces of a text: the empty text has none; another has its longest front and the pieces of the rest. They
/// join to the text. The pieces of a text that may be kept may be kept too, and so may what kept texts join to. All
/// pieces but the last have at least 245 bytes.
pub fn pieces_join()
    ensures none { pieces [] ≡ [] }
    ensures next { (text : List ℕ) → IsUtf8 text → 0 < length text → pieces text ≡ take (cut_size text) text ∷ pieces (drop (cut_size text) text) }
    ensures join { (text : List ℕ) → IsUtf8 text → concat (pieces text) ≡ text }
    ensures longest { (text : List ℕ) → IsUtf8 text → ArePieces text (pieces text) }
    ensures kept { (text : List ℕ) → IsKept text → AllByRecursion IsKept (pieces text) }
    ensures joined { (texts : List (List ℕ)) → AllByRecursion IsKept texts → IsKept (concat texts) }
    ensures few { (text : List ℕ) → IsUtf8 text → 245 * length (pieces text) ≤ length text + 244 }
{}
