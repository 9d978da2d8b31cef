// Collecting the next line of a source.
ghost use Rattle.std.specs.Prelude.{◌≡◌, ◌≤◌, ◌<◌, ◌+◌, ◌++◌, [], ℕ, true, ◌==◌, length, position, take};
ghost use Rattle.std.specs.Prelude.{IfOk, IfSome, OnErr};
ghost use Rattle.std.specs.Io.KnownBytes.{Consumes, IsAtEnd, Keeps};
ghost use Rattle.si_causes.specs.Causes.{HasCause, IsQuiet};
ghost use Rattle.si_causes.specs.Gathering.{Gathers, hand};
ghost use Rattle.si_causes.specs.Lines.{first_line, after_line, has_end};
ghost use Rattle.si_causes.specs.Reading.{IsQuietUnlessFailed};

use crate::causes::{Failed, Source};
use crate::line::Line;
use crate::read_buffer::ReadBuffer;
use crate::stop::ReadStop;
use memchr::memchr;

// how many bytes one read asks for at most
const BUFFER: usize = 65536;

// What was read of a text and stands in no line yet.
pub(crate) type LineBuffer = ReadBuffer<BUFFER>;

// What collecting a line met: a whole line, the last one, which has no LF, or the end.
#[derive(Clone, Copy)]
pub(crate) enum LineFound {
    Line,
    Last,
    End,
}

// Where the first LF is.
fn line_end(bytes: &[u8]) -> Option<usize>
    ensures place { result ≡ position (λ b. b == 10) bytes.now }
    ensures within { IfSome result (λ at. at < length bytes.now) }
{
    memchr(b'\n', bytes)
}

// Moves what is held into the line, up to the first LF, and says whether there was one.
fn take_line(held: &mut LineBuffer, line: &mut Line) -> bool
    ensures line { line.new ≡ take 16386 (line.old ++ first_line held.old) }
    ensures held { held.new ≡ after_line held.old }
    ensures found { result ≡ has_end held.old }
{
    let piece = held.bytes();
    match line_end(piece) {
        Some(at) => {
            let (front, _) = piece.split_at(at);
            line.add(front);
            held.consume(at + 1);
            true
        }
        None => {
            line.add(piece);
            let count = piece.len();
            held.consume(count);
            false
        }
    }
}

// Reads the next piece of the text, of at most `room` bytes, where nothing is held.
fn read_piece<S: Source>(source: &mut S, held: &mut LineBuffer, room: u64) -> Result<usize, Failed>
    requires empty { held.old ≡ [] }
    requires some { 1 ≤ room }
    ensures ok { IfOk result (λ n. (n ≡ length held.new) × (n ≤ room)
        × Consumes (S.left source.old) (S.left source.new) held.new) }
    ensures end { IfOk result (λ n. n ≡ 0 → IsAtEnd (S.left source.new)) }
    ensures err { OnErr result ((held.new ≡ []) × Keeps (S.left source.old) (S.left source.new)) }
    ensures cause { HasCause (S.faults source.old) (S.faults source.new) result }
    ensures quiet { IsQuiet (S.faults source.old) (S.faults source.new) result }
    ensures same { S.same source.old source.new }
{
    held.refill(source, room)
}

// Collects the next line of a text that may have so many bytes, reading only where what is held has no LF.
pub(crate) fn gather<S: Source>(
    source: &mut S,
    held: &mut LineBuffer,
    line: &mut Line,
    taken: &mut u64,
    limit: u64,
) -> Result<LineFound, ReadStop>
    requires empty { line.old ≡ [] }
    requires within { taken.old ≤ limit }
    ensures gathers { Gathers S.left S.faults (hand source.old held.old line.old taken.old limit)
        (hand source.new held.new line.new taken.new limit) result }
    ensures later { S.faults source.old ≤ S.faults source.new }
    ensures quiet { IsQuietUnlessFailed (S.faults source.old) (S.faults source.new) result }
    ensures lazy { has_end held.old ≡ true → source.new ≡ source.old }
    ensures same { S.same source.old source.new }
{
    loop {
        if take_line(held, line) {
            return Ok(LineFound::Line);
        }
        let room = if *taken < limit { limit - *taken } else { 1 };
        let count = match read_piece(source, held, room) {
            Ok(count) => count,
            Err(_) => return Err(ReadStop::Failed),
        };
        if count == 0 {
            return Ok(if line.is_empty() {
                LineFound::End
            } else {
                LineFound::Last
            });
        }
        if *taken >= limit {
            held.consume(count);
            return Err(ReadStop::TooLong);
        }
        *taken += count as u64;
    }
}
