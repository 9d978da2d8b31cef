// The header of a section that may be cut between packets.
ghost use Rattle.std.specs.Prelude.{◌≡◌, ◌++◌, ◌<◌, ◌≤◌, length, slice_get, IfNone, IfSome};
ghost use Rattle.ts_demux.specs.Hearing.{size_in};
ghost use Rattle.ts_demux.specs.Reaching.{reach_of};

// How far the section that some bytes begin with reaches.
#[derive(Clone, Copy, PartialEq, Eq)]
pub(crate) enum Reach {
    // It ends within them, and has so many bytes.
    Ends(usize),
    // Bytes are missing. All of it, or the longest section where the header is cut, has so many.
    Open(usize),
    // Its section_length is above 4,093.
    TooLong,
}

// How far the section reaches that these bytes and then those begin with.
pub(crate) fn measure(front: &[u8], more: &[u8]) -> Reach
    ensures { result ≡ reach_of (front.now ++ more.now) }
{
    match size_over(front, more) {
        None => Reach::Open(4096),
        Some(size) if size > 4096 => Reach::TooLong,
        Some(size) if size > front.len() && size - front.len() > more.len() => Reach::Open(size),
        Some(size) => Reach::Ends(size),
    }
}

// The number of bytes of that section, where its header is there.
fn size_over(front: &[u8], more: &[u8]) -> Option<usize>
    ensures none { IfNone result (length (front.now ++ more.now) < 3) }
    ensures header { IfSome result (λ _. 3 ≤ length (front.now ++ more.now)) }
    ensures size { IfSome result (λ size. size ≡ size_in (front.now ++ more.now)) }
{
    let high = byte_over(front, more, 1)?;
    let low = byte_over(front, more, 2)?;
    Some(3 + (usize::from(high % 16) * 256 + usize::from(low)))
}

// The byte at a place in these bytes and then those.
fn byte_over(front: &[u8], more: &[u8], index: usize) -> Option<u8>
    ensures { result ≡ slice_get (front.now ++ more.now) index }
{
    if index < front.len() {
        return Some(front[index]);
    }
    more.get(index - front.len()).copied()
}
