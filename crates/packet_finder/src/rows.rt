// Rows of packets in bytes.
ghost use Rattle.std.specs.Prelude.{◌≡◌, ◌≤◌, ◌<◌, ◌⊎◌, ◌-◌, true, false, ℕ, None, drop, take, length, is_some, unwrap_or, IfSome};
ghost use Rattle.packet_reader.specs.Recordings.{is_packet};
ghost use Rattle.packet_finder.specs.Pieces.{sync_at, is_row, row_length, tail_here};

/// How many bytes a packet has.
pub(crate) const PACKET: usize = 188;
/// How many bytes it takes to judge whether a row begins.
pub(crate) const ROW: usize = 409;

const SYNC: u8 = 0x47;

// Whether a sync byte stands so many bytes on, or the bytes end before.
fn is_sync_at(bytes: &[u8], place: usize) -> bool
    ensures { result ≡ sync_at place bytes.now }
{
    bytes.len() <= place || bytes[place] == SYNC
}

// Whether a row of packets begins here that are this far apart.
fn begins_row(bytes: &[u8], apart: usize) -> bool
    requires { apart < 1000 }
    ensures { result ≡ is_row apart bytes.now }
{
    bytes.len() >= PACKET
        && is_sync_at(bytes, 0)
        && is_sync_at(bytes, apart)
        && is_sync_at(bytes, 2 * apart)
}

// How far apart the packets of the row are that begins here, where one does.
#[tactic(auto, unfolding(crate::specs::Pieces::row_length))]
fn row_from(bytes: &[u8]) -> Option<usize>
    ensures value { result ≡ row_length bytes.now }
    ensures within { IfSome result (λ n. (188 ≤ n) × (n ≤ 204)) }
{
    if begins_row(bytes, 188) {
        Some(188)
    } else if begins_row(bytes, 192) {
        Some(192)
    } else if begins_row(bytes, 204) {
        Some(204)
    } else {
        None
    }
}

// How many bytes stand behind each packet from here on.
fn tail_from(bytes: &[u8]) -> usize
    ensures value { result ≡ tail_here bytes.now }
    ensures short { result ≤ 16 }
{
    match row_from(bytes) {
        Some(apart) => apart - PACKET,
        None => 0,
    }
}

/// The same where sync holds with this tail, or does not.
pub(crate) fn tail_with(tail: Option<usize>, bytes: &[u8]) -> usize
    ensures value { result ≡ unwrap_or tail (tail_here bytes.now) }
    ensures short { IfSome tail (λ n. n ≤ 16) → result ≤ 16 }
{
    match tail {
        Some(tail) => tail,
        None => tail_from(bytes),
    }
}

/// Whether the bytes from this place on begin with a packet.
pub(crate) fn is_packet_at(bytes: &[u8], place: usize) -> bool
    requires { place ≤ length bytes.now }
    ensures { result ≡ is_packet (take 188 (drop place bytes.now)) }
{
    bytes.len() - place >= PACKET && bytes[place] == SYNC
}

/// How many bytes stand before the first row, as far as places can be judged: up to the end, or only where 409 bytes are there.
pub(crate) fn places_before_row(bytes: &[u8], ended: bool) -> usize
    ensures within { result ≤ length bytes.now }
    ensures none { (i : ℕ) → i < result → row_length (drop i bytes.now) ≡ None }
    ensures judged { ended ≡ false → (i : ℕ) → i < result → 409 ≤ length bytes.now - i }
    ensures stops { (is_some (row_length (drop result bytes.now)) ≡ true) ⊎ ((ended ≡ false) × (length bytes.now - result < 409)) ⊎ (result ≡ length bytes.now) }
{
    let mut place = 0;
    while place < bytes.len() && (ended || bytes.len() - place >= ROW) {
        let (_, rest) = bytes.split_at(place);
        if row_from(rest).is_some() {
            return place;
        }
        place += 1;
    }
    place
}
