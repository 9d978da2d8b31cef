// What is found.

/// A piece of a recording that may be damaged: the packet with this number, from 0; or so many bytes that are passed over before the next
/// packet, or before the end.
#[derive(Debug, Clone, Copy, PartialEq, Eq)]
pub enum Found {
    Packet(u64),
    Junk(u64),
}
