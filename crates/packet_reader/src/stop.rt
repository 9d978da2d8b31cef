// Why a reader gives no more packets.
use thiserror::Error;

/// Why a reader gives no more packets: its source failed; the piece with this number, from 0, is no packet; or the recording goes on
/// behind its 4,294,967,295th packet.
#[derive(Debug, Clone, Copy, PartialEq, Eq, Error)]
pub enum PacketStop {
    #[error("the source failed")]
    Failed,
    #[error("piece {0} is no packet")]
    Broken(u64),
    #[error("the recording has more than 4,294,967,295 packets")]
    TooLong,
}
