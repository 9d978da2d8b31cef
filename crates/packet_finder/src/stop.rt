// Why a finder gives no more pieces.
use thiserror::Error;

/// Why a finder gives no more pieces: its source failed; or the recording goes on behind its 4,294,967,295th packet, or has more than
/// 18,446,744,073,709,551,615 bytes in one stretch that is no packet.
#[derive(Debug, Clone, Copy, PartialEq, Eq, Error)]
pub enum FindStop {
    #[error("the source failed")]
    Failed,
    #[error("the recording is too long")]
    TooLong,
}
