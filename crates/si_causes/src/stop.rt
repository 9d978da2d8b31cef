// Why a reader gives no more lines.
use thiserror::Error;

/// Why a reader gives no more lines: its source failed, or the text has more bytes than it may have: 67,108,864, or
/// another limit.
#[derive(Debug, Clone, Copy, PartialEq, Eq, Error)]
pub enum ReadStop {
    #[error("the source failed")]
    Failed,
    #[error("the text has more bytes than it may have")]
    TooLong,
}
