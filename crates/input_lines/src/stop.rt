// Why nothing is read of a line.
ghost use Rattle.std.specs.Prelude.{◌≡◌};
ghost use Rattle.input_lines.specs.declared.stop.EditStop.TheVariants.{Memory};

use si_causes::ReadStop;
use std::alloc::AllocError;
use thiserror::Error;

/// Why no edit, control or command is read: the line with this number is none in its place, the lines stop, or memory is wanting.
#[derive(Debug, Clone, Copy, PartialEq, Eq, Error)]
pub enum EditStop {
    #[error("line {0} is no edit in its place")]
    NoCommand(u64),
    #[error("the lines stop: {0}")]
    Read(ReadStop),
    #[error("memory is wanting")]
    Memory,
}

impl From<AllocError> for EditStop {
    ghost from_gives = { λ _ e. e ≡ Memory };

    fn from(_: AllocError) -> EditStop {
        EditStop::Memory
    }
}
