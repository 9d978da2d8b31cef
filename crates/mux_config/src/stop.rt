// Why there is no multiplex.
ghost use Rattle.std.specs.Prelude.{◌≡◌};
ghost use Rattle.mux_config.specs.declared.stop.MuxStop.TheVariants.{Memory};

use crate::fault::MuxFault;
use si_causes::ReadStop;
use std::alloc::AllocError;
use thiserror::Error;

/// Why a description gives no multiplex: its first fault, a stop of the reader, or want of memory.
#[derive(Debug, Clone, Copy, PartialEq, Eq, Error)]
pub enum MuxStop {
    #[error("the description has a fault")]
    Fault(MuxFault),
    #[error("the description could not be read")]
    Read(ReadStop),
    #[error("memory is wanting")]
    Memory,
}

impl From<AllocError> for MuxStop {
    ghost from_gives = { λ _ e. e ≡ Memory };

    fn from(_: AllocError) -> MuxStop {
        MuxStop::Memory
    }
}
