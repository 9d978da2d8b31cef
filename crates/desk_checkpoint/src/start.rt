// What a head-end goes on from.
ghost use Rattle.std.specs.Prelude.{◌≡◌};
ghost use Rattle.desk_checkpoint.specs.Starts.{check_stop};

use cycle_player::CyclePlayer;
use desk_core::Desk;
use input_lines::EditStop;
use si_causes::ReadStop;
use std::alloc::AllocError;

/// What a head-end goes on from: a desk and a player, and by how much the numbers of the desk's publications are less than those of the
/// journal that was folded.
#[derive(Drop)]
pub struct Start {
    pub desk: Desk,
    pub shift: u64,
    pub player: CyclePlayer,
}

/// Why a checkpoint was not read: this line, from 1, is the first that may not stand there; the reader gives no more lines; or memory is
/// wanting.
#[derive(Debug, Clone, Copy, PartialEq, Eq)]
pub enum CheckStop {
    Line(u64),
    Read(ReadStop),
    Memory,
}

impl From<AllocError> for CheckStop {
    ghost use Rattle.desk_checkpoint.specs.declared.start.CheckStop.TheVariants.{Memory};

    ghost from_gives = { λ _ e. e ≡ Memory };

    fn from(_: AllocError) -> CheckStop {
        CheckStop::Memory
    }
}

/// The stop of a checkpoint where a call that reads its lines stopped.
pub(crate) fn stop_of(stop: EditStop) -> CheckStop
    ensures { result ≡ check_stop stop }
{
    match stop {
        EditStop::NoCommand(line) => CheckStop::Line(line),
        EditStop::Read(stop) => CheckStop::Read(stop),
        EditStop::Memory => CheckStop::Memory,
    }
}
