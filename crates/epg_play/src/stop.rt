// Why a script is not played on.
ghost use Rattle.std.specs.Prelude.{◌≡◌};
ghost use Rattle.epg_play.specs.Leaves.{mux_stop, status_for};
ghost use Rattle.epg_play.specs.declared.stop.PlayStop.TheVariants.{Memory};

use epg_report::{Origin, Outlet, Status};
use journal_model::Outcome;
use mux_config::{MuxFault, MuxStop};
use si_causes::ReadStop;
use std::alloc::AllocError;

/// Why a script is not played on: the description of the multiplex has a fault; a line that is no command there; an outcome line
/// that keeps another outcome (the first) than the desk's; the input; the air; or want of memory.
#[derive(Clone, Copy, PartialEq, Eq)]
pub enum PlayStop {
    NoMux(MuxFault),
    NoCommand(u64),
    Disagrees(u64, Outcome, Outcome),
    Read(ReadStop),
    Air,
    Memory,
}

impl From<AllocError> for PlayStop {
    ghost from_gives = { λ _ e. e ≡ Memory };

    fn from(_: AllocError) -> PlayStop {
        PlayStop::Memory
    }
}

/// The stop of a script where the description of its multiplex was not read.
pub fn mux_stop_of(stop: MuxStop) -> PlayStop
    ensures { result ≡ mux_stop stop }
{
    match stop {
        MuxStop::Fault(fault) => PlayStop::NoMux(fault),
        MuxStop::Read(stop) => PlayStop::Read(stop),
        MuxStop::Memory => PlayStop::Memory,
    }
}

/// The status of a run that stopped so.
pub fn status_of(stop: PlayStop) -> Status
    ensures { result ≡ status_for stop }
{
    match stop {
        PlayStop::NoMux(fault) => Status::BadMux(fault),
        PlayStop::NoCommand(line) => Status::BadScript(line),
        PlayStop::Disagrees(line, kept, found) => Status::Disagrees(line, kept, found),
        PlayStop::Read(ReadStop::TooLong) => Status::TooLong(Origin::Input),
        PlayStop::Read(ReadStop::Failed) => Status::ReadFault(Origin::Input),
        PlayStop::Air => Status::WriteFault(Outlet::Air),
        PlayStop::Memory => Status::Memory,
    }
}
