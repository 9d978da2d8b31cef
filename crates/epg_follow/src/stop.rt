// Why a script is not followed further.
ghost use Rattle.std.specs.Prelude.{◌≡◌};
ghost use Rattle.epg_follow.specs.Stops.{met_by};
ghost use Rattle.epg_follow.specs.declared.stop.FollowStop.TheVariants.{Memory};

use epg_report::{Origin, Outlet, Status};
use journal_model::Outcome;
use script_notes::Why;
use si_causes::ReadStop;
use std::alloc::AllocError;

/// Why a script is not followed further: a line that is no command there, and what is wrong with it; an outcome line that keeps another
/// outcome (the first) than the desk's; the input; the air; the report; or want of memory.
#[derive(Clone, Copy, Drop)]
pub enum FollowStop {
    NoCommand(u64, Why),
    Disagrees(u64, Outcome, Outcome),
    Read(ReadStop),
    Air,
    Report,
    Memory,
}

impl From<AllocError> for FollowStop {
    ghost from_gives = { λ _ e. e ≡ Memory };

    fn from(_: AllocError) -> FollowStop {
        FollowStop::Memory
    }
}

/// The status that a run has met which followed a script so.
pub fn met_of(followed: Result<(), FollowStop>) -> Status
    ensures { result ≡ met_by followed }
{
    match followed {
        Ok(()) => Status::Done,
        Err(FollowStop::NoCommand(line, _)) => Status::BadScript(line),
        Err(FollowStop::Disagrees(line, kept, found)) => Status::Disagrees(line, kept, found),
        Err(FollowStop::Read(ReadStop::TooLong)) => Status::TooLong(Origin::Input),
        Err(FollowStop::Read(ReadStop::Failed)) => Status::ReadFault(Origin::Input),
        Err(FollowStop::Air) => Status::WriteFault(Outlet::Air),
        Err(FollowStop::Report) => Status::WriteFault(Outlet::Report),
        Err(FollowStop::Memory) => Status::Memory,
    }
}
