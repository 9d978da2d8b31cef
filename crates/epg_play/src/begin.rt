// From what a run goes on.
ghost use Rattle.std.specs.Prelude.{◌≡◌, List, ℕ, Some, IfErr, IfOk};
ghost use Rattle.si_causes.specs.Opening.{Files, Tries};
ghost use Rattle.si_causes.specs.Reading.{fresh_to};
ghost use Rattle.mux_model.specs.Sound.{IsSound};
ghost use Rattle.desk_checkpoint.specs.Starts.{IsStart};
ghost use Rattle.epg_play.specs.Beginning.{BeginsAt, BeginsWith, HasFileCause, HasOpenCause, IsNew, IsNotBegun, IsRefused, check_status};
ghost use Rattle.epg_play.specs.Checkpointed.{checkpoint_limit, checkpoint_of};

use desk_checkpoint::{CheckStop, Start, read_checkpoint};
use desk_core::Desk;
use epg_report::{Origin, Status};
use journal_air::open_player;
use mux_model::Mux;
use si_causes::{LineReader, Opener, ReadStop, Source};
use std::alloc::{AllocError, Global};

/// How many bytes a checkpoint may have.
const CHECKPOINT_LIMIT: u64 = 1_073_741_824;

/// A head-end of a sound multiplex that did nothing yet.
pub fn new_start(alloc: Global, mux: Mux) -> Result<Start, AllocError>
    requires { IsSound mux }
    ensures { IfOk result (IsNew mux) }
{
    let player = open_player(alloc, &mux)?;
    Ok(Start {
        desk: Desk::open(alloc, mux)?,
        shift: 0,
        player,
    })
}

fn status_of(stop: CheckStop) -> Status
    ensures { result ≡ check_status stop }
{
    match stop {
        CheckStop::Line(line) => Status::BadCheckpoint(line),
        CheckStop::Read(ReadStop::TooLong) => Status::TooLong(Origin::Recording),
        CheckStop::Read(ReadStop::Failed) => Status::ReadFault(Origin::Recording),
        CheckStop::Memory => Status::Memory,
    }
}

// Reads the checkpoint that a file holds.
fn read_start<F: Source>(
    alloc: Global,
    mux: Mux,
    lines: &mut LineReader<F>,
) -> Result<Start, Status>
    requires sound { IsSound mux }
    requires unread { lines.old ≡ fresh_to checkpoint_limit lines.old.source }
    ensures begins { (bytes : List ℕ) → F.left lines.old.source ≡ Some bytes
        → BeginsWith (checkpoint_of mux bytes) result }
    ensures start { IfOk result (IsStart mux) }
    ensures known { IfErr result IsRefused }
    ensures cause { HasFileCause (F.faults lines.old.source) (F.faults lines.new.source) result }
{
    match read_checkpoint(alloc, mux, lines) {
        Ok(start) => Ok(start),
        Err(stop) => Err(status_of(stop)),
    }
}

/// Opens the file at a path, and reads the checkpoint that it holds, of at most 1,073,741,824 bytes.
///
/// `OpenFault(0)`, `ReadFault(Recording)`, `TooLong(Recording)` and `BadCheckpoint`, with the first line that may not stand there, say
/// why there is none; `Memory` comes for want of it.
pub fn start_at<O: Opener>(
    alloc: Global,
    mux: Mux,
    path: &str,
    opener: &mut O,
) -> Result<Start, Status>
    requires sound { IsSound mux }
    ensures begins { (files : Files) → O.files opener.old ≡ Some files
        → BeginsAt path.now files mux result }
    ensures start { IfOk result (IsStart mux) }
    ensures known { IfErr result IsNotBegun }
    ensures tried { Tries (O.tried opener.old) (O.tried opener.new) path.now }
    ensures open_cause { HasOpenCause (O.faults opener.old) (O.faults opener.new) result }
    ensures read_cause { HasFileCause (O.read_faults opener.old) (O.read_faults opener.new) result }
{
    let Ok(source) = opener.open(path) else {
        return Err(Status::OpenFault(0));
    };
    let Ok(mut lines) = LineReader::open_to(alloc, source, CHECKPOINT_LIMIT) else {
        return Err(Status::Memory);
    };
    let begun = read_start(alloc, mux, &mut lines);
    opener.close(lines.close());
    begun
}
