// How a run ends whose report was written.
ghost use Rattle.std.specs.Prelude.{◌≡◌};
ghost use Rattle.epg_report.specs.Ends.{ended_by};

use crate::status::{Outlet, Status};
use si_causes::Failed;

/// The status of a run that met this, and whose report was written so: the first fault decides.
pub fn ended(met: Status, written: Result<(), Failed>) -> Status
    ensures { result ≡ ended_by met written }
{
    match (met, written) {
        (Status::Done, Err(_)) => Status::WriteFault(Outlet::Report),
        (met, _) => met,
    }
}
