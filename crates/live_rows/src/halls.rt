// Halls of a multiplex of two services, each of a feed of its own.
ghost use Rattle.std.specs.Prelude.{◌≡◌, ◌<◌, ◌≤◌, IfOk};
ghost use Rattle.mux_model.specs.Sound.{IsSound};

use mux_config::read_mux;
use mux_model::Mux;
use row_lines::{WHOLE, reader};
use std::alloc::{AllocError, Global};

// Service 101 of feed 1 and service 102 of feed 2; the desk starts on 13 October 1993 at 12:45.
const TWO_SERVICES: &str =
    "network,40,Demo/stream,1,1/service,101,1,1,256,257,Acme,One/service,102,2,1,258,259,Acme,Two/start,1993-10-13T12:45:00Z/end/";

/// The multiplex of these services. Its description can be read, so it fails for want of memory alone.
pub fn two_services(alloc: Global) -> Result<Mux, AllocError>
    ensures { IfOk result IsSound }
{
    let mut lines = reader(alloc, TWO_SERVICES, WHOLE)?;
    match read_mux(alloc, &mut lines) {
        Ok(mux) => Ok(mux),
        Err(_) => Err(AllocError),
    }
}
