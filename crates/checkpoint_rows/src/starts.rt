// The multiplexes of rows.
ghost use Rattle.mux_model.specs.Sound.{IsSound};
ghost use Rattle.std.specs.Prelude.{IfOk};

use mux_config::read_mux;
use mux_model::Mux;
use row_lines::{WHOLE, reader};
use std::alloc::{AllocError, Global};

// Service 101 of feed 1.
const ONE_SERVICE: &str = "network,40,Demo/stream,1,1/service,101,1,1,256,257,Acme,One/end/";

// Service 5 of feed 2, and service 9 of feed 1, from 13 October 1993 at 12:45 on.
const TWO_SERVICES: &str =
    "network,40,Demo/stream,1,1/start,1993-10-13T12:45:00Z/service,9,1,1,100,100,P,Nine/service,5,2,1,101,100,P,Five/end/";

// One service, at a bit rate.
const WITH_RATE: &str =
    "network,40,Demo/stream,1,1/rate,500000/service,101,1,1,256,257,Acme,One/end/";

/// The multiplex with this number: of one service, of two, or of one at a bit rate. Its description
/// can be read, so it fails only for want of memory.
pub fn mux_of(alloc: Global, number: u32) -> Result<Mux, AllocError>
    ensures { IfOk result IsSound }
{
    let text = match number {
        1 => ONE_SERVICE,
        2 => TWO_SERVICES,
        _ => WITH_RATE,
    };
    let mut lines = reader(alloc, text, WHOLE)?;
    match read_mux(alloc, &mut lines) {
        Ok(mux) => Ok(mux),
        Err(_) => Err(AllocError),
    }
}
