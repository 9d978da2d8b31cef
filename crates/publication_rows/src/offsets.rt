// The offsets of local time that a player sends.
ghost use Rattle.std.specs.Prelude.{◌<◌, IfOk};
ghost use Rattle.time_tables.specs.LocalOffsets.{FitsOffset};
ghost use Rattle.air_model.specs.Air.{CanBeTold};

use guide_model::{Offset, Offsets};
use si_time::Moment;
use std::alloc::{AllocError, Global};

// 1993-10-24T01:00:00Z.
const CHANGE: Moment = Moment(4_258_141_200);

// That of a region: 60 minutes from UTC and 15 more for each region, odd regions behind it, and from the change on 15 for each.
fn offset(region: u8) -> Offset
    requires { region < 16 }
    ensures { FitsOffset result }
{
    Offset {
        country: *b"GBR",
        region,
        behind: region % 2 == 1,
        minutes: 60 + 15 * u16::from(region),
        change: CHANGE,
        next: 15 * u16::from(region),
    }
}

/// The offsets of so many regions of Great Britain, from region 0 on, at most 16.
pub fn offsets(alloc: Global, count: u8) -> Result<Offsets, AllocError>
    ensures { IfOk result CanBeTold }
{
    let mut offsets = Offsets::new(alloc);
    for region in 0..count.min(16) {
        offsets.push(offset(region))?;
    }
    Ok(offsets)
}
