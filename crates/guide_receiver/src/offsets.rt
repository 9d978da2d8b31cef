// The offsets that time offset tables say.
ghost use Rattle.std.specs.Prelude.{◌≡◌, IfOk, filter_map, unwrap_or};
ghost use Rattle.guide_receiver.specs.Latest.{last_of, offsets_in};

use crate::short::short_body;
use guide_model::Offsets;
use std::alloc::{AllocError, Global};
use time_tables::read_tot;
use ts_demux::RawSection;

// The offsets that these sections say last, where they say some.
pub(crate) fn offsets_behind(
    alloc: Global,
    sections: &[RawSection],
) -> Result<Option<Offsets>, AllocError>
    ensures { IfOk result (λ told. told ≡ last_of (filter_map offsets_in sections.now)) }
{
    let mut told = None;
    for section in sections {
        if let Some(offsets) = offsets_in(alloc, section)? {
            told = Some(offsets);
        }
    }
    Ok(told)
}

// Keeps these offsets in the place of the others, where there are some.
pub(crate) fn keep_last(kept: &mut Offsets, told: Option<Offsets>)
    ensures { kept.new ≡ unwrap_or told kept.old }
{
    if let Some(offsets) = told {
        *kept = offsets;
    }
}

// The offsets that a section says, where it is a TOT.
fn offsets_in(alloc: Global, raw: &RawSection) -> Result<Option<Offsets>, AllocError>
    ensures { IfOk result (λ offsets. offsets ≡ offsets_in raw.now) }
{
    if raw.pid != 0x0014 {
        return Ok(None);
    }
    let Some(body) = short_body(alloc, raw, 0x73)? else {
        return Ok(None);
    };
    match read_tot(alloc, body.as_slice())? {
        Some(tot) => Ok(Some(tot.offsets)),
        None => Ok(None),
    }
}
