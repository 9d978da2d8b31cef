// The moment that time and date tables tell.
ghost use Rattle.std.specs.Prelude.{◌≡◌, List, ◌++◌, IfOk, option_map};
ghost use Rattle.ts_demux.specs.declared.section.RawSection.{RawSection};
ghost use Rattle.guide_receiver.specs.Latest.{IsClock, moment_in};

use crate::short::short_body;
use si_time::Moment;
use std::alloc::{AllocError, Global};
use time_tables::read_tdt;
use ts_demux::RawSection;

// The moment that these sections tell last, or else the one before.
pub(crate) fn clock_behind(
    alloc: Global,
    before: Option<Moment>,
    sections: &[RawSection],
) -> Result<Option<Moment>, AllocError>
    ensures { (past : List RawSection) → IsClock past before → IfOk result (λ clock. IsClock (past ++ sections.now) clock) }
{
    let mut clock = before;
    for section in sections {
        if let Some(at) = moment_in(alloc, section)? {
            clock = Some(at);
        }
    }
    Ok(clock)
}

// The moment that a section tells, where it is a TDT.
fn moment_in(alloc: Global, raw: &RawSection) -> Result<Option<Moment>, AllocError>
    ensures { IfOk result (λ moment. option_map (λ at. at.0) moment ≡ moment_in raw.now) }
{
    if raw.pid != 0x0014 {
        return Ok(None);
    }
    match short_body(alloc, raw, 0x70)? {
        Some(body) => Ok(read_tdt(body.as_slice())),
        None => Ok(None),
    }
}
