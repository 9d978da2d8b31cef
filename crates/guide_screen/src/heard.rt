// What a receiver has to show.
ghost use Rattle.std.specs.Prelude.{◌≡◌, IfOk};
ghost use Rattle.guide_screen.specs.View.{View};
ghost use Rattle.guide_screen.specs.Holding.{Holds, named};
ghost use Rattle.guide_screen.specs.Screen.{heard_of};

use crate::contents::Latest;
use crate::need::Heard;
use crate::needs::needs_of;
use crate::screen::{Named, screen_of};
use crate::services::{programs_of, services_of};
use guide_model::Offset;
use section_codec::Key;
use si_base::Items;
use std::alloc::{AllocError, Global};
use sub_collect::Collector;

/// What a receiver has to show of the sub-tables that it heard whole: the needs that are not met,
/// in order, or else the whole screen (ISO/IEC 13818-1, 2.4.4.3 and 2.4.4.8; EN 300 468, 5.2.1,
/// 5.2.3 to 5.2.5).
///
/// It needs a PAT, a NIT, the SDT of the PAT's stream, a moment, and the PMT of each program of the
/// PAT; then, of each service of the SDT, the present and following events and the tables of the
/// schedule, where its flags say that they are sent. Nothing is needed of other streams. The screen
/// has the offsets of local time that are handed in, and the streams that the SDTs with the keys
/// `others` describe, in this order, but its own. `Wanting` has one need at least
/// (`screens_need_nothing`). The screen shows the services of each stream by ascending service_id, a
/// repeated one by its first entry.
///
/// Beside looking keys up, its time is linear in the services, in the bytes of the contents, and in
/// the other streams times the streams of the NIT.
pub fn heard_guide(
    alloc: Global,
    contents: &Collector,
    latest: Latest,
    offsets: &[Offset],
    others: &[Key],
) -> Result<Heard, AllocError>
    ensures { (V : View) → Holds contents.now latest V → V.offsets ≡ offsets.now
        → V.others ≡ others.now → IfOk result (λ heard. heard ≡ heard_of V) }
{
    let programs = programs_of(alloc, contents, latest.pat)?;
    let services = services_of(alloc, contents, latest.sdt)?;
    let needs = needs_of(alloc, contents, &latest, &programs, &services)?;
    if let Some(of) = named(&latest)
        && needs.is_empty()
    {
        let screen = screen_of(alloc, contents, of, offsets, &programs, services, others)?;
        return Ok(Heard::Whole(screen));
    }
    Ok(Heard::Wanting(Items::of(needs)))
}

// The keys and the moment that a screen shows, where there are all.
fn named(latest: &Latest) -> Option<Named>
    ensures { result ≡ named latest.now }
{
    Some(Named {
        pat: latest.pat?,
        nit: latest.nit?,
        sdt: latest.sdt?,
        clock: latest.clock?,
    })
}
