// The sub-tables of other streams.
ghost use Rattle.std.specs.Prelude.{◌≡◌, ◌≤◌, ◌++◌, length, IfOk, OnOk};
ghost use Rattle.std.specs.List.{AllByRecursion};
ghost use Rattle.mux_model.specs.Sound.{IsSound, IsSoundOther};
ghost use Rattle.mux_model.specs.declared.mux.Other.{Other as OtherShape};
ghost use Rattle.guide_limits.specs.Limits.{IsGuideWithin};
ghost use Rattle.publication.specs.Laws.{HaveSmallEntries, HasPartsOf};
ghost use Rattle.publication.specs.Parts.{remote_guide};
ghost use Rattle.publication.specs.Sdt.{sdt_sections};
ghost use Rattle.publication.specs.Tables.{HasServicesOf, all_remote_presents, all_remote_schedules, other_sdt_table, other_sdt_tables, remote_presents, remote_schedules};

use crate::parts::part_in;
use crate::sdt::{remote_entries, sdt_sections};
use crate::{Stream, put_remote};
use mux_model::{Mux, Other};
use page_share::PageGuide;
use section_codec::{Key, SubTable, SubTables, Tier3};
use std::alloc::{AllocError, Global};

/// The PID and the table_id of the SDTs of other streams (EN 300 468, 5.1.3).
const SDT_PID: u16 = 0x0011;

const SDT_OTHER: u8 = 0x46;

/// The sub-tables of other streams: their SDTs, and present and following of their services; and
/// the schedules of these.
#[derive(Drop)]
pub(crate) struct OtherTables {
    pub near: SubTables,
    pub far: SubTables,
}

// The SDT of another stream.
fn other_sdt_table(alloc: Global, guide: &PageGuide, other: &Other) -> Result<SubTable, AllocError>
    requires few { length other.now.services ≤ 64 }
    requires sound { IsSoundOther other.now }
    requires within { IsGuideWithin guide.now.guide }
    ensures { IfOk result (λ table. table ≡ other_sdt_table guide.now.guide other.now) }
{
    let key = Key {
        pid: SDT_PID,
        table: SDT_OTHER,
        ext: other.stream,
        stream: 0,
        network: other.original,
    };
    let services = remote_entries(alloc, other)?;
    Ok(SubTable {
        key,
        tier: Tier3::Near,
        sections: sdt_sections(alloc, other.original, guide, services.as_slice())?,
    })
}

// Appends present and following of the services of another stream, and their schedules.
fn put_remotes(
    alloc: Global,
    guide: &PageGuide,
    other: &Other,
    near: &mut SubTables,
    far: &mut SubTables,
) -> Result<(), AllocError>
    requires parts { HasPartsOf guide.now.guide other.now }
    requires within { IsGuideWithin guide.now.guide }
    ensures near { OnOk result (near.new ≡ near.old ++ remote_presents guide.now.guide other.now) }
    ensures far { OnOk result (far.new ≡ far.old ++ remote_schedules guide.now.guide other.now) }
    ensures small { OnOk result (HaveSmallEntries (remote_guide guide.now.guide other.now)) }
{
    let of = Stream {
        is_own: false,
        stream: other.stream,
        original: other.original,
    };
    for service in other.services.as_slice() {
        let Some(part) = part_in(guide, service.service) else {
            unreachable!()
        };
        put_remote(alloc, of, guide.moment(), part, near, far)?;
    }
    Ok(())
}

/// The sub-tables of the other streams of a multiplex, stream by stream (EN 300 468, 5.2.3 and
/// 5.2.4).
pub(crate) fn other_tables(
    alloc: Global,
    mux: &Mux,
    guide: &PageGuide,
) -> Result<OtherTables, AllocError>
    requires sound { IsSound mux.now }
    requires services { HasServicesOf mux.now guide.now.guide }
    requires within { IsGuideWithin guide.now.guide }
    ensures near { IfOk result (λ t. t.near ≡ other_sdt_tables mux.now guide.now.guide ++ all_remote_presents mux.now guide.now.guide) }
    ensures far { IfOk result (λ t. t.far ≡ all_remote_schedules mux.now guide.now.guide) }
    ensures small { IfOk result (λ t. AllByRecursion (λ (o : OtherShape). HaveSmallEntries (remote_guide guide.now.guide o)) mux.now.others) }
{
    let mut near = SubTables::new(alloc);
    let mut far = SubTables::new(alloc);
    for other in mux.others.as_slice() {
        near.push(other_sdt_table(alloc, guide, other)?)?;
    }
    for carried in mux.others.as_slice() {
        put_remotes(alloc, guide, carried, &mut near, &mut far)?;
    }
    Ok(OtherTables { near, far })
}
