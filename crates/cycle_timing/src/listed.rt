// The sections of a cycle as a plan takes them.
ghost use Rattle.std.specs.Prelude.{◌≡◌, ◌++◌, ◌<◌, map, count_by, IfOk, OnOk};
ghost use Rattle.std.specs.List.{All, prefix_len};
ghost use Rattle.section_codec.specs.SubTables.{IsFit};
ghost use Rattle.air_model.specs.Sections.{is_fast, is_near};
ghost use Rattle.ts_packets.specs.Packets.{packets_of};
ghost use Rattle.air_model.specs.Air.{CanBeTold, leads};
ghost use Rattle.cycle_timing.specs.Listing.{listed_in, listed_of, tot_listed, times_listed, time_listed, listed_under, HasRange, IsSized};

use guide_model::Offset;
use section_codec::{Key, SubTable, Tier3, is_eit};
use std::alloc::{AllocError, Global};
use ts_packets::packets_of;

/// A section: its tier, what names its sub-table, which is a key without a stream, and its bytes.
#[derive(Clone, Copy)]
pub(crate) struct Listed {
    pub tier: Tier3,
    pub name: Key,
    pub len: u16,
}

/// Of a cycle of these sub-tables, with a TDT, and a TOT where there are offsets, each section
/// once.
pub(crate) fn list_sections(
    alloc: Global,
    tables: &[SubTable],
    offsets: &[Offset],
) -> Result<Vec<Listed>, AllocError>
    requires fit { All IsFit tables.now }
    requires offsets { CanBeTold offsets.now }
    ensures listed { IfOk result (λ listed. listed.items ≡ listed_under tables.now offsets.now) }
    ensures ranges { OnOk result (All HasRange tables.now) }
{
    let mut listed = Vec::new(alloc);
    let (before, behind) = tables.split_at(lead_count(tables));
    put_tables(&mut listed, before)?;
    put_times(&mut listed, offsets)?;
    put_tables(&mut listed, behind)?;
    Ok(listed)
}

// How many of these sub-tables are sent before the TDT.
fn lead_count(tables: &[SubTable]) -> usize
    ensures { result ≡ prefix_len leads tables.now }
{
    let mut count = 0;
    for table in tables {
        if !leads(table) {
            return count;
        }
        count += 1;
    }
    count
}

fn leads(table: &SubTable) -> bool
    ensures { result ≡ leads table.now }
{
    matches!(table.tier, Tier3::Fast) && !is_eit(table.key.table)
}

fn put_tables(listed: &mut Vec<Listed>, tables: &[SubTable]) -> Result<(), AllocError>
    requires { All IsFit tables.now }
    ensures listed { OnOk result (listed.new.items ≡ listed.old.items ++ listed_of tables.now) }
    ensures ranges { OnOk result (All HasRange tables.now) }
{
    for table in tables {
        put_table(listed, table)?;
    }
    Ok(())
}

fn put_table(listed: &mut Vec<Listed>, table: &SubTable) -> Result<(), AllocError>
    requires { IsFit table.now }
    ensures listed { OnOk result (listed.new.items ≡ listed.old.items ++ listed_in table.now) }
    ensures range { HasRange table.now }
{
    let name = name_of(table.key.pid, table.key.table, table.key.ext);
    for section in table.sections.as_slice() {
        listed.push(Listed {
            tier: table.tier,
            name,
            len: (section.body.len() + 12) as u16,
        })?;
    }
    Ok(())
}

fn name_of(pid: u16, table: u8, ext: u16) -> Key
    ensures name { result
        ≡ record { pid = pid; table = table; ext = ext; stream = 0; network = 0 } }
    ensures range { ext < 65536 }
{
    Key {
        pid,
        table,
        ext,
        stream: 0,
        network: 0,
    }
}

// The TDT has 8 bytes, and a TOT 16 bytes beside its offsets, each of which has 13.
fn put_times(listed: &mut Vec<Listed>, offsets: &[Offset]) -> Result<(), AllocError>
    requires { CanBeTold offsets.now }
    ensures { OnOk result (listed.new.items ≡ listed.old.items ++ times_listed offsets.now) }
{
    listed.push(time_listed(0x70, 8))?;
    put_tot(listed, offsets)
}

fn put_tot(listed: &mut Vec<Listed>, offsets: &[Offset]) -> Result<(), AllocError>
    requires { CanBeTold offsets.now }
    ensures { OnOk result (listed.new.items ≡ listed.old.items ++ tot_listed offsets.now) }
{
    if offsets.is_empty() {
        return Ok(());
    }
    listed.push(time_listed(0x73, (16 + 13 * offsets.len()) as u16))?;
    Ok(())
}

fn time_listed(table: u8, len: u16) -> Listed
    ensures { result ≡ time_listed table len }
{
    Listed {
        tier: Tier3::Fast,
        name: name_of(0x14, table, 0),
        len,
    }
}

/// How many of these are Fast,
pub(crate) fn count_fast(listed: &[Listed]) -> usize
    ensures { result ≡ count_by (λ l. is_fast l.tier) listed.now }
{
    listed
        .iter()
        .filter(|l| matches!(l.tier, Tier3::Fast))
        .count()
}

/// and how many Near.
pub(crate) fn count_near(listed: &[Listed]) -> usize
    ensures { result ≡ count_by (λ l. is_near l.tier) listed.now }
{
    listed
        .iter()
        .filter(|l| matches!(l.tier, Tier3::Near))
        .count()
}

/// How many packets each has.
pub(crate) fn sizes_of(alloc: Global, listed: &[Listed]) -> Result<Vec<u32>, AllocError>
    requires { All IsSized listed.now }
    ensures { IfOk result (λ sizes. sizes.items ≡ map (λ l. packets_of l.len) listed.now) }
{
    let mut sizes = Vec::with_capacity(alloc, listed.len())?;
    for section in listed {
        sizes.push(packets_of(usize::from(section.len)))?;
    }
    Ok(sizes)
}
