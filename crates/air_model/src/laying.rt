// Sections laid end to end in one buffer.
ghost use Rattle.std.specs.Prelude.{◌≡◌, ◌≢◌, ◌+◌, ◌*◌, ◌<◌, ◌≤◌, ◌++◌, [], ◌∷◌, List, ℕ, length, vec_len, vec_capacity, IfOk, IfSome};
ghost use Rattle.std.specs.List.{All, prefix_len};
ghost use Rattle.section_codec.specs.Section.{section_bytes, longest_body};
ghost use Rattle.section_codec.specs.Contents.{last_number};
ghost use Rattle.air_model.specs.Air.{Sent, sent_section, sections_of, tdt, tot, leads, CanBeTold};
ghost use Rattle.air_model.specs.Laying.{AreLaid, Grew, sections_under, cycle_under, told_with, sent_tot, tot_size, size_of, room_of, room_for, places_for};
ghost use Rattle.section_codec.specs.SubTables.{IsFit, header_of};

use crate::placed::Placed;
use guide_model::Offset;
use section_codec::{LongHeader, NumberedBody, SubTable, Tier3, is_eit, put_section};
use si_base::{Bytes, put};
use si_time::Moment;
use std::alloc::{AllocError, Global};
use time_tables::{write_tdt, write_tot};

/// How many bytes the sections of these sub-tables have and how many sections there are, where these numbers fit.
pub(crate) fn room_for(tables: &[SubTable]) -> Option<(usize, usize)>
    ensures { IfSome result (λ room. (room.0 ≡ room_for tables.now) × (room.1 ≡ places_for tables.now)) }
{
    let mut bytes: usize = 0;
    let mut places: usize = 0;
    for table in tables {
        let sections = table.sections.as_slice();
        bytes = bytes.checked_add(room_of(sections)?)?;
        places = places.checked_add(sections.len())?;
    }
    Some((bytes, places))
}

fn room_of(sections: &[NumberedBody]) -> Option<usize>
    ensures { IfSome result (λ room. room ≡ room_of sections.now) }
{
    let mut bytes: usize = 0;
    for section in sections {
        bytes = bytes.checked_add(12)?.checked_add(section.body.len())?;
    }
    Some(bytes)
}

/// The written TOT of this moment and these offsets; there is none where there are no offsets (EN
/// 300 468, 5.2.6).
pub(crate) fn tot_of(
    alloc: Global,
    moment: Moment,
    offsets: &[Offset],
) -> Result<Option<Bytes>, AllocError>
    requires moment { moment.0 < 65536 * 86400 }
    requires offsets { CanBeTold offsets.now }
    ensures sent { IfOk result (λ section. sent_tot section ≡ tot moment.0 offsets.now) }
    ensures size { IfOk result (λ section. size_of section ≡ tot_size offsets.now) }
{
    if offsets.is_empty() {
        return Ok(None);
    }
    Ok(Some(write_tot(alloc, moment, offsets)?))
}

/// Lays the sections of a cycle of these sub-tables, each with its version, and at their place
/// among them the TDT of this moment (EN 300 468, 5.2.5) and a written TOT, where there is one,
/// after those that are laid. It takes no memory.
pub(crate) fn lay_cycle(
    bytes: &mut Vec<u8>,
    placed: &mut Vec<Placed>,
    tables: &[SubTable],
    versions: &[u8],
    moment: Moment,
    section: &Option<Bytes>,
)
    requires fit { All IsFit tables.now }
    requires versions { All (λ v. v < 32) versions.now }
    requires moment { moment.0 < 65536 * 86400 }
    requires room { vec_len bytes.old + (8 + size_of section.now + room_for tables.now) ≤ vec_capacity bytes.old }
    requires places { vec_len placed.old + (2 + places_for tables.now) ≤ vec_capacity placed.old }
    ensures { (ss : List Sent) → AreLaid ss bytes.old.items placed.old.items
        → AreLaid (ss ++ cycle_under versions.now tables.now (told_with moment.0 section.now)) bytes.new.items placed.new.items }
{
    let count = lead_count(tables);
    let (before, behind) = tables.split_at(count);
    let (early, late) = versions.split_at(count.min(versions.len()));
    lay_tables(bytes, placed, before, early);
    lay_times(bytes, placed, moment, section);
    lay_tables(bytes, placed, behind, late);
}

/// How many of these sub-tables are sent before the TDT.
pub(crate) fn lead_count(tables: &[SubTable]) -> usize
    ensures { result ≡ prefix_len leads tables.now }
{
    let mut count = 0;
    for table in tables {
        if !leads(table) {
            return count;
        }
        count += 1;
    }
    count
}

fn leads(table: &SubTable) -> bool
    ensures { result ≡ leads table.now }
{
    matches!(table.tier, Tier3::Fast) && !is_eit(table.key.table)
}

// Lays the sections that tell the time.
fn lay_times(bytes: &mut Vec<u8>, placed: &mut Vec<Placed>, moment: Moment, section: &Option<Bytes>)
    requires moment { moment.0 < 65536 * 86400 }
    requires room { vec_len bytes.old + (8 + size_of section.now) ≤ vec_capacity bytes.old }
    requires places { vec_len placed.old + 2 ≤ vec_capacity placed.old }
    ensures laid { (ss : List Sent) → AreLaid ss bytes.old.items placed.old.items
        → AreLaid (ss ++ told_with moment.0 section.now) bytes.new.items placed.new.items }
    ensures bytes { Grew bytes.old bytes.new (8 + size_of section.now) }
    ensures placed { Grew placed.old placed.new 2 }
{
    lay_bytes(bytes, placed, &write_tdt(moment));
    lay_tot(bytes, placed, section);
}

fn lay_tot(bytes: &mut Vec<u8>, placed: &mut Vec<Placed>, section: &Option<Bytes>)
    requires room { vec_len bytes.old + size_of section.now ≤ vec_capacity bytes.old }
    requires place { vec_len placed.old < vec_capacity placed.old }
    ensures laid { (ss : List Sent) → AreLaid ss bytes.old.items placed.old.items
        → AreLaid (ss ++ sent_tot section.now) bytes.new.items placed.new.items }
    ensures bytes { Grew bytes.old bytes.new (size_of section.now) }
    ensures placed { Grew placed.old placed.new 1 }
{
    if let Some(section) = section {
        lay_bytes(bytes, placed, section.as_slice());
    }
}

// Lays a section that tells the time.
fn lay_bytes(bytes: &mut Vec<u8>, placed: &mut Vec<Placed>, section: &[u8])
    requires room { vec_len bytes.old + length section.now ≤ vec_capacity bytes.old }
    requires place { vec_len placed.old < vec_capacity placed.old }
    ensures laid { (ss : List Sent) → AreLaid ss bytes.old.items placed.old.items
        → AreLaid (ss ++ record { pid = 0x14; bytes = section.now } ∷ []) bytes.new.items placed.new.items }
    ensures bytes { Grew bytes.old bytes.new (length section.now) }
    ensures placed { Grew placed.old placed.new 1 }
{
    let start = bytes.len();
    put(bytes, section);
    let len = section.len();
    placed
        .push(Placed {
            pid: 0x14,
            start,
            len,
        })
        .unwrap();
}

// Lays the sections of these sub-tables, each with its version.
fn lay_tables(bytes: &mut Vec<u8>, placed: &mut Vec<Placed>, tables: &[SubTable], versions: &[u8])
    requires fit { All IsFit tables.now }
    requires versions { All (λ v. v < 32) versions.now }
    requires room { vec_len bytes.old + room_for tables.now ≤ vec_capacity bytes.old }
    requires places { vec_len placed.old + places_for tables.now ≤ vec_capacity placed.old }
    ensures laid { (ss : List Sent) → AreLaid ss bytes.old.items placed.old.items
        → AreLaid (ss ++ sections_under versions.now tables.now) bytes.new.items placed.new.items }
    ensures bytes { Grew bytes.old bytes.new (room_for tables.now) }
    ensures placed { Grew placed.old placed.new (places_for tables.now) }
{
    for (table, version) in tables.iter().zip(versions) {
        lay_table(bytes, placed, table, *version);
    }
}

fn lay_table(bytes: &mut Vec<u8>, placed: &mut Vec<Placed>, table: &SubTable, version: u8)
    requires fit { IsFit table.now }
    requires version { version < 32 }
    requires room { vec_len bytes.old + room_of table.now.sections ≤ vec_capacity bytes.old }
    requires places { vec_len placed.old + length table.now.sections ≤ vec_capacity placed.old }
    ensures laid { (ss : List Sent) → AreLaid ss bytes.old.items placed.old.items → AreLaid (ss ++ sections_of version table.now) bytes.new.items placed.new.items }
    ensures bytes { Grew bytes.old bytes.new (room_of table.now.sections) }
    ensures placed { Grew placed.old placed.new (length table.now.sections) }
{
    let sections = table.sections.as_slice();
    let last = last_number(sections);
    for section in sections {
        let header = LongHeader {
            table: table.key.table,
            ext: table.key.ext,
            version,
            current: true,
            number: section.number,
            last,
        };
        lay_section(
            bytes,
            placed,
            table.key.pid,
            &header,
            section.body.as_slice(),
        );
    }
}

fn last_number(sections: &[NumberedBody]) -> u8
    ensures { result ≡ last_number sections.now }
{
    match sections.last() {
        Some(section) => section.number,
        None => 0,
    }
}

fn lay_section(
    bytes: &mut Vec<u8>,
    placed: &mut Vec<Placed>,
    pid: u16,
    header: &LongHeader,
    body: &[u8],
)
    requires version { header.now.version < 32 }
    requires within { length body.now ≤ 4084 }
    requires room { vec_len bytes.old + (12 + length body.now) ≤ vec_capacity bytes.old }
    requires place { vec_len placed.old < vec_capacity placed.old }
    ensures laid { (ss : List Sent) → AreLaid ss bytes.old.items placed.old.items → AreLaid (ss ++ record { pid = pid; bytes = section_bytes header.now body.now } ∷ []) bytes.new.items placed.new.items }
    ensures bytes { Grew bytes.old bytes.new (12 + length body.now) }
    ensures placed { Grew placed.old placed.new 1 }
{
    let start = bytes.len();
    put_section(bytes, header, body);
    let len = bytes.len() - start;
    placed.push(Placed { pid, start, len }).unwrap();
}
