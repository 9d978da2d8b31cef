// Versions of lists of contents.
ghost use Rattle.std.specs.Prelude.{◌≡◌, IfOk};
ghost use Rattle.section_codec.specs.SubTables.{KeysDiffer};

use row_lines::{MOST, Row, say};
use section_codec::{Key, NumberedBody, SubTable, Tables, Tier3};
use si_base::Items;
use std::alloc::{AllocError, Global};
use std::fmt::Write;
use version_book::VersionBook;

/// `assign AIRING / AIRING ..`: the versions of each airing's sub-tables. An airing is the byte of table 50 and, where it is aired,
/// that of table 51. `assign_on COUNT | ..`: the same, where after so many airings a book goes on that was made of what the first one
/// keeps.
pub fn assign(row: &mut Row, goes_on: bool) {
    let mut cut = None;
    if goes_on {
        cut = Some(row.number());
        row.pass("|");
    }
    let mut book = VersionBook::open(row.alloc());
    assign_all(row, &mut book, cut);
}

fn assign_all(row: &mut Row, book: &mut VersionBook, cut: Option<u64>) {
    let mut is_cut = cut.is_none();
    for airing in 0..MOST {
        if cut == Some(u64::from(airing)) {
            go_on(row, book);
            is_cut = true;
        }
        let bytes = row.bytes();
        if bytes.len() > 2 {
            row.refuse();
        }
        row.begin_part();
        let versions = versions(row.alloc(), book, &bytes);
        if let Some(versions) = row.made(versions) {
            for version in versions.as_slice() {
                say!(row; " {version}");
            }
        }
        if !row.goes_on() {
            break;
        }
    }
    if !is_cut {
        row.refuse();
    }
}

fn go_on(row: &mut Row, book: &mut VersionBook) {
    let other = resumed(row.alloc(), book);
    if let Some(other) = row.made(other) {
        *book = other;
    }
}

fn resumed(alloc: Global, book: &VersionBook) -> Result<VersionBook, AllocError> {
    VersionBook::of(alloc, book.kept()?)
}

fn versions(alloc: Global, book: &mut VersionBook, bytes: &[u8]) -> Result<Items<u8>, AllocError> {
    let tables = airing(alloc, bytes)?;
    book.assign(&tables)
}

fn airing(alloc: Global, bytes: &[u8]) -> Result<Tables, AllocError>
    ensures { IfOk result (λ tables. KeysDiffer tables.list) }
{
    let mut list = Items::new(alloc);
    if let Some(first) = bytes.first() {
        list.push(sub_table(alloc, 0x50, *first)?)?;
        if let Some(second) = bytes.get(1) {
            list.push(sub_table(alloc, 0x51, *second)?)?;
        }
    }
    Ok(Tables { list })
}

// A sub-table of one section with this byte.
fn sub_table(alloc: Global, table: u8, byte: u8) -> Result<SubTable, AllocError>
    ensures { IfOk result (λ sub_table. sub_table.key.table ≡ table) }
{
    let body = Items::of(Vec::from_slice(alloc, &[byte])?);
    let mut sections = Items::new(alloc);
    sections.push(NumberedBody { number: 0, body })?;
    Ok(SubTable {
        key: Key {
            pid: 0x12,
            table,
            ext: 101,
            stream: 1,
            network: 1,
        },
        tier: Tier3::Near,
        sections,
    })
}
