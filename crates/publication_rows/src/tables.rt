// Sub-tables in answers.
ghost use Rattle.std.specs.Prelude.{◌≡◌};
ghost use Rattle.section_codec.specs.Section.{longest_body};
ghost use Rattle.section_codec.specs.Tables.{has_short_form};

use crate::guides::built;
use row_lines::{Row, put_made, say};
use section_codec::{Key, LongHeader, NumberedBody, SubTable, Tier3, is_eit, write_long};
use std::fmt::Write;

// The longest body of a section of a table.
fn longest_body(table: u8) -> usize
    ensures { result ≡ longest_body table }
{
    if is_eit(table) { 4084 } else { 1012 }
}

// Whether the sections of a table have the short form.
fn has_short_form(table: u8) -> bool
    ensures { result ≡ has_short_form table }
{
    table == 0x70 || table == 0x73
}

// The number of the last section.
fn last_number(table: &SubTable) -> u8 {
    match table.sections.as_slice() {
        [.., last] => last.number,
        [] => 0,
    }
}

// Appends a whole section of version 0.
fn put_section(row: &mut Row, key: &Key, section: &NumberedBody, last: u8) {
    let header = LongHeader {
        table: key.table,
        ext: key.ext,
        version: 0,
        current: true,
        number: section.number,
        last,
    };
    if has_short_form(header.table)
        || header.number > header.last
        || section.body.len() > longest_body(header.table)
    {
        return row.refuse();
    }
    put_made(
        row,
        write_long(row.alloc(), &header, section.body.as_slice()),
    );
}

// Appends the sections of a table, a part each.
fn put_sections(row: &mut Row, table: &SubTable) {
    let last = last_number(table);
    for section in table.sections.as_slice() {
        row.begin_part();
        put_section(row, &table.key, section, last);
    }
}

/// `tables MOMENT LINES`: the sections of all sub-tables, in order.
pub fn all(row: &mut Row) {
    let Some(tables) = built(row) else {
        return;
    };
    for table in tables.list.as_slice() {
        put_sections(row, table);
    }
}

/// `table TABLE MOMENT LINES`: those of the sub-tables with this table_id.
pub fn one(row: &mut Row) {
    let wanted = row.byte();
    let Some(tables) = built(row) else {
        return;
    };
    for table in tables.list.as_slice() {
        if table.key.table == wanted {
            put_sections(row, table);
        }
    }
    row.end_parts();
}

// Appends what names a table, its tier, and the numbers of its sections.
fn put_place(row: &mut Row, table: &SubTable) {
    row.begin_part();
    let Key {
        pid,
        ext,
        stream,
        network,
        ..
    } = table.key;
    say!(row; " {pid:04X} {:02X} {ext} {stream} {network}", table.key.table);
    row.put(match table.tier {
        Tier3::Fast => " fast",
        Tier3::Near => " near",
        Tier3::Far => " far",
    });
    for section in table.sections.as_slice() {
        say!(row; " {}", section.number);
    }
}

/// `places MOMENT LINES`: of each sub-table its PID, table_id, table_id_extension, transport_stream_id and original_network_id in the
/// body, its tier, and the numbers of its sections.
pub fn places(row: &mut Row) {
    let Some(tables) = built(row) else {
        return;
    };
    for table in tables.list.as_slice() {
        put_place(row, table);
    }
}
