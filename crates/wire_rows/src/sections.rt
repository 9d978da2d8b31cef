// Sections both ways, and their keys.
ghost use Rattle.std.specs.Prelude.{◌≡◌, ◌<◌};
ghost use Rattle.section_codec.specs.Section.{longest_body};

use row_lines::{Buffer, Row, put_made, say};
use section_codec::{
    BadSection, Key, LongHeader, Section, eit_numbers, has_long_form, has_short_form, key_of,
    read_section, write_long, write_short, write_short_crc,
};
use std::fmt::Write;

/// `write_long HEADER | BODY`: the bytes of the section.
pub fn long(row: &mut Row) {
    let header = header(row);
    let body = row.bytes();
    if has_short_form(header.table)
        || header.version >= 32
        || header.number > header.last
        || body.len() > longest_body(header.table)
    {
        return row.refuse();
    }
    put_made(row, write_long(row.alloc(), &header, &body));
}

/// `write_short TABLE | BODY`: the bytes of the section.
pub fn short(row: &mut Row) {
    let table = row.byte();
    row.pass("|");
    let body = row.bytes();
    if has_long_form(table) || table == 0x73 || body.len() > 4093 {
        return row.refuse();
    }
    put_made(row, write_short(row.alloc(), table, &body));
}

/// `write_short_crc BODY`: the bytes of the section of table 73.
pub fn short_crc(row: &mut Row) {
    let body = row.bytes();
    if body.len() > 4089 {
        return row.refuse();
    }
    put_made(row, write_short_crc(row.alloc(), 0x73, &body));
}

/// `read_section BYTES`: the section, or why there is none.
pub fn read(row: &mut Row) {
    let bytes = row.bytes();
    match read_section(row.alloc(), &bytes) {
        Ok(Section::Long(header, body)) => {
            put_header(row, &header);
            row.put_bytes(body.as_slice());
        }
        Ok(Section::Short(table, body)) => {
            say!(row; " short {table:02X} |");
            row.put_bytes(body.as_slice());
        }
        Err(BadSection::Length) => row.put(" refused length"),
        Err(BadSection::Crc(kept, found)) => {
            row.put(" refused crc kept");
            row.put_bytes(&kept.to_be_bytes());
            row.put(" found");
            row.put_bytes(&found.to_be_bytes());
        }
        Err(BadSection::Syntax) => row.put(" refused syntax"),
        Err(BadSection::Memory) => row.lack_memory(),
    }
}

fn put_header(row: &mut Row, header: &LongHeader) {
    let LongHeader { table, ext, .. } = *header;
    let (version, number, last) = (header.version, header.number, header.last);
    let current = if header.current { "current" } else { "next" };
    say!(row; " table {table:02X} extension {ext:04X} version {version} {current}");
    say!(row; " section {number} last {last} |");
}

// `current`, or `next`.
fn is_current(row: &mut Row) -> bool {
    let word = row.word();
    if word != "current" && word != "next" {
        row.refuse();
    }
    word == "current"
}

// `table 42 extension 0001 version 0 current section 0 last 0 |`.
fn header(row: &mut Row) -> LongHeader {
    row.pass("table");
    let header = LongHeader {
        table: row.byte(),
        ext: row.hex_of("extension"),
        version: row.small("version"),
        current: is_current(row),
        number: row.small("section"),
        last: row.small("last"),
    };
    row.pass("|");
    header
}

// The longest body of a table's section in the long form.
fn longest_body(table: u8) -> usize
    ensures { result ≡ longest_body table }
{
    if matches!(table, 0x4E..=0x6F) {
        4084
    } else {
        1012
    }
}

/// `bits BYTES`: each bit of a section changed in turn: how many of these are read, and how many are refused for each reason.
pub fn bits(row: &mut Row) {
    let bytes = row.bytes();
    let mut counts = [0; 4];
    for place in 0..bytes.len() {
        count_bits(row, &mut counts, &bytes, place);
    }
    say!(row; " read {} length {}", counts[0], counts[1]);
    say!(row; " crc {} syntax {}", counts[2], counts[3]);
}

fn count_bits(row: &mut Row, counts: &mut [u64; 4], bytes: &[u8], place: usize) {
    let mut other = Buffer::open(row.alloc());
    for bit in [1, 2, 4, 8, 16, 32, 64, 128] {
        other.clear();
        other.put(bytes);
        other.flip(place, bit);
        row.need(!other.lacks());
        count(row, counts, other.as_slice());
    }
}

fn count(row: &mut Row, counts: &mut [u64; 4], bytes: &[u8]) {
    let index = answer_index(row, bytes);
    counts[index] = counts[index].saturating_add(1);
}

fn answer_index(row: &mut Row, bytes: &[u8]) -> usize
    ensures { result < 4 }
{
    match read_section(row.alloc(), bytes) {
        Ok(_) => 0,
        Err(BadSection::Length) => 1,
        Err(BadSection::Crc(_, _)) => 2,
        Err(BadSection::Syntax) => 3,
        Err(BadSection::Memory) => {
            row.lack_memory();
            0
        }
    }
}

/// `key_of PID | HEADER | BODY`: what names the sub-table.
pub fn key(row: &mut Row) {
    let pid = row.hex();
    row.pass("|");
    let header = header(row);
    let body = row.bytes();
    match key_of(pid, &header, &body) {
        Some(key) => put_key(row, &key),
        None => row.put(" none"),
    }
}

/// Appends a key.
pub fn put_key(row: &mut Row, key: &Key) {
    say!(row; " pid {:04X} table {:02X} extension {:04X}", key.pid, key.table, key.ext);
    say!(row; " stream {:04X} network {:04X}", key.stream, key.network);
}

/// `eit_numbers BODY`: segment_last_section_number and last_table_id.
pub fn numbers(row: &mut Row) {
    let body = row.bytes();
    let header = LongHeader {
        table: 0x50,
        ext: 1,
        version: 0,
        current: true,
        number: 0,
        last: 0,
    };
    match eit_numbers(&header, &body) {
        Some((last, table)) => say!(row; " segment_last {last} last_table {table:02X}"),
        None => row.put(" none"),
    }
}
