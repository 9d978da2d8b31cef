// The time offset table, both ways.
ghost use Rattle.std.specs.Prelude.{◌<◌, IsTrue};
ghost use Rattle.time_tables.specs.LocalOffsets.{FitsOffset};
ghost use Rattle.time_tables.specs.Tot.{AreSent};

use guide_model::Offset;
use row_lines::{
    Buffer, Row, code, each_part, moment, moment_text, put_code, put_made, say, text_of,
};
use si_base::crc32;
use si_time::read_moment;
use std::alloc::{AllocError, Global};
use std::fmt::Write;
use time_tables::{Tot, read_tot, write_tot};

fn side(row: &mut Row) -> bool {
    let word = row.word();
    if word != "ahead" && word != "behind" {
        row.refuse();
    }
    word == "behind"
}

// An offset: country, region, `ahead` or `behind`, minutes, the change and the minutes from then on.
fn offset(row: &mut Row) -> Option<Offset> {
    let offset = Offset {
        country: code(row),
        region: row.octet(),
        behind: side(row),
        minutes: row.short(),
        change: moment(row),
        next: row.short(),
    };
    row.pass_end();
    Some(offset)
}

// Whether each part fits its field.
fn fits(offset: Offset) -> bool
    ensures { IsTrue result → FitsOffset offset }
{
    offset.region < 64
        && offset.minutes < 1440
        && offset.change.0 < 65_536 * 86_400
        && offset.next < 1440
}

// Whether a table can say them.
fn are_sent(offsets: &[Offset]) -> bool
    ensures { IsTrue result → AreSent offsets.now }
{
    if offsets.is_empty() || offsets.len() > 16 {
        return false;
    }
    for i in 0..offsets.len() {
        if !fits(offsets[i]) {
            return false;
        }
    }
    true
}

/// `write_tot MOMENT / OFFSET / ..`: the whole section.
pub fn write_offsets(row: &mut Row) {
    let word = row.word();
    let Some(at) = read_moment(word.as_bytes()) else {
        return row.refuse();
    };
    let offsets = each_part(row, offset);
    if !are_sent(&offsets) {
        return row.refuse();
    }
    put_made(row, write_tot(row.alloc(), at, &offsets));
}

/// `read_tot BYTES`: the moment and the offsets of a body.
pub fn read_offsets(row: &mut Row, body: &[u8]) {
    let read = read_tot(row.alloc(), body);
    if let Some(read) = row.made(read) {
        put_read(row, read.as_ref());
    }
}

fn put_read(row: &mut Row, read: Option<&Tot>) {
    let Some(tot) = read else {
        return row.put(" none");
    };
    say!(row; " {}", text_of(&moment_text(tot.at)));
    for offset in tot.offsets.as_slice() {
        put_offset(row, offset);
    }
    row.put(";");
}

fn put_offset(row: &mut Row, offset: &Offset) {
    row.put(" /");
    put_code(row, &offset.country);
    let side = if offset.behind { "behind" } else { "ahead" };
    let change = moment_text(offset.change);
    say!(row; " {} {side} {}", offset.region, offset.minutes);
    say!(row; " {} {}", text_of(&change), offset.next);
}

/// `tot_bits BYTES`: each bit of a body changed in turn: how many of these are no body, how many have no offset, how many have some, and the
/// CRC_32 of what `read_tot` gives of them, one after the other.
pub fn change_bits(row: &mut Row) {
    let bytes = row.bytes();
    let mut told = Buffer::open(row.alloc());
    let mut counts = [0; 3];
    for place in 0..bytes.len() {
        let done = change_byte(row.alloc(), &bytes, place, &mut counts, &mut told);
        row.need(done.is_ok() && !told.lacks());
    }
    say!(row; " none {} without {} with {} |", counts[0], counts[1], counts[2]);
    row.put_bytes(&crc32(told.as_slice()).to_be_bytes());
}

// The bits of a byte, from the lowest on.
fn change_byte(
    alloc: Global,
    bytes: &[u8],
    place: usize,
    counts: &mut [u64; 3],
    told: &mut Buffer,
) -> Result<(), AllocError> {
    for bit in [1, 2, 4, 8, 16, 32, 64, 128] {
        let mut body = Vec::from_slice(alloc, bytes)?;
        if let Some(byte) = body.get_mut(place) {
            *byte ^= bit;
        }
        let read = read_tot(alloc, &body)?;
        count(counts, read.as_ref());
        let mut row = Row::open(alloc, "");
        put_read(&mut row, read.as_ref());
        say!(told; " = {}", row.end().text());
    }
    Ok(())
}

fn count(counts: &mut [u64; 3], read: Option<&Tot>) {
    let index = index_of(read);
    counts[index] = counts[index].saturating_add(1);
}

// 0 where there is no body, 1 without an offset, 2 with one.
fn index_of(read: Option<&Tot>) -> usize
    ensures { result < 3 }
{
    match read {
        None => 0,
        Some(tot) if tot.offsets.as_slice().is_empty() => 1,
        Some(_) => 2,
    }
}
