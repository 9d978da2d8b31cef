// Sums of bytes, and bytes taken from their front.
use crate::notation::{append, number_below, number_in, put_hex};
use row_lines::Row;
use si_base::{Reader, crc32};

/// The CRC of bytes.
pub fn put_crc(row: &mut Row, bytes: &[u8]) {
    put_hex(row, &crc32(bytes).to_be_bytes());
}

/// The CRC of so many mixed bytes.
pub fn put_crc_of_mixed(row: &mut Row) {
    let count = number_below(row, 100_000);
    let mixed = mixed(row, count);
    put_crc(row, &mixed);
}

// The high bytes of numbers of which each is made of the one before it.
fn mixed(row: &mut Row, count: u64) -> Vec<u8> {
    let mut bytes = Vec::new(row.alloc());
    let mut state = 1u32;
    for _ in 0..count {
        state = state.wrapping_mul(1_664_525).wrapping_add(1_013_904_223);
        append(row, &mut bytes, &[(state >> 24) as u8]);
    }
    bytes
}

/// What is taken by calls that ask for these numbers of bytes, with commas between them.
pub fn take(row: &mut Row) {
    let counts = row.word();
    if row.call().is_empty() {
        return row.refuse();
    }
    let bytes = row.rest_bytes();
    let mut reader = Reader::open(&bytes);
    let mut is_first = true;
    for count in counts.split(',') {
        if !is_first {
            row.put(",");
        }
        is_first = false;
        let count = number_in(row, 100_000, count);
        put_taken(row, &mut reader, count as usize);
    }
}

fn put_taken(row: &mut Row, reader: &mut Reader, count: usize) {
    match reader.take(count) {
        Some(front) => put_hex(row, front),
        None => row.put(" none"),
    }
}
