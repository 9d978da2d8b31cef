// Lists and packets in rows, and what calls make or read.
use crate::line::{MOST, Row};
use si_base::Bytes;
use std::alloc::AllocError;

/// A value of each word up to a bar, a slash or the end.
pub fn each_word<T: Drop, F: Fn(&mut Row, &str) -> T>(row: &mut Row, value_of: F) -> Vec<T>
    requires { F.IsAlwaysCallable value_of }
{
    let mut values = Vec::new(row.alloc());
    for _ in 0..MOST {
        let word = row.word();
        if row.is_end(word) {
            break;
        }
        let value = value_of(row, word);
        row.need(values.push(value).is_ok());
    }
    values
}

/// A value of each part, from after the next slash on; `read` reads a part with its end. Where it
/// gives none there is none.
pub fn each_part<T: Drop, F: Fn(&mut Row) -> Option<T>>(row: &mut Row, read: F) -> Vec<T>
    requires { F.IsAlwaysCallable read }
{
    let mut values = Vec::new(row.alloc());
    row.pass_end();
    for _ in 0..MOST {
        if !row.goes_on() {
            break;
        }
        if let Some(value) = read(row) {
            row.need(values.push(value).is_ok());
        }
    }
    values
}

/// The packet that begins with these bytes and is FF up to its end.
pub fn packet_in(row: &mut Row) -> [u8; 188] {
    let front = row.bytes();
    let mut packet = [0xFF; 188];
    if front.len() > 188 {
        row.refuse();
    }
    for (into, byte) in packet.iter_mut().zip(&front) {
        *into = *byte;
    }
    packet
}

/// Puts bytes that were made.
pub fn put_made(row: &mut Row, made: Result<Bytes, AllocError>) {
    if let Some(bytes) = row.made(made) {
        row.put_bytes(bytes.as_slice());
    }
}

/// Puts bytes that were appended to others.
pub fn put_appended(row: &mut Row, done: Result<(), AllocError>, out: &[u8]) {
    row.need(done.is_ok());
    row.put_bytes(out);
}

/// Puts what was read by `put`, or says that there is `none`.
pub fn put_read<T: Drop, F: Fn(&mut Row, &T)>(
    row: &mut Row,
    read: Result<Option<T>, AllocError>,
    none: &str,
    put: F,
)
    requires { F.IsAlwaysCallable put }
{
    match row.made(read) {
        Some(Some(value)) => put(row, &value),
        Some(None) => row.put(none),
        None => {}
    }
}
