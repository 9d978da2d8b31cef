// Changes of a recording.
use crate::nulls::{put_with_null, put_with_nulls};
use crate::texts::{byte, number};
use row_lines::Buffer;
use std::alloc::Global;

/// The packets up to one, without it.
pub fn before(bytes: &[u8], packet: usize) -> &[u8] {
    bytes.get(..packet.saturating_mul(188)).unwrap_or(bytes)
}

/// The packets from one on.
pub fn from(bytes: &[u8], packet: usize) -> &[u8] {
    bytes.get(packet.saturating_mul(188)..).unwrap_or(&[])
}

/// One packet.
pub fn one(bytes: &[u8], packet: usize) -> &[u8] {
    before(from(bytes, packet), 1)
}

// Appends these bytes with a packet left out.
fn put_without(into: &mut Buffer, bytes: &[u8], packet: usize) {
    into.put(before(bytes, packet));
    into.put(from(bytes, packet.saturating_add(1)));
}

// Appends these bytes with a copy of a packet after it.
fn put_doubled(into: &mut Buffer, bytes: &[u8], packet: usize) {
    into.put(before(bytes, packet.saturating_add(1)));
    into.put(from(bytes, packet));
}

// Appends these bytes with two packets exchanged, of which the first stands before the second.
fn put_exchanged(into: &mut Buffer, bytes: &[u8], first: usize, second: usize) {
    into.put(before(bytes, first));
    into.put(one(bytes, second));
    into.put(from(before(bytes, second), first.saturating_add(1)));
    into.put(one(bytes, first));
    into.put(from(bytes, second.saturating_add(1)));
}

// Appends these bytes with a bit changed, counted from the highest of the first byte of a packet.
fn put_flipped(into: &mut Buffer, bytes: &[u8], packet: usize, bit: usize) {
    let place = packet.saturating_mul(188).saturating_add(bit / 8);
    let place = into.len().saturating_add(place);
    into.put(bytes);
    into.flip(place, 128 >> (bit % 8));
}

// `COUNT*BYTE`
fn append(bytes: &mut Buffer, change: &str) -> Option<()> {
    let (count, value) = change.split_once('*')?;
    let value = byte(value)?;
    for _ in 0..number(count)? {
        bytes.push(value);
    }
    Some(())
}

// `PACKET:PLACE:BYTE`
fn put_byte(bytes: &mut Buffer, change: &str) -> Option<()> {
    let (packet, change) = change.split_once(':')?;
    let (place, value) = change.split_once(':')?;
    let at = number(packet)?.saturating_mul(188);
    bytes.set(at.saturating_add(number(place)?), byte(value)?);
    Some(())
}

// `PACKET`, or `COUNT:SEED`
fn put_nulls(into: &mut Buffer, bytes: &[u8], change: &str) -> Option<()> {
    match change.split_once(':') {
        Some((count, seed)) => put_with_nulls(into, bytes, number(count)?, number(seed)? as u64),
        None => put_with_null(into, bytes, number(change)?),
    }
    Some(())
}

// `PACKET.BIT`, or `PACKET.BYTE.BIT`
fn put_bit(into: &mut Buffer, bytes: &[u8], change: &str) -> Option<()> {
    let (packet, bit) = change.split_once('.')?;
    let bit = match bit.split_once('.') {
        Some((byte, bit)) => number(byte)?.saturating_mul(8).saturating_add(number(bit)?),
        None => number(bit)?,
    };
    if bit >= 1504 {
        return None;
    }
    put_flipped(into, bytes, packet_of(bytes, packet)?, bit);
    Some(())
}

// The number of a packet that there is.
fn packet_of(bytes: &[u8], text: &str) -> Option<usize> {
    let packet = number(text)?;
    if one(bytes, packet).is_empty() {
        None
    } else {
        Some(packet)
    }
}

// The packet after one.
fn next_of(bytes: &[u8], packet: usize) -> Option<usize> {
    let next = packet.saturating_add(1);
    if one(bytes, next).is_empty() {
        None
    } else {
        Some(next)
    }
}

/// Appends these bytes with the change that a word says, or with a part of it; None where it says none of these bytes.
pub fn put_changed(into: &mut Buffer, bytes: &[u8], word: &str) -> Option<()> {
    let rest = word.get(1..)?;
    match word.get(..1)? {
        "-" => put_without(into, bytes, packet_of(bytes, rest)?),
        "+" => put_doubled(into, bytes, packet_of(bytes, rest)?),
        "^" => return put_bit(into, bytes, rest),
        "@" => return put_nulls(into, bytes, rest),
        "<" => into.put(bytes.get(..bytes.len().checked_sub(number(rest)?)?)?),
        ">" => {
            into.put(bytes);
            return append(into, rest);
        }
        _ => return put_moved(into, bytes, word),
    }
    Some(())
}

// Appends these bytes with two packets exchanged, where none is the second the next one, or with one byte changed.
fn put_moved(into: &mut Buffer, bytes: &[u8], word: &str) -> Option<()> {
    match word.split_once('~') {
        Some((first, "")) => {
            let first = number(first)?;
            put_exchanged(into, bytes, first, next_of(bytes, first)?);
            Some(())
        }
        Some((first, second)) => {
            let (first, second) = (packet_of(bytes, first)?, packet_of(bytes, second)?);
            put_exchanged(into, bytes, first, second);
            Some(())
        }
        None => {
            into.put(bytes);
            put_byte(into, word)
        }
    }
}

/// Does the changes that the words of a text say, one after the other.
pub fn change_all(alloc: Global, bytes: &mut Buffer, text: &str) -> Option<()> {
    let mut before = Buffer::open(alloc);
    for word in text.split_whitespace() {
        before.clear();
        before.put(bytes.as_slice());
        bytes.clear();
        put_changed(bytes, before.as_slice(), word)?;
    }
    Some(())
}
