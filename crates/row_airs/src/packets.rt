// Bytes and packets of recordings.
use crate::texts::{cut, number};
use row_lines::{Buffer, put_spelled};
use si_base::crc32;
use std::alloc::Global;

/// What a name stands for, by lines of names.
pub fn spelling<'t>(named: &'t str, name: &str) -> Option<&'t str> {
    for line in named.lines() {
        let (first, words) = cut(line);
        if first == name {
            return Some(words);
        }
    }
    None
}

/// Appends so many bytes, again and again: `N BYTES`.
pub fn put_again(alloc: Global, bytes: &mut Buffer, text: &str) -> Option<()> {
    let (len, text) = cut(text);
    let len = number(len)?;
    let mut unit = Buffer::open(alloc);
    put_spelled(alloc, text, &mut unit)?;
    for _ in 0..len.div_ceil(unit.len().max(1)) {
        bytes.put(unit.as_slice());
    }
    bytes.truncate(len);
    Some(())
}

/// Appends packets by their fronts, with a slash between: bytes FF fill each up.
pub fn put_fronts(alloc: Global, bytes: &mut Buffer, text: &str) -> Option<()> {
    for front in text.split('/') {
        let to = bytes.len().saturating_add(188);
        put_spelled(alloc, front, bytes)?;
        for _ in bytes.len()..to {
            bytes.push(0xFF);
        }
    }
    Some(())
}

// Appends the packet with this number of a PID, with the PMT of a program that has no components.
fn put_pmt(all: &mut Buffer, pid: u8, packet: u64, program: u16) {
    let [high, low] = program.to_be_bytes();
    let section = [
        0x02, 0xB0, 0x0D, high, low, 0xC1, 0x00, 0x00, 0xFF, 0xFF, 0xF0, 0x00,
    ];
    all.put(&[0x47, 0x40, pid, 0x10 | (packet % 16) as u8, 0x00]);
    all.put(&section);
    all.put(&crc32(&section).to_be_bytes());
    all.put(&[0xFF; 167]);
}

/// Appends so many PMTs: of each program on PID 32, and then again on PID 33.
pub fn put_pmts(all: &mut Buffer, count: &str) -> Option<()> {
    for i in 0..number(count)? as u64 {
        let pid = if i < 65_536 { 32 } else { 33 };
        put_pmt(all, pid, i, (i % 65_536) as u16);
    }
    Some(())
}

/// The PID of a packet.
pub fn pid_of(packet: &[u8]) -> Option<u16> {
    let high = packet.get(1)? & 0x1F;
    Some(u16::from_be_bytes([high, *packet.get(2)?]))
}
