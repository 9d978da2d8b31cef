// Null packets among the packets of a recording (ISO/IEC 13818-1, 2.4.3.3).
use crate::changes::{before, from, one};
use row_lines::Buffer;

// The next of pseudo-random numbers of 31 bits.
fn draw(state: &mut u64) -> u64 {
    *state = state
        .wrapping_mul(6_364_136_223_846_793_005)
        .wrapping_add(1_442_695_040_888_963_407);
    *state >> 33
}

fn draw_byte(state: &mut u64) -> u8 {
    u8::try_from(draw(state) % 256).unwrap_or(0)
}

// Appends a null packet, whose counter and payload have no meaning: they are pseudo-random.
fn put_null(into: &mut Buffer, state: &mut u64) {
    into.put(&[0x47, 0x1F, 0xFF]);
    into.push(0x10 | (draw_byte(state) & 0x0F));
    for _ in 0..184 {
        into.push(draw_byte(state));
    }
}

/// Appends these bytes with a null packet before a packet, or after the last one.
pub fn put_with_null(into: &mut Buffer, bytes: &[u8], packet: usize) {
    into.put(before(bytes, packet));
    let mut state = 1;
    put_null(into, &mut state);
    into.put(from(bytes, packet));
}

/// Appends these bytes with so many null packets among the packets, at places that the seed gives.
pub fn put_with_nulls(into: &mut Buffer, bytes: &[u8], count: usize, seed: u64) {
    let packets = bytes.len() / 188;
    let mut state = seed;
    let mut nulls: usize = 0;
    for step in 0..packets.saturating_add(count) {
        let at = step.saturating_sub(nulls);
        let left = count.saturating_sub(nulls) as u64;
        let to_come = left.saturating_add(packets.saturating_sub(at) as u64);
        if draw(&mut state) % to_come.max(1) < left {
            put_null(into, &mut state);
            nulls = nulls.saturating_add(1);
        } else {
            into.put(one(bytes, at));
        }
    }
    into.put(from(bytes, packets));
}
