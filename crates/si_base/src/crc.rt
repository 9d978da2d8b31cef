// CRC_32, eight bytes a turn.
ghost use Rattle.std.specs.Prelude.{◌≡◌, ◌+◌, ◌*◌, ◌<◌, ◌∷◌, [], length, bit_xor, slice_index};
ghost use Rattle.si_base.specs.Crc.{crc_from, crc_of, crc_bits, bits_of, CrcLeavesNothing};

use crate::tables::{zeros_0, zeros_1, zeros_2, zeros_3, zeros_4, zeros_5, zeros_6, zeros_7};

/// The CRC_32 of these bytes: the remainder by the polynomial 0x04C11DB7 from 0xFFFFFFFF on, most
/// significant bit first, without a final inversion (ISO/IEC 13818-1, annex A). Over a section with
/// its CRC it is 0. It takes no memory.
pub fn crc32(bytes: &[u8]) -> u32
    ensures { result ≡ crc_of bytes.now }
{
    let mut crc = 0xFFFF_FFFF;
    let mut rest = bytes;
    while rest.len() >= 8 {
        let (block, behind) = rest.split_at(8);
        crc = eight(crc, block);
        rest = behind;
    }
    few(crc, rest)
}

// The remainder after eight bytes.
#[inline(always)]
fn eight(crc: u32, block: &[u8]) -> u32
    requires { length block.now ≡ 8 }
    ensures { result ≡ crc_from crc block.now }
{
    let first = u32::from_be_bytes([block[0], block[1], block[2], block[3]]);
    let second = u32::from_be_bytes([block[4], block[5], block[6], block[7]]);
    before_eight(crc ^ first) ^ before_four(second)
}

// The remainder of four bytes with eight bytes of zero behind them, from 0 on.
#[inline(always)]
fn before_eight(word: u32) -> u32
    ensures { result ≡ crc_from word (0 ∷ 0 ∷ 0 ∷ 0 ∷ 0 ∷ 0 ∷ 0 ∷ 0 ∷ []) }
{
    let [a, b, c, d] = word.to_be_bytes();
    zeros_7(a) ^ zeros_6(b) ^ zeros_5(c) ^ zeros_4(d)
}

// The remainder of four bytes with four bytes of zero behind them, from 0 on.
#[inline(always)]
fn before_four(word: u32) -> u32
    ensures { result ≡ crc_from word (0 ∷ 0 ∷ 0 ∷ 0 ∷ []) }
{
    let [a, b, c, d] = word.to_be_bytes();
    zeros_3(a) ^ zeros_2(b) ^ zeros_1(c) ^ zeros_0(d)
}

// The remainder after these bytes, one at a time.
#[tactic(auto, unfolding(crate::specs::Crc::crc_from))]
fn few(crc: u32, bytes: &[u8]) -> u32
    ensures { result ≡ crc_from crc bytes.now }
{
    bytes.iter().fold(crc, |crc, b| one(crc, *b))
}

// The remainder after one byte.
fn one(crc: u32, b: u8) -> u32
    ensures { result ≡ crc_bits crc (bits_of b) }
{
    let high = (crc >> 24) as u8;
    (crc << 8) ^ zeros_0(high ^ b)
}

/// Bytes with their CRC_32 behind them have the CRC_32 0.
pub fn crc_leaves_nothing()
    ensures { CrcLeavesNothing }
{}
