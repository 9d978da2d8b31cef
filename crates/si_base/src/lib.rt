//! Lists, bytes and CRC_32: what every crate of the wire format stands on.
//!
//! `Items` is a list that contracts see as its elements, and `Copies` the trait of values whose
//! copy equals its source. A `Reader` holds the bytes that are left; `take` cuts some off the
//! front, or gives `None` where there are too few. `put` appends bytes to a buffer that has room
//! for them, and `put_number` the decimal digits of a number. `crc32` is the bit-by-bit remainder
//! of ISO/IEC 13818-1, annex A (`crc_of`), computed eight bytes at a time. Bytes followed by their
//! CRC have CRC 0 (`crc_leaves_nothing`).
//!
//! Not promised: the speed of `crc32` (measured in `bench/`).
#![tactic(auto)]

mod appending;
mod copies;
mod crc;
mod items;
mod number;
mod reader;
mod tables;

pub use appending::put;
pub use copies::Copies;
pub use crc::{crc_leaves_nothing, crc32};
pub use items::{Bytes, Items};
pub use number::put_number;
pub use reader::Reader;
