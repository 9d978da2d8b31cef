// Texts of loads, as their length and the CRC_32 of their bytes.
use crate::notation::number_below;
use row_lines::{Row, say};
use si_base::crc32;
use si_workload::{made_control, made_feed, made_mux};
use std::fmt::Write;

/// The multiplex of a load, its control lines, or the edits of its feed 1 or 2.
pub fn put_made(row: &mut Row, call: &str) {
    let (number, alloc) = (number_below(row, 1_000_000_000), row.alloc());
    let text = match call {
        "made_mux" => made_mux(alloc, number),
        "made_control" => made_control(alloc, number),
        _ => match row.word() {
            "1" => made_feed(alloc, number, 1),
            "2" => made_feed(alloc, number, 2),
            _ => return row.refuse(),
        },
    };
    if let Some(text) = row.made(text) {
        say!(row; " {} bytes, CRC {}", text.len(), crc32(&text));
    }
}
