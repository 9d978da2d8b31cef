//! Tests of the ground: lines, recordings, texts, times, bytes, shared pages, failing sources and
//! sinks, and the texts of loads.
//!
//! A line of `stdin` is a call with its arguments and the answer that is wanted (`run_rows`).
#![tactic(auto)]

mod bytes;
mod ends;
mod fields;
mod finds;
mod lines;
mod loads;
mod notation;
mod pages;
mod recordings;
mod sinks;
mod sources;
mod texts;
mod times;

use row_lines::{Row, run_rows};
use std::io;
use std::thread::Threads;

// Answers a row.
fn answer<T: Threads>(rt: &T, row: &mut Row) {
    match row.word() {
        "page_leaf" => pages::put_leaf_that_stays(row),
        "page_threads" => pages::put_across(rt, row),
        "lines" => lines::put_each(row, false),
        "records" => lines::put_each(row, true),
        "packets" => recordings::put_each(row),
        "found" => finds::put_each(row),
        "write_all" => sinks::put_sink(row),
        "open" => sinks::put_openings(row),
        "long_text" => sources::put_long(row),
        "reads" => sources::put_calls(row),
        call => answer_of_numbers(row, call),
    }
}

// The same of the calls on numbers, and on bytes with numbers or words before them.
fn answer_of_numbers(row: &mut Row, call: &str) {
    match call {
        "crc32_of_mixed" => bytes::put_crc_of_mixed(row),
        "take" => bytes::take(row),
        "write_moment" | "to_bcd" | "midnight" | "block_of" => times::put_of_number(row, call),
        "write_duration" | "duration_bcd" => times::put_of_number(row, call),
        "number" => fields::put_number(row),
        "is_word" => fields::put_is_word(row),
        "made_mux" | "made_control" | "made_feed" => loads::put_made(row, call),
        "plain_bytes" => texts::put_plain_bytes(row),
        _ => {
            let bytes = row.rest_bytes();
            answer_of_bytes(row, call, &bytes);
        }
    }
}

// The same of the calls on bytes alone.
fn answer_of_bytes(row: &mut Row, call: &str, bytes: &[u8]) {
    match call {
        "crc32" => bytes::put_crc(row, bytes),
        "read_moment" | "read_day" | "from_bcd" => times::put_seconds(row, call, bytes),
        "read_duration" | "duration_from_bcd" => times::put_seconds(row, call, bytes),
        "fields" => fields::put_fields(row, bytes),
        "decode_text" | "write_shown" => texts::put_decoded(row, call, bytes),
        "never_fails" => sinks::put_front(row, bytes),
        "reader" => sources::put_reader(row, bytes),
        _ => {
            let text = notation::text(row, bytes);
            texts::answer(row, call, text);
        }
    }
}

fn main(rt: HostRuntime) -> io::Result<()> {
    run_rows(&rt, |row: &mut Row| answer(&rt, row))
}
