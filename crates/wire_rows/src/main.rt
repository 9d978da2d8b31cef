//! Tests of bytes and hearing: the public calls of crates from `section_codec` to `guide_receiver`,
//! and the guide that `guide_text` prints.
//!
//! A line of `stdin` is a call with its arguments and the answer that is wanted (`run_rows`). Rows of
//! guides make their sections and packets without the product's crates.
#![tactic(auto)]

mod air;
mod bodies;
mod completions;
mod event_descriptors;
mod events;
mod guides;
mod hearing;
mod packets;
mod readings;
mod sections;
mod spelled_sections;

use row_lines::{Row, run_rows};
use std::io;

// Answers a row.
fn answer(row: &mut Row) {
    match row.word() {
        "packets_of" => packets::count(row),
        "packets" => packets::cut(row),
        "stretch" => packets::share(row),
        "read_packet" => packets::read(row),
        "demux" => hearing::demux(row),
        "receive" => hearing::receive(row),
        "write_done" => hearing::line(row),
        "hear" => guides::tell(row, true),
        "guide" => guides::tell(row, false),
        "take" => completions::take(row),
        "write_long" => sections::long(row),
        "write_short" => sections::short(row),
        "write_short_crc" => sections::short_crc(row),
        "bits" => sections::bits(row),
        "read_section" => sections::read(row),
        "key_of" => sections::key(row),
        "eit_numbers" => sections::numbers(row),
        "write_eit" => bodies::write(row),
        "write_and_read_eit" => bodies::write_and_read(row),
        "fronts" => readings::fronts(row),
        call => answer_of_event(row, call),
    }
}

// The same of the calls on descriptors, and of what is read only of bytes.
fn answer_of_event(row: &mut Row, call: &str) {
    match call {
        "write_content" => event_descriptors::content(row),
        "write_parental_rating" => event_descriptors::parental_rating(row),
        "write_short_event" => event_descriptors::short_event(row),
        "write_extended_event" => event_descriptors::extended_event(row),
        "event_len" => event_descriptors::event_size(row),
        "write_event_descriptors" => event_descriptors::event_descriptors(row),
        "event_descriptor_sizes" => event_descriptors::event_sizes(row),
        _ => {
            let bytes = row.bytes();
            readings::read(row, call, &bytes);
        }
    }
}

fn main(rt: HostRuntime) -> io::Result<()> {
    run_rows(&rt, answer)
}
