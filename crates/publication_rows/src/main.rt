//! Tests of publications and cycles: `build` of `publication`, `Checker` of `air_audit`, and the airs
//! of `cycle_player`; `version_book`, `air_model`, `carousel_player` and the counters of `ts_packets`.
//!
//! A line of `stdin` is a call with its arguments and the answer that is wanted (`run_rows`).
#![tactic(auto)]

mod audits;
mod counters;
mod guides;
mod offsets;
mod plans;
mod playing;
mod tables;
mod timed;
mod versions;

use row_lines::{Row, run_rows};
use std::io;

// Answers a row.
fn answer(row: &mut Row) {
    match row.word() {
        "tables" => tables::all(row),
        "table" => tables::one(row),
        "places" => tables::places(row),
        "audit_packets" => audits::given(row),
        "audit" => audits::made(row),
        "timed" => timed::made(row),
        "assign" => versions::assign(row, false),
        "assign_on" => versions::assign(row, true),
        "plan" => plans::order(row),
        "spacing" => plans::spacing(row),
        "play" => playing::play(row, false, false),
        "play_on" => playing::play(row, false, true),
        "play_local" => playing::play(row, true, false),
        "play_local_on" => playing::play(row, true, true),
        "keep" => playing::keep(row, false),
        "keep_local" => playing::keep(row, true),
        "play_into" => playing::play_into(row),
        "counters" => counters::keep(row),
        _ => row.refuse(),
    }
}

fn main(rt: HostRuntime) -> io::Result<()> {
    run_rows(&rt, answer)
}
