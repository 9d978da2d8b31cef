//! Tests of the viewers' board: steps of a writer and of a viewer that reads while another thread
//! posts.
//!
//! A line of `stdin` is a call with its arguments and the answer that is wanted (`run_rows`).
#![tactic(auto)]

mod guides;
mod scenes;
mod watches;

use row_lines::{Row, World, run_rows};
use std::io;

// Answers a row.
fn answer<W: World>(rt: &W, row: &mut Row) {
    match row.word() {
        "board" => scenes::tell(rt, row),
        "watch" => watches::tell(rt, row),
        _ => row.refuse(),
    }
}

fn main(rt: HostRuntime) -> io::Result<()> {
    run_rows(&rt, |row: &mut Row| answer(&rt, row))
}
