//! Tests of callers that take turns at one desk: the calls of `desk_hall`, and `run_live`.
//!
//! A row of `stdin` is `CALL ARGUMENTS = ANSWER` (`run_rows`). The head of `stdin` explains the calls.
#![tactic(auto)]

mod callers;
mod calls;
mod halls;
mod reads;
mod rows;
mod runs;
mod words;

use row_lines::{Row, run_rows};
use std::io;

fn main(rt: HostRuntime) -> io::Result<()> {
    run_rows(&rt, |row: &mut Row| rows::answer(&rt, row))
}
