//! Tests of checkpoints: what is read of a text, and what a desk and a player leave.
//!
//! A row of `stdin` is `call arguments = answer` (`run_rows`). The notes at its head explain the
//! calls and the notation.
#![tactic(auto)]

mod folds;
mod reads;
mod rows;
mod starts;

use row_lines::run_rows;
use rows::answer;
use std::io;

fn main(rt: HostRuntime) -> io::Result<()> {
    run_rows(&rt, answer)
}
