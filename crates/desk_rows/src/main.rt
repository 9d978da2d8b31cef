//! Tests of descriptions, edits, scripts and their answers: the calls from `mux_config` to
//! `journal_text`.
//!
//! A row of `stdin` is `call arguments = answer` (`run_rows`). The notes at its head explain the
//! calls and the notation.
#![tactic(auto)]

mod books;
mod controls;
mod desks;
mod edits;
mod entries;
mod events;
mod muxes;
mod outcomes;
mod publications;
mod rows;
mod scripts;
mod words;

use row_lines::run_rows;
use rows::answer;
use std::io;

fn main(rt: HostRuntime) -> io::Result<()> {
    run_rows(&rt, answer)
}
