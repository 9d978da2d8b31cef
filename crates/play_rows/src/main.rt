//! Tests of whole runs by `run`, of each command.
//!
//! A row of `stdin` is `CALL ARGUMENTS = ANSWER`; its head explains the calls. The program prints
//! the rows that give another answer, and the number of rows, and ends with 1 where one fails. Rows
//! of `play` cover words, each kind of line, replies and limits of edits, faults of a description,
//! versions and counters, the smallest runs byte for byte, and the order of reads and writes; then
//! scripts that are cut and resumed, and scripts that are followed, with lines at fault. Rows of
//! `audit` cover airs that are whole, short and changed, null packets with `--nulls` and without,
//! and files that do not open. Rows of `listen` cover empty, short, broken and hostile recordings,
//! parts of a cycle, each line of a guide, and with `--strict` losses, gaps, repeats and an
//! independent recording with 91 breaks; with `--resync` recordings that are damaged or cut, packets
//! with bytes between, and reads of seven sizes; with `--partial` what was heard. Rows of `live`
//! cover bad lines, files that are not there, sixteen feeds, and orders of player and feeds that a
//! gate asks for. Each read, opening and write fails in turn, and what a run of `live` leaves is
//! compared with `play`, `listen` and `audit`. The examples are run, and leave what is kept of them.
#![tactic(auto)]

mod again;
mod changed;
mod cuts;
mod damaged;
mod due;
mod examples;
mod fronts;
mod heard;
mod orders;
mod promises;
mod rows;
mod stays;
mod tally;
mod turns;

use run_tools::run_sheet;
use std::io;

// The files of data that rows name.
const FILES: [&str; 15] = [
    "examples.kept",
    "feed-1.txt",
    "feed-2.txt",
    "live.txt",
    "local-time.txt",
    "lossy.packets",
    "morning.txt",
    "named.txt",
    "night.checkpoint",
    "night.txt",
    "one-name.txt",
    "other-stream.txt",
    "others-bits.packets",
    "others-psi.packets",
    "week.txt",
];

fn main(rt: HostRuntime) -> io::Result<()> {
    run_sheet(&rt, &FILES, |bench, row| rows::tell(bench, row))
}
