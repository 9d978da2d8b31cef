// A row and its answer.
use crate::runs::Run;
use crate::{callers, calls, reads, runs};
use row_lines::{Buffer, Cut, Row, World, reader};
use std::alloc::AllocError;
use std::sync::Wait;

// `PIECE N TEXT`: what a job that reads leaves of a text that comes so.
fn tell_reads<W: Wait>(
    rt: &W,
    row: &mut Row,
    is_feed: bool,
    out: &mut Buffer,
) -> Result<(), AllocError> {
    let cut = Cut {
        piece: row.long(),
        fails_at: row.long(),
    };
    let mut lines = reader(row.alloc(), row.rest(), cut)?;
    reads::tell(rt, row.alloc(), is_feed, &mut lines, out)
}

// The texts of a row, with ` ; ` between.
fn texts_of<'r>(row: &mut Row<'r>) -> (&'r str, &'r str) {
    let texts = row.rest().split_once(" ; ");
    row.read(texts).unwrap_or(("", ""))
}

// `CYCLES JOIN N HOLDS CONTROL ; FEED ; FEED`
fn run_of<'r>(row: &mut Row<'r>) -> Run<'r> {
    let (cycles, join, fails_at) = (row.long(), row.long(), row.long());
    let holds = row.word();
    let (control, feeds) = texts_of(row);
    let feeds = row.read(feeds.split_once(" ; "));
    let (first, second) = feeds.unwrap_or(("", ""));
    Run {
        cycles,
        join,
        fails_at,
        holds,
        control,
        first,
        second,
    }
}

// Appends what a row gives.
fn tell<W: World>(rt: &W, row: &mut Row, out: &mut Buffer) -> Result<(), AllocError> {
    let (call, alloc) = (row.word(), row.alloc());
    match call {
        "feed" => tell_reads(rt, row, true, out),
        "control" => tell_reads(rt, row, false, out),
        "calls" => calls::tell(rt, alloc, row.rest(), out),
        "callers" => callers::tell(rt, alloc, texts_of(row), out),
        "held" => callers::tell_held(rt, alloc, row.word(), texts_of(row), out),
        "live" => runs::tell(rt, alloc, &run_of(row), false, out),
        "order" => runs::tell(rt, alloc, &run_of(row), true, out),
        _ => {
            row.refuse();
            Ok(())
        }
    }
}

/// Puts what a row gives.
pub fn answer<W: World>(rt: &W, row: &mut Row) {
    let mut out = Buffer::open(row.alloc());
    let done = tell(rt, row, &mut out);
    row.need(done.is_ok() && !out.lacks());
    row.put(" ");
    row.put(out.text());
}
