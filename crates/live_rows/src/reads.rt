// What a job that reads leaves: the journal of its hall, and why it ended.
use crate::halls::two_services;
use crate::words::{put_entries, put_stop};
use headend_live::Hall;
use row_lines::{Buffer, Lines};
use si_causes::OpenGate;
use std::alloc::{AllocError, Global};
use std::sync::Wait;

/// Appends the journal that a job leaves which reads as feed 1 or as the control, and why it ended. The hall has no other caller.
pub fn tell<W: Wait>(
    rt: &W,
    alloc: Global,
    is_feed: bool,
    lines: &mut Lines,
    out: &mut Buffer,
) -> Result<(), AllocError> {
    let (hall, mut pass) = Hall::open(alloc, two_services(alloc)?, 1)?;
    let stop = if is_feed {
        hall.feed(rt, alloc, &mut pass, 1, lines, &OpenGate)
    } else {
        hall.control(rt, alloc, &mut pass, lines)
    };
    let desk = hall.close(pass);
    put_entries(out, desk.entries(), |_| true);
    put_stop(out, stop);
    Ok(())
}
