// The sections of one segment.
ghost use Rattle.std.specs.Prelude.{◌≡◌, ℕ, ◌+◌, ◌-◌, ◌*◌, ◌≤◌, ◌<◌, ◌^◌, ◌++◌, length, OnOk};
ghost use Rattle.std.specs.List.{AllByRecursion};
ghost use Rattle.eit_segments.specs.declared.event.EventAt.{EventAt as EventShape};
ghost use Rattle.eit_segments.specs.Schedule.{section_runs, sections_from};

use crate::event::EventAt;
use crate::piece::{Piece, Pieces};
use std::alloc::AllocError;

/// The most bytes of entries in a section: 4,096 without the eight before the body, six of its head, and the CRC.
const LONGEST: u32 = 4_078;

/// What the sections of one segment have in common, and the number of the first.
#[derive(Clone, Copy)]
pub(crate) struct Segment {
    pub(crate) table: u8,
    pub(crate) last: u8,
    pub(crate) segment_last: u8,
    pub(crate) number: u8,
}

/// How many sections these events take.
pub(crate) fn count_runs(events: &[EventAt]) -> usize
    requires { AllByRecursion (λ (event : EventShape). event.size ≤ 4078) events.now }
    ensures { result ≡ length (section_runs events.now) }
{
    let mut runs = 1;
    let mut room = LONGEST;
    for i in 0..events.len() {
        let size = events[i].size;
        if room < size {
            runs += 1;
            room = LONGEST;
        }
        room -= size;
    }
    runs
}

/// Appends the sections of a segment with these events, of which the first has the place `from` among those of the service.
pub(crate) fn put_segment(
    pieces: &mut Pieces,
    events: &[EventAt],
    from: usize,
    segment: Segment,
) -> Result<(), AllocError>
    requires small { AllByRecursion (λ (event : EventShape). event.size ≤ 4078) events.now }
    requires few { segment.number + length (section_runs events.now) ≤ 256 }
    requires places { from + length events.now < 2 ^ 63 }
    ensures { OnOk result (pieces.new ≡ pieces.old
        ++ sections_from segment.table segment.last segment.segment_last segment.number from
        (section_runs events.now)) }
{
    let mut piece = Piece {
        table: segment.table,
        number: segment.number,
        last: segment.last,
        segment_last: segment.segment_last,
        from,
        to: from,
    };
    let mut room = LONGEST;
    for i in 0..events.len() {
        let size = events[i].size;
        if room < size {
            pieces.push(piece)?;
            piece.number += 1;
            piece.from = piece.to;
            room = LONGEST;
        }
        piece.to += 1;
        room -= size;
    }
    pieces.push(piece)?;
    Ok(())
}
