// Lanes: how far a cycle has come on each PID.
ghost use Rattle.std.specs.Prelude.{◌≡◌, ◌==◌, ◌≤◌, ℕ, List, [], length, true, false};
ghost use Rattle.std.specs.List.{All};
ghost use Rattle.air_model.specs.Laying.{IsPlaced};
ghost use Rattle.air_audit.specs.Telling.{told, told_start, told_further, begun_in, is_at_fill, is_none, is_pointer};
ghost use Rattle.air_audit.specs.Progress.{to_come_of, rest_of, waiting_from, is_busy, AreLinked, IsWithin, IsMoved, HasBegun};

use crate::payload::{behind_front, is_fill};
use air_model::{Placed, Rule};

/// A PID of a cycle: the rest of its open section, from `at` up to `end` in the laid bytes, and the place of the section that begins
/// next on it, or the number of sections.
#[derive(Clone, Copy)]
pub(crate) struct Lane {
    pub(crate) pid: u16,
    pub(crate) at: usize,
    pub(crate) end: usize,
    pub(crate) next: usize,
}

/// Whether something is to come on a lane of a cycle with so many sections.
pub(crate) fn is_busy(lane: Lane, places: usize) -> bool
    ensures { result ≡ is_busy places lane }
{
    !(lane.at == lane.end && lane.next == places)
}

/// The lane behind a packet, or the rule that it breaks.
pub(crate) fn moved(
    bytes: &[u8],
    placed: &[Placed],
    links: &[usize],
    lane: Lane,
    start: bool,
    payload: &[u8],
) -> Result<Lane, Rule>
    requires size { length payload.now ≡ 184 }
    requires placed { All (IsPlaced (length bytes.now)) placed.now }
    requires linked { AreLinked placed.now links.now }
    requires within { IsWithin (length bytes.now) placed.now lane }
    ensures { IsMoved bytes.now placed.now lane (told (to_come_of bytes.now placed.now lane) (record { start = start; payload = payload.now })) result }
{
    if start {
        go_start(bytes, placed, links, lane, payload)
    } else {
        go_further(bytes, placed, lane, payload)
    }
}

// The lane behind a packet in which no section begins, or the rule that it breaks.
fn go_further(bytes: &[u8], placed: &[Placed], lane: Lane, payload: &[u8]) -> Result<Lane, Rule>
    requires { IsWithin (length bytes.now) placed.now lane }
    ensures { IsMoved bytes.now placed.now lane (told_further (to_come_of bytes.now placed.now lane) payload.now) result }
{
    let rest = &bytes[lane.at..lane.end];
    if rest.is_empty() {
        return Err(Rule::Pointer);
    }
    let Some(behind) = behind_front(payload, rest) else {
        return Err(Rule::Bytes);
    };
    if !is_fill(behind) {
        return Err(Rule::Bytes);
    }
    let at = lane.at + rest.len().min(payload.len());
    Ok(Lane {
        pid: lane.pid,
        at,
        end: lane.end,
        next: lane.next,
    })
}

// The lane behind a packet in which sections begin, or the rule that it breaks.
fn go_start(
    bytes: &[u8],
    placed: &[Placed],
    links: &[usize],
    lane: Lane,
    payload: &[u8],
) -> Result<Lane, Rule>
    requires size { length payload.now ≡ 184 }
    requires placed { All (IsPlaced (length bytes.now)) placed.now }
    requires linked { AreLinked placed.now links.now }
    requires within { IsWithin (length bytes.now) placed.now lane }
    ensures { IsMoved bytes.now placed.now lane (told_start (to_come_of bytes.now placed.now lane) payload.now) result }
{
    let rest = &bytes[lane.at..lane.end];
    let (pointer, body) = payload.split_at(1);
    if none_waits(placed, lane) {
        return Err(Rule::Pointer);
    }
    if !is_pointer(pointer[0], rest) {
        return Err(Rule::Pointer);
    }
    let Some(behind) = behind_front(body, rest) else {
        return Err(Rule::Bytes);
    };
    if begins_with_fill(behind) {
        return Err(Rule::Bytes);
    }
    let ended = Lane {
        pid: lane.pid,
        at: lane.end,
        end: lane.end,
        next: lane.next,
    };
    begun_in(bytes, placed, links, ended, behind).ok_or(Rule::Bytes)
}

// No section waits on a lane.
fn none_waits(placed: &[Placed], lane: Lane) -> bool
    ensures end { result ≡ (lane.next == length placed.now) }
    ensures waits { (size : ℕ) (bytes : List ℕ) → IsWithin size placed.now lane → result ≡ is_none (waiting_from lane.pid bytes placed.now lane.next) }
{
    lane.next == placed.len()
}

fn is_pointer(pointer: u8, rest: &[u8]) -> bool
    ensures { result ≡ is_pointer pointer rest.now }
{
    usize::from(pointer) == rest.len() && pointer <= 182
}

// No section begins in these bytes.
fn begins_with_fill(bytes: &[u8]) -> bool
    ensures { result ≡ is_at_fill bytes.now }
{
    bytes.is_empty() || bytes[0] == 0xFF
}

// The lane behind the sections that begin in these bytes, one where the one before has ended, up to the end or to fill.
fn begun_in(
    bytes: &[u8],
    placed: &[Placed],
    links: &[usize],
    lane: Lane,
    left: &[u8],
) -> Option<Lane>
    requires placed { All (IsPlaced (length bytes.now)) placed.now }
    requires linked { AreLinked placed.now links.now }
    requires within { IsWithin (length bytes.now) placed.now lane }
    ensures { HasBegun bytes.now placed.now lane (begun_in (rest_of bytes.now lane) left.now (waiting_from lane.pid bytes.now placed.now lane.next)) result }
{
    if begins_with_fill(left) {
        return if is_fill(left) { Some(lane) } else { None };
    }
    if none_waits(placed, lane) {
        return None;
    }
    let Placed { start, len, .. } = placed[lane.next];
    let behind = behind_front(left, &bytes[start..start + len])?;
    let begun = Lane {
        pid: lane.pid,
        at: start + len.min(left.len()),
        end: start + len,
        next: links[lane.next],
    };
    begun_in(bytes, placed, links, begun, behind)
}
