// A cycle's sections in their order, each linked to the next one of its PID.
ghost use Rattle.std.specs.Prelude.{◌≡◌, ◌<◌, ◌≤◌, [], ℕ, List, length, count_by, vec_capacity, IfOk};
ghost use Rattle.std.specs.List.{All, AllByRecursion};
ghost use Rattle.air_model.specs.Air.{at_places};
ghost use Rattle.section_codec.specs.SubTables.{AreFit};
ghost use Rattle.air_model.specs.Laying.{order_under};
ghost use Rattle.air_audit.specs.Progress.{is_busy, next_on, AreLinked, AreFresh, IsReady};
ghost use Rattle.air_model.specs.Air.{CanBeTold};

use crate::lanes::{Lane, is_busy};
use air_model::{CyclePlan, Placed, plan_cycle};
use guide_model::Offset;
use section_codec::SubTable;
use std::alloc::{AllocError, Global};

/// The memory of a cycle: the order of its sections, and room for them in this order, their links and the lanes.
#[derive(Drop)]
pub(crate) struct Room {
    pub(crate) order: Vec<usize>,
    pub(crate) placed: Vec<Placed>,
    pub(crate) links: Vec<usize>,
    pub(crate) lanes: Vec<Lane>,
}

/// Takes the memory for a cycle of these sub-tables in the order of this quota.
pub(crate) fn take_room(
    alloc: Global,
    tables: &[SubTable],
    quota: u32,
    offsets: &[Offset],
) -> Result<Room, AllocError>
    requires offsets { CanBeTold offsets.now }
    requires fit { AreFit tables.now }
    ensures order { IfOk result (λ room. room.order.items ≡ order_under tables.now (record { quota = quota; offsets = offsets.now })) }
    ensures ready { IfOk result (λ room. IsReady room) }
{
    let order = order_of(alloc, plan_cycle(alloc, tables, quota, offsets)?)?;
    let placed = Vec::with_capacity(alloc, order.len())?;
    let links = vec![in alloc; 0; order.len()]?;
    let lanes = idle_lanes(alloc, order.len())?;
    Ok(Room {
        order,
        placed,
        links,
        lanes,
    })
}

// The whole order of a plan.
fn order_of(alloc: Global, mut plan: CyclePlan) -> Result<Vec<usize>, AllocError>
    ensures { IfOk result (λ order. order.items ≡ plan) }
{
    let mut order = Vec::new(alloc);
    while let Some(at) = plan.next() {
        order.push(at)?;
    }
    Ok(order)
}

// A lane for each PID, on which no section waits, of a cycle with so many sections.
fn idle_lanes(alloc: Global, places: usize) -> Result<Vec<Lane>, AllocError>
    ensures { IfOk result (λ lanes. AreFresh (λ _. places) lanes.items) }
{
    let mut lanes = Vec::with_capacity(alloc, 8192)?;
    for pid in 0..8192 {
        let lane = Lane {
            pid,
            at: 0,
            end: 0,
            next: places,
        };
        lanes.push(lane)?;
    }
    Ok(lanes)
}

/// Puts the sections at these places in this order into a buffer that has the room. It takes no memory.
pub(crate) fn put_in_order(placed: &mut Vec<Placed>, each: &[Placed], order: &[usize])
    requires empty { placed.old.items ≡ [] }
    requires room { length order.now ≤ vec_capacity placed.old }
    requires within { AllByRecursion (λ at. at < length each.now) order.now }
    ensures { placed.new.items ≡ at_places each.now order.now }
{
    for at in order {
        placed.push(each[*at]).unwrap();
    }
}

/// Links each section to the next one of its PID, and leaves on each lane the first of its PID. It takes no memory.
pub(crate) fn link(placed: &[Placed], links: &mut [usize], lanes: &mut [Lane])
    requires pids { All (λ p. p.pid < 8192) placed.now }
    requires many { length links.old ≡ length placed.now }
    requires idle { AreFresh (λ _. length placed.now) lanes.old }
    ensures linked { AreLinked placed.now links.new }
    ensures first { AreFresh (λ pid. next_on pid placed.now 0) lanes.new }
{
    let mut at = placed.len();
    while at > 0 {
        at -= 1;
        let pid = placed[at].pid;
        let index = usize::from(pid);
        links[at] = lanes[index].next;
        lanes[index] = Lane {
            pid,
            at: 0,
            end: 0,
            next: at,
        };
    }
}

/// On how many lanes something is to come.
pub(crate) fn count_busy(lanes: &[Lane], places: usize) -> usize
    ensures { result ≡ count_by (is_busy places) lanes.now }
{
    let mut count = 0;
    for lane in lanes {
        if is_busy(*lane, places) {
            count += 1;
        }
    }
    count
}
