// The order of a cycle, and how far apart it repeats its sections.
ghost use Rattle.std.specs.Prelude.{◌<◌};

use air_model::{CyclePlan, plan};
use row_lines::{MOST, Row, say};
use section_codec::Tier3;
use std::fmt::Write;

/// `plan QUOTA`: the cycle of three Fast sections of a packet each, two Near of five and four Far of four, numbered in this order.
pub fn order(row: &mut Row) {
    let sections = [
        (Tier3::Fast, 1),
        (Tier3::Fast, 1),
        (Tier3::Fast, 1),
        (Tier3::Near, 5),
        (Tier3::Near, 5),
        (Tier3::Far, 4),
        (Tier3::Far, 4),
        (Tier3::Far, 4),
        (Tier3::Far, 4),
    ];
    let quota = row.long();
    let order = plan(row.alloc(), &sections, quota);
    if let Some(mut order) = row.made(order) {
        put_order(row, &mut order);
    }
}

fn put_order(row: &mut Row, order: &mut CyclePlan) {
    for _ in 0..MOST {
        let Some(section) = order.next() else {
            return;
        };
        say!(row; " {section}");
    }
}

/// `spacing QUOTA FAST FAST FAST NEAR NEAR FAR FAR FAR FAR`: of sections with so many packets two cycles, one after the other; how many
/// packets a start of a Fast section is after its last one at most, and of a Near section, each with its bound.
pub fn spacing(row: &mut Row) {
    let quota = row.long();
    let sections = [
        (Tier3::Fast, size(row)),
        (Tier3::Fast, size(row)),
        (Tier3::Fast, size(row)),
        (Tier3::Near, size(row)),
        (Tier3::Near, size(row)),
        (Tier3::Far, size(row)),
        (Tier3::Far, size(row)),
        (Tier3::Far, size(row)),
        (Tier3::Far, size(row)),
    ];
    let mut starts = Starts {
        packets: 0,
        last: [None; 9],
        fast: 0,
        near: 0,
    };
    for _ in 0..2 {
        let order = plan(row.alloc(), &sections, quota);
        if let Some(mut order) = row.made(order) {
            starts.pass(&mut order, &sections);
        }
    }
    put_distances(row, &starts, &sections, quota);
}

fn size(row: &mut Row) -> u32 {
    u32::from(row.octet())
}

// The packets of all sections so far, and in which of them each section began last; the largest distances of two starts of one section.
#[derive(Drop)]
struct Starts {
    packets: u64,
    last: [Option<u64>; 9],
    fast: u64,
    near: u64,
}

impl Starts {
    // The sections of a cycle.
    fn pass(&mut self, order: &mut CyclePlan, sections: &[(Tier3, u32); 9]) {
        for _ in 0..MOST {
            let Some(section) = order.next() else {
                return;
            };
            if section < 9 {
                let (tier, size) = sections[section];
                self.begin(section, tier);
                self.packets = self.packets.saturating_add(u64::from(size));
            }
        }
    }

    fn begin(&mut self, section: usize, tier: Tier3)
        requires { section < 9 }
    {
        if let Some(last) = self.last[section] {
            let distance = self.packets.saturating_sub(last);
            match tier {
                Tier3::Fast => self.fast = self.fast.max(distance),
                Tier3::Near => self.near = self.near.max(distance),
                Tier3::Far => {}
            }
        }
        self.last[section] = Some(self.packets);
    }
}

fn put_distances(row: &mut Row, starts: &Starts, sections: &[(Tier3, u32); 9], quota: u32) {
    if quota == 0 {
        return row.refuse();
    }
    let quota = u64::from(quota);
    let fast = packets_of_tier(sections, Tier3::Fast);
    let span = packets_of_tier(sections, Tier3::Near)
        .saturating_mul(2)
        .saturating_add(23);
    let runs = (span / quota).saturating_add(2);
    let most_fast = fast.saturating_add(quota).saturating_add(22);
    let most_near = span.saturating_add(runs.saturating_mul(fast));
    say!(row; " fast {} of {most_fast} near {} of {most_near}", starts.fast, starts.near);
}

fn packets_of_tier(sections: &[(Tier3, u32); 9], tier: Tier3) -> u64 {
    let mut packets = 0u64;
    for section in sections.iter() {
        if section.0 == tier {
            packets = packets.saturating_add(u64::from(section.1));
        }
    }
    packets
}
