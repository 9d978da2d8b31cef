// The leads of a round, and what they are like.
ghost use Rattle.std.specs.Prelude.{◌≡◌, ◌+◌, ◌++◌, ◌<◌, ◌≤◌, [], not, length, slice_get, IfOk, OnOk};
ghost use Rattle.std.specs.List.{All, prefix_len, cons_option};
ghost use Rattle.ts_packets.specs.Packets.{packets_of};
ghost use Rattle.air_timing.specs.Plan.{section_at};
ghost use Rattle.air_timing.specs.Turns.{round_of, turn_of};
ghost use Rattle.cycle_timing.specs.Leads.{most_sections, in_turn, lead_from, leads_within, leads_of, lead_packets, most_packets, is_of_events, before_events, measure};

use air_timing::{Leads, Paced, often_of, round_of, turn_of};
use si_base::Items;
use std::alloc::{AllocError, Global};

/// The most sections that one of these sub-tables has. AllocError comes where these are 2^32 or
/// more.
pub(crate) fn most_sections(groups: &[Items<usize>]) -> Result<u32, AllocError>
    ensures { IfOk result (λ most. most ≡ most_sections groups.now) }
{
    let mut most: u32 = 0;
    for group in groups {
        most = most.max(count_of(group)?);
    }
    Ok(most)
}

fn count_of(group: &Items<usize>) -> Result<u32, AllocError>
    ensures { IfOk result (λ count. count ≡ length group.now) }
{
    match u32::try_from(group.len()) {
        Ok(count) => Ok(count),
        Err(_) => Err(AllocError),
    }
}

/// The leads of a round of these sub-tables, of which the largest has so many sections. AllocError
/// comes also where they are too many to count.
pub(crate) fn leads_within(
    alloc: Global,
    groups: &[Items<usize>],
    largest: u32,
) -> Result<Vec<Items<usize>>, AllocError>
    requires some { All (λ group. 0 < length group) groups.now }
    ensures { IfOk result (λ leads. leads.items ≡ leads_within largest groups.now) }
{
    let often = often_of(largest);
    let round = round(largest)?;
    let mut leads = Vec::new(alloc);
    for place in 0..round {
        leads.push(lead_of(alloc, groups, often, place)?)?;
    }
    Ok(leads)
}

fn round(largest: u32) -> Result<u32, AllocError>
    ensures { IfOk result (λ round. round ≡ round_of largest) }
{
    match u32::try_from(round_of(largest)) {
        Ok(round) => Ok(round),
        Err(_) => Err(AllocError),
    }
}

// The lead with this place in a round.
fn lead_of(
    alloc: Global,
    groups: &[Items<usize>],
    often: u32,
    place: u32,
) -> Result<Items<usize>, AllocError>
    requires often { 0 < often }
    requires some { All (λ group. 0 < length group) groups.now }
    ensures { IfOk result (λ lead. lead ≡ lead_from often place 0 groups.now) }
{
    let mut lead = Items::new(alloc);
    let mut at: u32 = 0;
    for group in groups {
        put_turn(&mut lead, group, often, at, place)?;
        at = sum_of(at, 1)?;
    }
    Ok(lead)
}

fn sum_of(one: u32, other: u32) -> Result<u32, AllocError>
    ensures { IfOk result (λ sum. sum ≡ one + other) }
{
    one.checked_add(other).ok_or(AllocError)
}

// Appends the section of a sub-table that has a turn in this lead, if one has.
fn put_turn(
    lead: &mut Items<usize>,
    group: &Items<usize>,
    often: u32,
    at: u32,
    place: u32,
) -> Result<(), AllocError>
    requires often { 0 < often }
    requires some { 0 < length group.now }
    ensures { OnOk result (lead.new ≡ lead.old
        ++ cons_option (in_turn group.now (turn_of often at place (length group.now))) []) }
{
    let count = count_of(group)?;
    if let Some(turn) = turn_of(often, at, place, count) {
        put_section(lead, group.as_slice(), turn)?;
    }
    Ok(())
}

fn put_section(lead: &mut Items<usize>, group: &[usize], turn: u32) -> Result<(), AllocError>
    ensures { OnOk result (lead.new ≡ lead.old ++ cons_option (slice_get group.now turn) []) }
{
    if let Some(section) = group.get(turn as usize) {
        lead.push(*section)?;
    }
    Ok(())
}

/// What the leads of a round of these sub-tables are like, in packets. AllocError comes also where
/// the packets of a lead are 2^32 or more.
pub(crate) fn measured(
    alloc: Global,
    sections: &[Paced],
    groups: &[Items<usize>],
    leads: &[Items<usize>],
    largest: u32,
) -> Result<Leads, AllocError>
    requires some { All (λ group. 0 < length group) groups.now }
    requires leads { leads.now ≡ leads_of groups.now }
    requires largest { largest ≡ most_sections groups.now }
    ensures measured { IfOk result (λ measured. measured ≡ measure sections.now groups.now) }
    ensures most { IfOk result (λ measured. measured.most < 4294967296) }
{
    let count = count_before_events(sections, groups);
    let firsts = leads_within(alloc, &groups[..count], largest)?;
    let first = most_packets(sections, firsts.as_slice())?;
    let most = most_packets(sections, leads)?;
    Ok(leads_like(first, most, often_of(largest), round(largest)?))
}

fn leads_like(first: u32, most: u32, often: u32, round: u32) -> Leads
    ensures leads { result ≡ record { first = first; most = most; often = often; round = round } }
    ensures most { result.most < 4294967296 }
{
    Leads {
        first,
        most,
        often,
        round,
    }
}

// How many sub-tables stand before present and following.
fn count_before_events(sections: &[Paced], groups: &[Items<usize>]) -> usize
    ensures count { result
        ≡ prefix_len (λ group. not (is_of_events sections.now group)) groups.now }
    ensures bound { result ≤ length groups.now }
{
    let mut count = 0;
    for group in groups {
        if is_of_events(sections, group.as_slice()) {
            return count;
        }
        count += 1;
    }
    count
}

// whether a sub-table has a section on the PID of event information
fn is_of_events(sections: &[Paced], group: &[usize]) -> bool
    ensures { result ≡ is_of_events sections.now group.now }
{
    for index in group {
        if pid_at(sections, *index) == 0x12 {
            return true;
        }
    }
    false
}

fn pid_at(sections: &[Paced], index: usize) -> u16
    ensures { result ≡ (section_at sections.now index).pid }
{
    match sections.get(index) {
        Some(section) => section.pid,
        None => 0,
    }
}

fn most_packets(sections: &[Paced], leads: &[Items<usize>]) -> Result<u32, AllocError>
    ensures { IfOk result (λ most. most ≡ most_packets sections.now leads.now) }
{
    let mut most: u32 = 0;
    for lead in leads {
        most = most.max(lead_packets(sections, lead.as_slice())?);
    }
    Ok(most)
}

fn lead_packets(sections: &[Paced], lead: &[usize]) -> Result<u32, AllocError>
    ensures { IfOk result (λ packets. packets ≡ lead_packets sections.now lead.now) }
{
    let mut packets: u32 = 0;
    for index in lead {
        packets = sum_of(packets, packets_at(sections, *index))?;
    }
    Ok(packets)
}

fn packets_at(sections: &[Paced], index: usize) -> u32
    ensures { result ≡ packets_of (section_at sections.now index).len }
{
    match sections.get(index) {
        Some(section) => packets_for(section.len),
        None => 1,
    }
}

fn packets_for(len: u16) -> u32
    ensures { result ≡ packets_of len }
{
    (u32::from(len) + 184) / 184
}
