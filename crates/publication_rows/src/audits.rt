// Packets that an auditor checks.
ghost use Rattle.std.specs.Prelude.{◌≤◌, ◌<◌, ◌*◌};

use crate::guides::{moment, offsets_at, tables_at};
use air_audit::{Checker, Rule};
use carousel_player::Player;
use row_lines::{MOST, Row, packet_in, say};
use si_time::Moment;
use std::fmt::Write;
use ts_packets::TsPacket;

// A quota from 1 to 10,000; 1 where the row has another.
fn quota(row: &mut Row) -> u32
    ensures some { 1 ≤ result }
    ensures most { result ≤ 10000 }
{
    match row.number() {
        number @ 1..=10_000 => number as u32,
        _ => {
            row.refuse();
            1
        }
    }
}

fn swap(row: &mut Row, checker: &mut Checker, moment: Moment, text: &str)
    requires { moment.0 < 65536 * 86400 }
{
    if !checker.at_end() {
        return row.refuse();
    }
    let Some(tables) = tables_at(row, moment, text) else {
        return;
    };
    if checker.swap(tables, moment).is_err() {
        row.lack_memory();
    }
}

// What an auditor says of a packet: that it is accepted, or the rule that it breaks.
const SAID: [&str; 6] = [" ok", " shape", " pid", " counter", " pointer", " bytes"];

fn check(row: &mut Row, checker: &mut Checker, packet: &[u8; 188]) {
    row.begin_part();
    row.put(SAID[rule_index(checker.check(packet))]);
}

fn put_end(row: &mut Row, checker: &Checker) {
    row.put(if checker.at_end() {
        " / at an end"
    } else {
        " / not at an end"
    });
}

/// `audit_packets QUOTA MOMENT LINES | PACKET / PACKET ..`: what an auditor that was swapped once says of these packets, which are given
/// by their fronts, and whether it is then at an end.
pub fn given(row: &mut Row) {
    let quota = quota(row);
    let Some(moment) = moment(row) else {
        return;
    };
    let text = row.word();
    row.pass("|");
    let Some(mut checker) = opened(row, quota, text) else {
        return;
    };
    swap(row, &mut checker, moment, text);
    check_given(row, &mut checker);
    put_end(row, &checker);
}

// An auditor of cycles with the offsets of the description in these lines.
fn opened(row: &mut Row, quota: u32, text: &str) -> Option<Checker>
    requires some { 1 ≤ quota }
    requires most { quota ≤ 10000 }
{
    let offsets = offsets_at(row, text)?;
    Some(Checker::open(row.alloc(), quota, offsets))
}

fn check_given(row: &mut Row, checker: &mut Checker) {
    for _ in 0..MOST {
        let packet = packet_in(row);
        check(row, checker, &packet);
        if !row.goes_on() {
            break;
        }
    }
}

/// `audit QUOTA SWAPS PARTS MOMENT LINES`: what an auditor says of the packets that a player makes of so many swaps, in this order and
/// with these changes. A part of PARTS, after a comma, is a packet by its number from 0 on; the same with a place and a byte that stands
/// there, after colons; the same after a tilde, with each of its bits changed in turn: how many of these break each rule; or `+`, for a
/// further swap of the auditor, which is swapped once before.
pub fn made(row: &mut Row) {
    let quota = quota(row);
    let swaps = row.number();
    let parts = row.word();
    let Some(moment) = moment(row) else {
        return;
    };
    let text = row.word();
    let packets = play(row, quota, swaps, moment, text);
    let Some(mut checker) = opened(row, quota, text) else {
        return;
    };
    swap(row, &mut checker, moment, text);
    for part in parts.split(',') {
        if part == "+" {
            swap(row, &mut checker, moment, text);
        } else {
            check_part(row, &mut checker, &packets, part);
        }
    }
    put_end(row, &checker);
}

fn play(row: &mut Row, quota: u32, swaps: u64, moment: Moment, text: &str) -> Vec<TsPacket>
    requires some { 1 ≤ quota }
    requires most { quota ≤ 10000 }
    requires moment { moment.0 < 65536 * 86400 }
{
    let mut packets = Vec::new(row.alloc());
    let Some(offsets) = offsets_at(row, text) else {
        return packets;
    };
    let mut player = Player::open(row.alloc(), quota, offsets);
    for _ in 0..swaps {
        play_cycle(row, &mut player, moment, text, &mut packets);
    }
    packets
}

fn play_cycle(
    row: &mut Row,
    player: &mut Player,
    moment: Moment,
    text: &str,
    packets: &mut Vec<TsPacket>,
)
    requires { moment.0 < 65536 * 86400 }
{
    if !player.at_end() {
        return row.refuse();
    }
    let Some(tables) = tables_at(row, moment, text) else {
        return;
    };
    if player.swap(tables, 0, moment).is_err() {
        return row.lack_memory();
    }
    for _ in 0..100_000 {
        let Some(packet) = player.next_packet() else {
            break;
        };
        row.need(packets.push(packet).is_ok());
    }
}

fn check_part(row: &mut Row, checker: &mut Checker, packets: &[TsPacket], part: &str) {
    let number = part.strip_prefix('~').unwrap_or(part);
    match packet_of(packets, number) {
        Some(packet) if number != part => check_bits(row, checker, &packet),
        Some(packet) => check(row, checker, &packet),
        None => row.refuse(),
    }
}

// A packet by its number, with a byte changed where the part says one.
fn packet_of(packets: &[TsPacket], part: &str) -> Option<[u8; 188]> {
    let (number, change) = part.split_once(':').unwrap_or((part, ""));
    let mut packet = packets.get(number.parse::<usize>().ok()?)?.0;
    if number != part {
        let (place, byte) = change.split_once(':')?;
        let place = place.parse::<usize>().ok()?;
        let byte = u8::from_str_radix(byte, 16).ok()?;
        if place >= 188 {
            return None;
        }
        packet[place] = byte;
    }
    Some(packet)
}

// How many of the packets that differ from this one in a bit are accepted, and how many break each rule.
fn check_bits(row: &mut Row, checker: &mut Checker, packet: &[u8; 188]) {
    let mut counts = [0; 6];
    for place in 0..188 {
        count_bits(&mut counts, checker, packet, place);
    }
    row.begin_part();
    for (said, count) in SAID.iter().zip(counts) {
        say!(row; "{said} {count}");
    }
}

fn count_bits(counts: &mut [u64; 6], checker: &mut Checker, packet: &[u8; 188], place: usize)
    requires { place < 188 }
{
    for bit in [1, 2, 4, 8, 16, 32, 64, 128] {
        let mut other = *packet;
        other[place] ^= bit;
        let index = rule_index(checker.check(&other));
        counts[index] = counts[index].saturating_add(1);
    }
}

fn rule_index(rule: Option<Rule>) -> usize
    ensures { result < 6 }
{
    match rule {
        None => 0,
        Some(Rule::Shape) => 1,
        Some(Rule::Pid) => 2,
        Some(Rule::Counter) => 3,
        Some(Rule::Pointer) => 4,
        Some(Rule::Bytes) => 5,
    }
}
