// Cycles that are played.
ghost use Rattle.std.specs.Prelude.{◌≡◌, ◌≤◌, [], length, IfOk};
ghost use Rattle.section_codec.specs.SubTables.{AreFit};

use crate::counters::put_counters;
use crate::offsets::offsets;
use carousel_player::Player;
use row_lines::{MOST, Row, say};
use section_codec::{Key, NumberedBody, SubTable, Tables, Tier3};
use si_base::Items;
use si_causes::MemSink;
use si_time::Moment;
use std::alloc::{AllocError, Global};
use std::fmt::Write;
use version_book::KeyVersion;

// The player's quota, in packets.
const QUOTA: u32 = 200;

// 1993-10-13T12:45:00Z.
const MOMENT: Moment = Moment(4_257_233_100);

/// `play BODY / BODY ..`: the packets of the cycles of an SDT of one section, with one body after the other, each aired at 12:45:00 on
/// 13 October 1993. `play_local REGIONS | ..`: the same of a player with the offsets of so many regions. `play_on COUNT | ..`: the same,
/// where after so many airings a player goes on that was made of what the first one keeps. `play_local_on REGIONS COUNT | ..`: both.
pub fn play(row: &mut Row, is_local: bool, goes_on: bool) {
    let regions = regions(row, is_local);
    let cut = if goes_on { Some(row.number()) } else { None };
    if is_local || goes_on {
        row.pass("|");
    }
    let player = opened(row.alloc(), regions);
    if let Some(mut player) = row.made(player) {
        play_all(row, &mut player, regions, cut);
    }
}

// The number of regions that comes, if one does.
fn regions(row: &mut Row, is_local: bool) -> u8 {
    let regions = if is_local { row.octet() } else { 0 };
    if regions > 16 {
        row.refuse();
    }
    regions
}

fn opened(alloc: Global, regions: u8) -> Result<Player, AllocError> {
    let offsets = offsets(alloc, regions)?;
    Ok(Player::open(alloc, QUOTA, offsets))
}

fn play_all(row: &mut Row, player: &mut Player, regions: u8, cut: Option<u64>) {
    let mut is_cut = cut.is_none();
    for airing in 0..MOST {
        if cut == Some(u64::from(airing)) {
            go_on(row, player, regions);
            is_cut = true;
        }
        let body = row.bytes();
        swap(row, player, &body);
        put_packets(row, player);
        if !row.goes_on() {
            break;
        }
    }
    if !is_cut {
        row.refuse();
    }
}

fn go_on(row: &mut Row, player: &mut Player, regions: u8) {
    if !player.at_end() {
        return row.refuse();
    }
    let other = resumed(row.alloc(), player, regions);
    if let Some(other) = row.made(other) {
        *player = other;
    }
}

fn resumed(alloc: Global, player: &Player, regions: u8) -> Result<Player, AllocError>
    requires { player.now.left ≡ [] }
{
    let offsets = offsets(alloc, regions)?;
    let (versions, counters) = player.kept()?;
    Player::resume(alloc, QUOTA, offsets, versions, counters.as_slice())
}

/// `keep BODY / BODY ..`: what the player keeps after these cycles: of each key its PID, its table_id, its
/// table_id_extension, the other two numbers, the version and the bodies of its sections; and of each PID that had a packet
/// its counter. `keep_local REGIONS | ..`: the same of a player with the offsets of so many regions.
pub fn keep(row: &mut Row, is_local: bool) {
    let regions = regions(row, is_local);
    if is_local {
        row.pass("|");
    }
    let player = opened(row.alloc(), regions);
    if let Some(mut player) = row.made(player) {
        keep_all(row, &mut player);
    }
}

fn keep_all(row: &mut Row, player: &mut Player) {
    for _ in 0..MOST {
        let body = row.bytes();
        swap(row, player, &body);
        pass_packets(player);
        if !row.goes_on() {
            break;
        }
    }
    put_kept(row, player);
}

fn pass_packets(player: &mut Player) {
    for _ in 0..MOST {
        if player.next_packet().is_none() {
            break;
        }
    }
}

fn put_kept(row: &mut Row, player: &Player) {
    if !player.at_end() {
        return row.refuse();
    }
    if let Some((versions, counters)) = row.made(player.kept()) {
        put_keys(row, versions.as_slice());
        put_counters(row, counters.as_slice());
    }
}

fn put_keys(row: &mut Row, versions: &[KeyVersion]) {
    for kept in versions {
        row.begin_part();
        let key = &kept.key;
        say!(row; " {:04X} {:02X} {:04X}", key.pid, key.table, key.ext);
        say!(row; " {:04X} {:04X} version {}", key.stream, key.network, kept.version);
        for section in kept.sections.as_slice() {
            row.put(" |");
            row.put_bytes(section.body.as_slice());
        }
    }
}

fn swap(row: &mut Row, player: &mut Player, body: &[u8]) {
    if body.len() > 1012 || !player.at_end() {
        return row.refuse();
    }
    let Ok(tables) = sdt(row.alloc(), body) else {
        return row.lack_memory();
    };
    row.need(player.swap(tables, 0, MOMENT).is_ok());
}

fn put_packets(row: &mut Row, player: &mut Player) {
    for _ in 0..MOST {
        let Some(packet) = player.next_packet() else {
            break;
        };
        row.begin_part();
        row.put_bytes(&packet.0);
    }
}

/// `play_into SIZE FAULT COUNT | BODY`: so many packets of the cycle are taken, and then it is played into a sink that takes so many
/// bytes at a call and fails once, at the call with that number from 0 on: whether that was done, what the sink has, and whether
/// playing on then comes to the end.
pub fn play_into(row: &mut Row) {
    let size = (row.number() as usize).max(1);
    let fault = row.number();
    let player = opened(row.alloc(), 0);
    if let Some(mut player) = row.made(player) {
        play_first(row, &mut player, size, fault);
    }
}

fn play_first(row: &mut Row, player: &mut Player, size: usize, fault: u64)
    requires { 1 ≤ size }
{
    take_first(row, player);
    let sink = sink(row.alloc(), size, fault);
    if let Some(mut sink) = row.made(sink) {
        put_played(row, player, &mut sink);
    }
}

fn take_first(row: &mut Row, player: &mut Player) {
    let count = row.number();
    row.pass("|");
    let body = row.bytes();
    swap(row, player, &body);
    for _ in 0..count {
        if player.next_packet().is_none() {
            row.refuse();
        }
    }
}

fn sink(alloc: Global, size: usize, fault: u64) -> Result<MemSink, AllocError>
    requires { 1 ≤ size }
{
    Ok(MemSink::open(alloc, size, Vec::from_slice(alloc, &[fault])?))
}

fn put_played(row: &mut Row, player: &mut Player, sink: &mut MemSink) {
    row.put(if player.play_cycle(sink).is_ok() {
        " done |"
    } else {
        " failed |"
    });
    row.put_bytes(sink.taken());
    row.put(if player.play_cycle(sink).is_ok() && player.at_end() {
        " / at its end"
    } else {
        " / not at its end"
    });
}

// An SDT of one section with this body.
fn sdt(alloc: Global, body: &[u8]) -> Result<Tables, AllocError>
    requires { length body.now ≤ 1012 }
    ensures { IfOk result (λ tables. AreFit tables.list) }
{
    let mut sections = Vec::new(alloc);
    let body = Items::of(Vec::from_slice(alloc, body)?);
    sections.push(NumberedBody { number: 0, body })?;
    let key = Key {
        pid: 0x11,
        table: 0x42,
        ext: 1,
        stream: 0,
        network: 1,
    };
    let mut list = Vec::new(alloc);
    list.push(SubTable {
        key,
        tier: Tier3::Fast,
        sections: Items::of(sections),
    })?;
    Ok(Tables {
        list: Items::of(list),
    })
}
