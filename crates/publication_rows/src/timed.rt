// Airs at a bit rate.
ghost use Rattle.std.specs.Prelude.{◌≤◌, ◌<◌, ◌*◌};

use crate::guides::{offsets_at, tables_at};
use cycle_player::TimedPlayer;
use row_lines::{Row, say};
use si_base::crc32;
use si_causes::MemSink;
use si_time::{Moment, read_moment};
use std::fmt::Write;

// A rate from 100,000 to 100,000,000; 100,000 where the row has another, which is refused.
fn rate(row: &mut Row) -> u32
    ensures least { 100000 ≤ result }
    ensures most { result ≤ 100000000 }
{
    match row.number() {
        number @ 100_000..=100_000_000 => number as u32,
        _ => {
            row.refuse();
            100_000
        }
    }
}

/// `timed RATE MOMENT,.. LINES`: how many packets a player at this bit rate makes of the publications
/// at these moments, each swapped to at its moment, how many of them are null packets, and the
/// CRC_32 of all.
pub fn made(row: &mut Row) {
    let rate = rate(row);
    let moments = row.word();
    let text = row.word();
    let Some(offsets) = offsets_at(row, text) else {
        return;
    };
    let mut player = TimedPlayer::open(row.alloc(), rate, offsets);
    let mut air = MemSink::open(row.alloc(), 1_000_000, Vec::new(row.alloc()));
    for word in moments.split(',') {
        match read_moment(word.as_bytes()) {
            Some(moment) => send(row, &mut player, moment, text, &mut air),
            None => row.refuse(),
        }
    }
    put_air(row, air.taken());
}

// Sends the cycle of the publication at a moment.
fn send(row: &mut Row, player: &mut TimedPlayer, moment: Moment, text: &str, air: &mut MemSink)
    requires { moment.0 < 65536 * 86400 }
{
    if !player.at_end() {
        return row.refuse();
    }
    let Some(tables) = tables_at(row, moment, text) else {
        return;
    };
    if player.swap(tables, moment).is_err() || player.play_cycle(air).is_err() {
        row.lack_memory();
    }
}

fn put_air(row: &mut Row, air: &[u8]) {
    let nulls = air
        .chunks(188)
        .filter(|packet| packet.starts_with(&[0x47, 0x1F, 0xFF]));
    say!(row; " packets {} null {} crc", air.len() / 188, nulls.count());
    row.put_bytes(&crc32(air).to_be_bytes());
}
