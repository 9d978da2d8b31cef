// Packets of recordings that come in pieces of each size, or whose source fails.
ghost use Rattle.std.specs.Prelude.{◌<◌};

use crate::ends::{ends, piece, source};
use crate::notation::{append, number_below};
use packet_reader::{PacketReader, PacketStop};
use row_lines::{Row, say};
use si_causes::{MemSource, Source};
use std::alloc::{AllocError, Global};
use std::fmt::Write;

// How many packets a reader gave, a number made of their second bytes, and how it stopped.
#[derive(Clone, Copy)]
struct Heard {
    packets: u64,
    second: u64,
    stop: Option<PacketStop>,
}

// Hears the next packet. Whether there may be more.
fn step<S: Source>(reader: &mut PacketReader<S>, heard: &mut Heard) -> bool {
    match reader.next() {
        Ok(Some(number)) => {
            let second = reader.packet()[1];
            heard.packets = number.saturating_add(1);
            heard.second = heard.second.wrapping_mul(7).wrapping_add(second as u64);
            true
        }
        Ok(None) => false,
        Err(stop) => {
            heard.stop = Some(stop);
            false
        }
    }
}

fn hear<S: Source>(reader: &mut PacketReader<S>) -> Heard {
    let mut heard = Heard {
        packets: 0,
        second: 0,
        stop: None,
    };
    for _ in 0..1_000_000u64 {
        if !step(reader, &mut heard) {
            break;
        }
    }
    heard
}

fn put_stop(row: &mut Row, stop: Option<PacketStop>) {
    match stop {
        None => row.put(", end"),
        Some(PacketStop::Failed) => row.put(", failed"),
        Some(PacketStop::Broken(number)) => say!(row; ", broken {number}"),
        Some(PacketStop::TooLong) => row.put(", too long"),
    }
}

// Appends what is heard, and also how the next call stops where that is otherwise.
fn put_heard<S: Source>(row: &mut Row, reader: &mut PacketReader<S>) {
    let heard = hear(reader);
    say!(row; " {} of {}", heard.packets, heard.second);
    put_stop(row, heard.stop);
    let again = reader.next().err();
    if again != heard.stop {
        put_stop(row, again);
    }
}

fn open(
    alloc: Global,
    bytes: &[u8],
    piece: usize,
    fails: u64,
) -> Result<PacketReader<MemSource>, AllocError>
    requires { 0 < piece }
{
    PacketReader::open(alloc, source(alloc, bytes, piece, fails)?)
}

// So many whole packets, the second byte of each its number, and then these bytes.
fn packets(row: &mut Row, count: u64, behind: &[u8]) -> Vec<u8> {
    let mut bytes = Vec::new(row.alloc());
    for i in 0..count {
        let mut packet = [0; 188];
        packet[0] = 0x47;
        packet[1] = (i % 256) as u8;
        append(row, &mut bytes, &packet);
    }
    append(row, &mut bytes, behind);
    bytes
}

/// What is heard of so many packets, with bytes behind them, that come in pieces of each of these sizes.
pub fn put_each(row: &mut Row) {
    let count = number_below(row, 10_000);
    let (pieces, fails) = ends(row);
    let behind = row.rest_bytes();
    let recording = packets(row, count, &behind);
    for size in pieces.split(',') {
        row.begin_part();
        let piece = piece(row, size);
        let reader = open(row.alloc(), &recording, piece, fails);
        if let Some(mut reader) = row.made(reader) {
            put_heard(row, &mut reader);
        }
    }
}
