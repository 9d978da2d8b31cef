// What packet lists carry: their sections, and the sub-tables that are complete.
use crate::sections::put_key;
use guide_receiver::{DoneKey, HearStop, Receiver, write_done};
use row_lines::{MOST, Row, packet_in, say};
use section_codec::Key;
use std::fmt::Write;
use ts_demux::{Demux, RawSection};
use ts_packets::read_packet;

/// `demux PACKET / PACKET ..`: each section that ends, with the place of the packet that ends it.
pub fn demux(row: &mut Row) {
    let mut demux = Demux::open(row.alloc());
    for place in 0..MOST {
        let packet = packet_in(row);
        demux_one(row, &mut demux, place, &packet);
        if !row.goes_on() {
            break;
        }
    }
    row.end_parts();
}

fn demux_one(row: &mut Row, demux: &mut Demux, place: u32, packet: &[u8; 188]) {
    let Ok(shape) = read_packet(packet) else {
        return row.refuse();
    };
    if let Some(sections) = row.made(demux.hear(packet, &shape)) {
        put_sections(row, place, sections.as_slice());
    }
}

fn put_sections(row: &mut Row, place: u32, sections: &[RawSection]) {
    for section in sections {
        row.begin_part();
        say!(row; " at {place} pid {:04X} |", section.pid);
        row.put_bytes(section.bytes.as_slice());
    }
}

/// `receive PACKET / PACKET ..`: each completion that is shown, with the place of the packet that shows it.
pub fn receive(row: &mut Row) {
    let mut receiver = Receiver::open(row.alloc());
    receive_all(row, &mut receiver);
    row.end_parts();
}

fn receive_all(row: &mut Row, receiver: &mut Receiver) {
    for place in 0..MOST {
        let packet = packet_in(row);
        match receiver.hear(&packet) {
            Ok(dones) => put_dones(row, place, dones.as_slice()),
            Err(HearStop::Sync) => {
                row.begin_part();
                say!(row; " refused sync at {place}");
            }
            Err(HearStop::TooMany) => say!(row; " too many at {place}"),
            Err(HearStop::Memory) => row.lack_memory(),
        }
        if !row.goes_on() {
            break;
        }
    }
}

fn put_dones(row: &mut Row, place: u32, dones: &[DoneKey]) {
    for done in dones {
        row.begin_part();
        say!(row; " at {place}");
        put_key(row, &done.key);
        say!(row; " version {}", done.version);
    }
}

/// `write_done PACKET KEY version VERSION`: the line, with signs for its tabs and its end.
pub fn line(row: &mut Row) {
    let packet = row.number();
    let done = DoneKey {
        key: key(row),
        version: row.small("version"),
    };
    let mut line = Vec::new(row.alloc());
    row.need(write_done(row.alloc(), packet, done, &mut line).is_ok());
    row.put(" ");
    for byte in &line {
        match byte {
            b'\t' => row.put("\\t"),
            b'\n' => row.put("\\n"),
            other => say!(row; "{}", char::from(*other)),
        }
    }
}

fn key(row: &mut Row) -> Key {
    let pid = row.hex_of("pid");
    row.pass("table");
    Key {
        pid,
        table: row.byte(),
        ext: row.hex_of("extension"),
        stream: row.hex_of("stream"),
        network: row.hex_of("network"),
    }
}
