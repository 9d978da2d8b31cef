// Packets: a section cut into them, sections that share them, and what a packet is.
ghost use Rattle.std.specs.Prelude.{◌<◌, length};

use row_lines::{MOST, Row, packet_in, say};
use std::fmt::Write;
use ts_packets::{BadPacket, Counters, Packer, Shape, TsPacket, packet, packets_of, read_packet};

/// `packets_of LENGTH`: how many packets a section of so many bytes has.
pub fn count(row: &mut Row) {
    let len = row.number() as usize;
    if 1 <= len && len <= 4096 {
        say!(row; " {}", packets_of(len));
    } else {
        row.refuse();
    }
}

/// `packets PID | SECTION`: the packets of the section, counted from 0.
pub fn cut(row: &mut Row) {
    let pid = row.hex();
    row.pass("|");
    let section = row.bytes();
    put_packets(row, pid, &section);
}

fn put_packets(row: &mut Row, pid: u16, section: &[u8]) {
    if pid >= 8192 || section.is_empty() || section.len() > 4096 {
        return row.refuse();
    }
    let mut counters = Counters::open();
    for index in 0..packets_of(section.len()) {
        put_counted(row, &mut counters, packet(pid, section, index));
    }
}

fn put_counted(row: &mut Row, counters: &mut Counters, packet: TsPacket) {
    let mut packet = packet;
    counters.stamp(&mut packet);
    row.begin_part();
    row.put_bytes(&packet.0);
}

/// `stretch PID | SECTION / SECTION ..`: the packets that these sections share, counted from 0.
pub fn share(row: &mut Row) {
    let pid = row.hex();
    row.pass("|");
    if pid >= 8192 {
        return row.refuse();
    }
    let mut counters = Counters::open();
    let mut packer = Packer::open(pid);
    for _ in 0..MOST {
        let section = row.bytes();
        if section.is_empty() {
            return row.refuse();
        }
        put_section(row, &mut counters, &mut packer, &section);
        if !row.goes_on() {
            return put_counted(row, &mut counters, packer.finish());
        }
    }
}

// The packets that a section fills; the one that it has begun is left.
fn put_section(row: &mut Row, counters: &mut Counters, packer: &mut Packer, section: &[u8])
    requires { 0 < length section.now }
    ensures { 0 < length packer.new.bytes }
{
    let mut from = packer.add(section, 0);
    while from < section.len() {
        put_counted(row, counters, packer.finish());
        from += packer.add(section, from);
    }
}

/// `read_packet FRONT`: what the packet is that begins with these bytes.
pub fn read(row: &mut Row) {
    let packet = packet_in(row);
    match read_packet(&packet) {
        Ok(Shape::Pass) => row.put(" pass"),
        Ok(Shape::Gap(pid)) => say!(row; " gap pid {pid:04X}"),
        Ok(
            Shape::Load {
                pid,
                start,
                counter,
                at,
            },
        ) => {
            let start = if start { "start" } else { "no start" };
            say!(row; " load pid {pid:04X} {start} counter {counter} at {at}");
        }
        Err(BadPacket::Sync) => row.put(" refused sync"),
    }
}
