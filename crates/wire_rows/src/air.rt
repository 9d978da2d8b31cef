// Packets of the air of a row.
use crate::spelled_sections::{Section, section_of};
use row_lines::{Buffer, put_spelled};
use std::alloc::Global;

/// A packet of the transport stream.
pub type Packet = [u8; 188];

/// The packets of a row, and which of them are heard.
#[derive(Drop)]
pub struct Air {
    alloc: Global,
    packets: Vec<Packet>,
    from: usize,
    to: usize,
}

impl Air {
    /// The packets of parts with ` ; ` between; None where a part is none.
    pub fn of(alloc: Global, parts: &str) -> Option<Air> {
        let mut air = Air {
            alloc,
            packets: Vec::new(alloc),
            from: 0,
            to: usize::MAX,
        };
        for part in parts.split(" ; ") {
            if !part.is_empty() {
                air.take(part)?;
            }
        }
        Some(air)
    }

    /// The packets that are heard.
    pub fn heard(&self) -> &[Packet] {
        let end = self.to.min(self.packets.len());
        self.packets.get(self.from..end).unwrap_or(&[])
    }

    /// Takes a part of the row; None where it is none.
    fn take(&mut self, part: &str) -> Option<()> {
        let (word, rest) = part.split_once(' ').unwrap_or((part, ""));
        match word {
            "packet" => self.take_packet(rest),
            "repeat" => {
                let last = self.packets.last().copied()?;
                self.packets.push(last).ok()
            }
            "again" => self.send_again(),
            "heard" => self.choose(rest),
            _ => self.send(&section_of(self.alloc, part)?),
        }
    }

    fn take_packet(&mut self, text: &str) -> Option<()> {
        let mut front = Buffer::open(self.alloc);
        put_spelled(self.alloc, text, &mut front)?;
        if front.len() > 188 || front.lacks() {
            return None;
        }
        self.packets.push(filled(front.as_slice())).ok()
    }

    fn send_again(&mut self) -> Option<()> {
        for place in 0..self.packets.len() {
            let packet = self.packets.get(place).copied()?;
            self.push_counted(packet)?;
        }
        Some(())
    }

    // `FROM TO`, both counted from 0 and heard
    fn choose(&mut self, text: &str) -> Option<()> {
        let (from, to) = text.split_once(' ')?;
        self.from = from.parse::<u32>().ok()? as usize;
        self.to = (to.parse::<u32>().ok()? as usize).saturating_add(1);
        Some(())
    }

    // Puts the packets of a section, of which the first has pointer_field 0.
    fn send(&mut self, section: &Section) -> Option<()> {
        let mut payload = Buffer::open(self.alloc);
        payload.push(0);
        payload.put(section.bytes.as_slice());
        if payload.len() > 4097 || payload.lacks() || section.bytes.lacks() {
            return None;
        }
        let [high, low] = section.pid.to_be_bytes();
        let mut start = 0x40;
        for piece in payload.as_slice().chunks(184) {
            let mut packet = filled(&[0x47, start | (high & 31), low, 0x10]);
            put_behind_header(&mut packet, piece);
            self.push_counted(packet)?;
            start = 0;
        }
        Some(())
    }

    // Puts the packet with the continuity_counter that is next on its PID.
    fn push_counted(&mut self, packet: Packet) -> Option<()> {
        let pid = pid_of(&packet);
        let last = self.packets.iter().rev().find(|p| pid_of(p) == pid);
        let next = match last {
            Some(before) => before[3].wrapping_add(1) & 15,
            None => 0,
        };
        let mut packet = packet;
        packet[3] = (packet[3] & 0xF0) | next;
        self.packets.push(packet).ok()
    }
}

// The PID of a packet, as its two bytes.
fn pid_of(packet: &Packet) -> [u8; 2] {
    [packet[1] & 31, packet[2]]
}

// The packet that begins with these bytes and is FF up to its end.
fn filled(front: &[u8]) -> Packet {
    let mut packet = [0xFF; 188];
    for (to, from) in packet.iter_mut().zip(front) {
        *to = *from;
    }
    packet
}

fn put_behind_header(packet: &mut Packet, piece: &[u8]) {
    for (to, from) in packet.iter_mut().skip(4).zip(piece) {
        *to = *from;
    }
}
