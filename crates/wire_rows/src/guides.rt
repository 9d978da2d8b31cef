// What a receiver shows and prints of packets.
use crate::air::{Air, Packet};
use guide_receiver::{HearStop, Receiver, write_done};
use guide_text::print_heard;
use row_lines::{Buffer, Row, runs_counted, text_of};
use std::alloc::{AllocError, Global};

/// `hear PARTS` or `guide PARTS`: the guide of the packets of these parts as it is printed, and for `hear` before it a line for each
/// completion that they show, and for each packet that is refused. Characters that come more than eight times are counted.
pub fn tell(row: &mut Row, are_told: bool) {
    let parts = row.rest();
    let air = Air::of(row.alloc(), parts);
    if let Some(air) = row.read(air) {
        put_heard(row, air.heard(), are_told);
    }
}

fn put_heard(row: &mut Row, packets: &[Packet], are_told: bool) {
    let lines = lines_of(row.alloc(), packets, are_told);
    if let Some(lines) = row.made(lines) {
        let mut told = Buffer::open(row.alloc());
        put_lines(&mut told, runs_counted(row.alloc(), text_of(&lines)).text());
        row.put(" ");
        row.put(told.text());
    }
}

// Appends lines with a slash for LF and a bar for a tab.
fn put_lines(out: &mut Buffer, lines: &str) {
    for byte in lines.as_bytes() {
        out.push(match byte {
            b'\n' => b'/',
            b'\t' => b'|',
            other => *other,
        });
    }
}

fn lines_of(alloc: Global, packets: &[Packet], are_told: bool) -> Result<Vec<u8>, AllocError> {
    let mut lines = Vec::new(alloc);
    let mut receiver = Receiver::open(alloc);
    hear_and_print(alloc, &mut receiver, packets, are_told, &mut lines)?;
    Ok(lines)
}

// Appends what a receiver prints of packets.
fn hear_and_print(
    alloc: Global,
    receiver: &mut Receiver,
    packets: &[Packet],
    are_told: bool,
    lines: &mut Vec<u8>,
) -> Result<(), AllocError> {
    hear_all(alloc, receiver, packets, lines)?;
    if !are_told {
        lines.clear();
    }
    print_heard(alloc, &receiver.guide()?, lines)
}

fn hear_all(
    alloc: Global,
    receiver: &mut Receiver,
    packets: &[Packet],
    lines: &mut Vec<u8>,
) -> Result<(), AllocError> {
    for (place, packet) in packets.iter().enumerate() {
        let refused = match receiver.hear(packet) {
            Ok(dones) => {
                for done in dones.as_slice() {
                    write_done(alloc, place as u64, *done, lines)?;
                }
                continue;
            }
            Err(HearStop::Sync) => "no packet",
            Err(HearStop::TooMany) => "too many keys",
            Err(HearStop::Memory) => return Err(AllocError),
        };
        let line = format!(in alloc; "{refused}\t{place}\n")?;
        lines.extend_from_slice(line.as_bytes())?;
    }
    Ok(())
}
