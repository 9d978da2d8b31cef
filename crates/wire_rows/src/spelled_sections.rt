// Sections in the notation of rows (ISO/IEC 13818-1, 2.4.4; EN 300 468, 5.1.1).
use row_lines::{Buffer, Row, put_spelled};
use std::alloc::Global;

/// A section and the PID of its packets.
#[derive(Drop)]
pub struct Section {
    pub pid: u16,
    pub bytes: Buffer,
}

// What stands in the header of the long form.
#[derive(Clone, Copy)]
struct Header {
    extension: u16,
    version: u8,
    number: u8,
    last: u8,
    is_current: bool,
}

// What of a section stands before its body: a section in the short form has no header. One with a CRC says whether that is broken.
#[derive(Clone, Copy)]
struct Front {
    pid: u16,
    table: u8,
    header: Option<Header>,
    crc: Option<bool>,
}

/// The section of a part `FRONT : BODY`; None where it is none.
pub fn section_of(alloc: Global, part: &str) -> Option<Section> {
    let (front, text) = part.split_once(" : ").unwrap_or((part, ""));
    let mut words = Row::open(alloc, front);
    let front = front_of(&mut words);
    let mut body = Buffer::open(alloc);
    put_spelled(alloc, text, &mut body)?;
    if !words.is_read() || body.lacks() {
        return None;
    }
    Some(Section {
        pid: front.pid,
        bytes: bytes_of(alloc, front, body.as_slice()),
    })
}

// `pat STREAM ..`, `nit NETWORK ..`, `sdt STREAM ..`, `tdt`, `tot`, or others
fn front_of(row: &mut Row) -> Front {
    match row.word() {
        "pat" => long_front(row, 0, 0x00),
        "nit" => long_front(row, 16, 0x40),
        "sdt" => long_front(row, 17, 0x42),
        "tdt" => short_front(20, 0x70, None),
        "tot" => {
            let is_broken = sign_of(row, "badcrc") == "badcrc";
            short_front(20, 0x73, Some(is_broken))
        }
        word => other_front(row, word),
    }
}

// The sign after a front, which may be `badcrc` and this one.
fn sign_of<'r>(row: &mut Row<'r>, other: &str) -> &'r str {
    let sign = row.word();
    if !sign.is_empty() && sign != "badcrc" && sign != other {
        row.refuse();
    }
    sign
}

// `pmt PID PROGRAM ..`, `eit TABLE SERVICE ..`, `long PID TABLE EXTENSION ..` or `short PID TABLE`
fn other_front(row: &mut Row, word: &str) -> Front {
    let pid = if word == "eit" { 18 } else { row.short() };
    let table = if word == "pmt" { 0x02 } else { row.byte() };
    match word {
        "eit" | "pmt" | "long" => long_front(row, pid, table),
        "short" => short_front(pid, table, None),
        _ => {
            row.refuse();
            short_front(pid, table, None)
        }
    }
}

// `EXTENSION vVERSION NUMBER/LAST`, and `next` or `badcrc` after it
fn long_front(row: &mut Row, pid: u16, table: u8) -> Front {
    let extension = row.short();
    let version = row.word().strip_prefix('v').unwrap_or("");
    let (number, last) = row.word().split_once('/').unwrap_or(("", ""));
    let header = Header {
        extension,
        version: row.small_in(version),
        number: row.small_in(number),
        last: row.small_in(last),
        is_current: true,
    };
    let sign = sign_of(row, "next");
    Front {
        pid,
        table,
        header: Some(Header {
            is_current: sign != "next",
            ..header
        }),
        crc: Some(sign == "badcrc"),
    }
}

fn short_front(pid: u16, table: u8, crc: Option<bool>) -> Front {
    Front {
        pid,
        table,
        header: None,
        crc,
    }
}

// The bytes of a section: table_id, section_syntax_indicator, the bit after it, which is 0 only in PAT and PMT, reserved ones and
// section_length; the header and the body; and the CRC_32.
fn bytes_of(alloc: Global, front: Front, body: &[u8]) -> Buffer {
    let header_len = if front.header.is_some() { 5 } else { 0 };
    let crc_len = if front.crc.is_some() { 4 } else { 0 };
    let rest_len = body.len().saturating_add(crc_len);
    let length = rest_len.saturating_add(header_len);
    let [.., high, low] = (length as u64).to_be_bytes();
    let sign = match front.header {
        None => 0x70,
        Some(_) if front.table == 0x00 || front.table == 0x02 => 0xB0,
        Some(_) => 0xF0,
    };
    let mut bytes = Buffer::open(alloc);
    bytes.put(&[front.table, sign | (high & 15), low]);
    if let Some(header) = front.header {
        put_header(&mut bytes, header);
    }
    bytes.put(body);
    if let Some(is_broken) = front.crc {
        let crc = crc_of(bytes.as_slice()) ^ u32::from(is_broken);
        bytes.put(&crc.to_be_bytes());
    }
    bytes
}

fn put_header(bytes: &mut Buffer, header: Header) {
    bytes.put(&header.extension.to_be_bytes());
    let version = header.version.wrapping_mul(2) & 0x3E;
    bytes.push(0xC0 | version | u8::from(header.is_current));
    bytes.put(&[header.number, header.last]);
}

// CRC_32 bit by bit (ISO/IEC 13818-1, annex A).
fn crc_of(bytes: &[u8]) -> u32 {
    let mut crc = 0xFFFF_FFFF;
    for byte in bytes {
        crc = crc_behind(crc, *byte);
    }
    crc
}

fn crc_behind(before: u32, byte: u8) -> u32 {
    let mut crc = before ^ (u32::from(byte) << 24);
    for _ in 0..8 {
        let is_one = crc & 0x8000_0000 != 0;
        crc = crc.wrapping_mul(2) ^ if is_one { 0x04C1_1DB7 } else { 0 };
    }
    crc
}
