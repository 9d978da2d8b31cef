// Packets of a section that begins in a packet of its own.
ghost use Rattle.std.specs.Prelude.{◌≡◌, ◌+◌, ◌≤◌, ◌<◌, [], ◌∷◌, List, ℕ, Some, length, map, slice_get, if◌then◌else◌, ◌/◌, ◌%◌};
ghost use Rattle.ts_packets.specs.Packets.{filled, alone, packets_of};
ghost use Rattle.ts_packets.specs.Bytes.{bytes_of_packet, packets_alone};

/// A packet of a transport stream: its 188 bytes.
#[derive(Clone, Copy, PartialEq, Eq)]
pub struct TsPacket(pub [u8; 188]);

/// The number of packets of a section of `len` bytes that begins in a packet of its own. It takes no memory.
pub fn packets_of(len: usize) -> u32
    requires some { 1 ≤ len }
    requires most { len ≤ 4096 }
    ensures value { result ≡ packets_of len }
    ensures alone { (section : List ℕ) → length section ≡ len → length (alone section) ≡ result }
{
    ((len + 1 + 183) / 184) as u32
}

/// The packet number `index` of a section that begins in a packet of its own, with continuity_counter 0: the first has
/// payload_unit_start_indicator 1, pointer_field 0 and the section's first 183 bytes, each further one the next 184;
/// what the section does not fill is 0xFF (ISO/IEC 13818-1, 2.4.3.2 and 2.4.4.2). The section has 1 to 4,096 bytes.
/// It takes no memory.
pub fn packet(pid: u16, section: &[u8], index: u32) -> TsPacket
    requires pid { pid < 8192 }
    requires some { 1 ≤ length section.now }
    requires most { length section.now ≤ 4096 }
    requires index { index < packets_of (length section.now) }
    ensures { slice_get (map bytes_of_packet (packets_alone pid section.now)) index ≡ Some result.0 }
{
    let mut bytes = [0xFF; 188];
    put_packet(&mut bytes, pid, section, index);
    TsPacket(bytes)
}

/// Writes over 188 bytes what `packet` gives, with one copy of the section's bytes. It takes no memory.
pub fn put_packet(into: &mut [u8], pid: u16, section: &[u8], index: u32)
    requires room { length into.old ≡ 188 }
    requires pid { pid < 8192 }
    requires some { 1 ≤ length section.now }
    requires most { length section.now ≤ 4096 }
    requires index { index < packets_of (length section.now) }
    ensures { slice_get (map bytes_of_packet (packets_alone pid section.now)) index ≡ Some into.new }
{
    let (header, payload) = into.split_at_mut(4);
    if index == 0 {
        put_header(header, pid, true);
        let (pointer, rest) = payload.split_at_mut(1);
        pointer[0] = 0;
        put_load(rest, section);
    } else {
        put_header(header, pid, false);
        let (_, rest) = section.split_at(184 * index as usize - 1);
        put_load(payload, rest);
    }
}

// The first four bytes of a packet, with continuity_counter 0.
pub(crate) fn put_header(header: &mut [u8], pid: u16, start: bool)
    requires room { length header.old ≡ 4 }
    requires pid { pid < 8192 }
    ensures { header.new ≡ 71 ∷ ((if start then 64 else 0) + pid / 256) ∷ (pid % 256) ∷ 16 ∷ [] }
{
    let high = (pid / 256) as u8;
    header[0] = 0x47;
    header[1] = if start { 0x40 + high } else { high };
    header[2] = (pid % 256) as u8;
    header[3] = 0x10;
}

// As many of these bytes as fit, and fill behind them.
pub(crate) fn put_load(payload: &mut [u8], load: &[u8])
    ensures { payload.new ≡ filled (length payload.old) load.now }
{
    let count = load.len().min(payload.len());
    let (front, _) = load.split_at(count);
    let (place, rest) = payload.split_at_mut(count);
    place.copy_from_slice(front);
    rest.fill(0xFF);
}
