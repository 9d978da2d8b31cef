// What a packet is by its header.
ghost use Rattle.std.specs.Prelude.{◌≡◌};
ghost use Rattle.ts_packets.specs.Bytes.{shape_in};

/// What a packet is to a receiver of sections (ISO/IEC 13818-1, 2.4.3.2).
#[derive(Clone, Copy, PartialEq, Eq)]
pub enum Shape {
    /// Nothing of a section: a null packet, or one without payload.
    Pass,
    /// A packet of this PID that can't be used: damaged, scrambled, or of an adaptation field that leaves no payload.
    Gap(u16),
    /// A packet with a payload: its PID, payload_unit_start_indicator and continuity_counter, and the place of
    /// the payload's first byte.
    Load {
        pid: u16,
        start: bool,
        counter: u8,
        at: u8,
    },
}

/// Why 188 bytes are no packet: the first byte is not the sync_byte 0x47.
#[derive(Clone, Copy, PartialEq, Eq)]
pub enum BadPacket {
    Sync,
}

/// Reads the header of a packet (ISO/IEC 13818-1, 2.4.3.2 and 2.4.3.4). Sync comes exactly where the first byte is
/// not 0x47. Otherwise the first of these that applies:
///
/// 1. `Gap` where transport_error_indicator is 1 or transport_scrambling_control is not 0.
/// 2. `Pass` for PID 0x1FFF, or adaptation_field_control 0 or 2.
/// 3. `Load` with `at` 4 for adaptation_field_control 1.
/// 4. `Gap` where the adaptation field's length byte is above 182.
/// 5. `Load` with `at` 5 and that length.
pub fn read_packet(bytes: &[u8; 188]) -> Result<Shape, BadPacket>
    ensures { result ≡ shape_in bytes.now }
{
    if bytes[0] != 0x47 {
        return Err(BadPacket::Sync);
    }
    let pid = u16::from(bytes[1] % 32) * 256 + u16::from(bytes[2]);
    let start = (bytes[1] / 64) % 2 == 1;
    let control = (bytes[3] / 16) % 4;
    let counter = bytes[3] % 16;
    if bytes[1] / 128 == 1 || bytes[3] / 64 > 0 {
        return Ok(Shape::Gap(pid));
    }
    if pid == 0x1FFF || control == 0 || control == 2 {
        return Ok(Shape::Pass);
    }
    let load = |at: u8| Shape::Load {
        pid,
        start,
        counter,
        at,
    };
    if control == 1 {
        return Ok(load(4));
    }
    if bytes[4] > 182 {
        return Ok(Shape::Gap(pid));
    }
    Ok(load(5 + bytes[4]))
}
