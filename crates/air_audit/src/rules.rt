// The first rule by which two packets differ.
ghost use Rattle.std.specs.Prelude.{◌≡◌, ◌%◌, ◌/◌, slice_index};
ghost use Rattle.ts_packets.specs.Bytes.{pid_in, continuity_counter};
ghost use Rattle.air_audit.specs.Checking.{has_shape};
ghost use Rattle.air_audit.specs.Rules.{is_placed_as as has_its_place, rule_between as rule_of};

use air_model::Rule;

// Whether a header is one that is written.
fn has_shape(packet: &[u8; 188]) -> bool
    ensures { result ≡ has_shape packet.now }
{
    packet[0] == 0x47
        && packet[1] / 128 != 1
        && (packet[1] / 32) % 2 != 1
        && packet[3] / 64 == 0
        && (packet[3] / 16) % 4 == 1
}

fn pid_of(packet: &[u8; 188]) -> u16
    ensures { result ≡ pid_in packet.now }
{
    u16::from(packet[1] % 32) * 256 + u16::from(packet[2])
}

fn counter_of(packet: &[u8; 188]) -> u8
    ensures { result ≡ continuity_counter packet.now }
{
    packet[3] % 16
}

// Its payload_unit_start_indicator.
fn start_of(packet: &[u8; 188]) -> u8
    ensures { result ≡ (slice_index packet.now 1 / 64) % 2 }
{
    (packet[1] / 64) % 2
}

// Whether sections begin in a packet as in the one that is expected.
fn is_placed_as(expected: &[u8; 188], found: &[u8; 188]) -> bool
    ensures { result ≡ has_its_place expected.now found.now }
{
    start_of(found) == start_of(expected) && (start_of(expected) != 1 || found[4] == expected[4])
}

/// The first rule by which a packet differs from the one that is expected.
pub(crate) fn rule_between(expected: &[u8; 188], found: &[u8; 188]) -> Rule
    ensures { result ≡ rule_of expected.now found.now }
{
    if !has_shape(found) {
        return Rule::Shape;
    }
    if pid_of(found) != pid_of(expected) {
        return Rule::Pid;
    }
    if counter_of(found) != counter_of(expected) {
        return Rule::Counter;
    }
    if !is_placed_as(expected, found) {
        return Rule::Pointer;
    }
    Rule::Bytes
}
