// cable_delivery_system_descriptor.
ghost use Rattle.std.specs.Prelude.{◌≡◌, ◌+◌, ◌*◌, ◌/◌, ◌%◌, ◌≤◌, ◌++◌, Ok, length, slice_index, OnOk, OnErr};
ghost use Rattle.descriptors.specs.CableDelivery.{FitsCable, cable_delivery_system, cable_in, has_digits, is_decimal, two_digits};

use guide_model::Cable;
use si_base::put;
use std::alloc::AllocError;

/// descriptor_tag of a cable_delivery_system_descriptor.
const TAG: u8 = 0x44;

// The last two decimal digits of a number, four bits each.
fn two_digits(number: u32) -> u8
    ensures { result ≡ two_digits number }
{
    (16 * (number / 10 % 10) + number % 10) as u8
}

/// Appends a cable_delivery_system_descriptor (EN 300 468, 6.2.13.1). It needs a frequency of 8 decimal digits, a symbol rate of 7, and
/// error protections below 16. Want of memory leaves `out` unchanged.
pub fn write_cable_delivery_system(cable: &Cable, out: &mut Vec<u8>) -> Result<(), AllocError>
    requires { FitsCable cable.now }
    ensures written { OnOk result (out.new.items ≡ out.old.items ++ cable_delivery_system cable.now) }
    ensures memory { OnErr result (out.new.items ≡ out.old.items) }
{
    out.reserve(13)?;
    put(
        out,
        &[
            TAG,
            11,
            two_digits(cable.frequency / 1_000_000),
            two_digits(cable.frequency / 10_000),
            two_digits(cable.frequency / 100),
            two_digits(cable.frequency),
            0xFF,
            0xF0 + cable.fec_outer,
            cable.modulation,
            two_digits(cable.symbol_rate / 100_000),
            two_digits(cable.symbol_rate / 1_000),
            two_digits(cable.symbol_rate / 10),
            16 * (cable.symbol_rate % 10) as u8 + cable.fec_inner,
        ],
    );
    Ok(())
}

fn is_decimal(byte: u8) -> bool
    ensures { result ≡ is_decimal byte }
{
    byte / 16 < 10 && byte % 16 < 10
}

// Whether frequency and symbol rate have decimal digits alone.
fn has_digits(body: &[u8]) -> bool
    requires { length body.now ≡ 11 }
    ensures { result ≡ has_digits body.now }
{
    is_decimal(body[0])
        && is_decimal(body[1])
        && is_decimal(body[2])
        && is_decimal(body[3])
        && is_decimal(body[7])
        && is_decimal(body[8])
        && is_decimal(body[9])
        && body[10] / 16 < 10
}

// The number of the two digits of a byte.
fn digits(byte: u8) -> u32
    ensures value { result ≡ 10 * (byte / 16) + byte % 16 }
    ensures small { result ≤ 165 }
{
    10 * u32::from(byte / 16) + u32::from(byte % 16)
}

/// What the body of a cable_delivery_system_descriptor says, or `None` exactly where it has not 11 bytes, or a digit of the frequency
/// or of the symbol rate is above 9. Reserved bits may have any value. It takes no memory (EN 300 468, 6.2.13.1).
pub fn read_cable_delivery_system(body: &[u8]) -> Result<Option<Cable>, AllocError>
    ensures { result ≡ Ok (cable_in body.now) }
{
    if body.len() != 11 || !has_digits(body) {
        return Ok(None);
    }
    Ok(Some(Cable {
        frequency: 1_000_000 * digits(body[0])
            + 10_000 * digits(body[1])
            + 100 * digits(body[2])
            + digits(body[3]),
        modulation: body[6],
        symbol_rate: 100_000 * digits(body[7])
            + 1_000 * digits(body[8])
            + 10 * digits(body[9])
            + u32::from(body[10] / 16),
        fec_outer: body[5] % 16,
        fec_inner: body[10] % 16,
    }))
}
