// The line on the bit rate.
ghost use Rattle.std.specs.Prelude.{◌≡◌, ◌++◌, OnOk};
ghost use Rattle.epg_report.specs.Rates.{kept_text, needed_text, rate_line};

use cycle_player::Tally;
use si_base::put_number;
use std::alloc::{AllocError, Global};

// Appends a rate that would do, or `none`.
fn put_needed(alloc: Global, out: &mut Vec<u8>, rate: Option<u32>) -> Result<(), AllocError>
    ensures { OnOk result (out.new.items ≡ out.old.items ++ needed_text rate) }
{
    match rate {
        Some(rate) => put_number(alloc, out, u64::from(rate)),
        None => out.extend_from_slice(b"none"),
    }
}

// Appends `kept`, or `short`, how many cycles are, and the least rate that would have done.
fn put_kept(alloc: Global, out: &mut Vec<u8>, tally: Tally) -> Result<(), AllocError>
    ensures { OnOk result (out.new.items ≡ out.old.items ++ kept_text tally) }
{
    if tally.short() == 0 {
        return out.extend_from_slice(b"kept");
    }
    out.extend_from_slice(b"short,")?;
    put_number(alloc, out, tally.short())?;
    out.extend_from_slice(b",")?;
    put_needed(alloc, out, tally.least_rate())
}

/// Appends the line that says whether the cycles of a bit rate, in bits per second, repeat in time
/// what is frequent (TR 101 290, 5.2.1 and 5.2.3): `rate,BITS,kept`, or `rate,BITS,short,CYCLES,NEEDED`
/// with how many are short and the least rate that would have done. Without a rate it appends
/// nothing.
pub fn put_rate_line(
    alloc: Global,
    out: &mut Vec<u8>,
    rate: Option<u32>,
    tally: Tally,
) -> Result<(), AllocError>
    ensures { OnOk result (out.new.items ≡ out.old.items ++ rate_line rate tally) }
{
    let Some(bits) = rate else {
        return Ok(());
    };
    out.extend_from_slice(b"rate,")?;
    put_number(alloc, out, u64::from(bits))?;
    out.extend_from_slice(b",")?;
    put_kept(alloc, out, tally)?;
    out.extend_from_slice(b"\n")
}
