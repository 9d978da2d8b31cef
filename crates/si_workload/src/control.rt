// The lines of the control.
ghost use Rattle.std.specs.Prelude.{◌≡◌, ◌<◌, ◌++◌, IfOk, OnOk};
ghost use Rattle.si_workload.specs.Texts.{control_text, tick_lines};

use crate::feed::moment_at;
use si_time::write_moment;
use std::alloc::{AllocError, Global};

/// The lines of the control of the load with this number, 0 to 999,999,999: three ticks within the first day, and a publish behind each.
/// They are the same for all numbers.
pub fn made_control(alloc: Global, number: u64) -> Result<Vec<u8>, AllocError>
    ensures { IfOk result (λ text. text.items ≡ control_text) }
{
    let mut out = Vec::new(alloc);
    put_tick(&mut out, 24)?;
    put_tick(&mut out, 48)?;
    put_tick(&mut out, 72)?;
    Ok(out)
}

// Appends a tick so many quarters of an hour behind the first midnight, and a publish.
fn put_tick(out: &mut Vec<u8>, quarters: u64) -> Result<(), AllocError>
    requires { quarters < 10000 }
    ensures { OnOk result (out.new.items ≡ out.old.items ++ tick_lines quarters) }
{
    out.extend_from_slice(b"tick,")?;
    out.extend_from_slice(&write_moment(moment_at(quarters)))?;
    out.extend_from_slice(b"\npublish\n")
}
