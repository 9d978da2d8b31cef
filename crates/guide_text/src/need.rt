// The lines of needs.
ghost use Rattle.std.specs.Prelude.{◌≡◌, ◌++◌, ◌∷◌, OnOk, flat_map};
ghost use Rattle.guide_text.specs.Guides.{need_line};

use crate::field::{put_decimal, put_field};
use guide_screen::Need;
use std::alloc::{AllocError, Global};

// Appends the line of a need.
fn put_need(alloc: Global, out: &mut Vec<u8>, need: Need) -> Result<(), AllocError>
    ensures { OnOk result (out.new.items ≡ out.old.items ++ need_line need) }
{
    out.extend_from_slice(b"wanting")?;
    match need {
        Need::Pat => put_field(out, b"pat")?,
        Need::Nit => put_field(out, b"nit")?,
        Need::Sdt => put_field(out, b"sdt")?,
        Need::Clock => put_field(out, b"clock")?,
        Need::Pmt(pid, program) => {
            put_field(out, b"pmt")?;
            put_decimal(alloc, out, u64::from(pid))?;
            put_decimal(alloc, out, u64::from(program))?;
        }
        Need::Present(service) => {
            put_field(out, b"present")?;
            put_decimal(alloc, out, u64::from(service))?;
        }
        Need::Schedule(service, table) => {
            put_field(out, b"schedule")?;
            put_decimal(alloc, out, u64::from(service))?;
            put_decimal(alloc, out, u64::from(table))?;
        }
    }
    out.extend_from_slice(b"\n")
}

/// Appends the lines of needs.
pub fn put_needs(alloc: Global, out: &mut Vec<u8>, needs: &[Need]) -> Result<(), AllocError>
    ensures { OnOk result (out.new.items ≡ out.old.items ++ flat_map need_line needs.now) }
{
    for need in needs {
        put_need(alloc, out, *need)?;
    }
    Ok(())
}
