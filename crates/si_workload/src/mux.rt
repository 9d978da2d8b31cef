// The description of the multiplex.
ghost use Rattle.std.specs.Prelude.{◌≡◌, ◌≤◌, ◌<◌, ◌++◌, IfOk, OnOk};
ghost use Rattle.si_workload.specs.Texts.{mux_text, service_line};

use si_base::put_number;
use std::alloc::{AllocError, Global};

/// The description of the multiplex of the load with this number, 0 to 999,999,999: eight services, 101 to 108, which two feeds share.
/// It is the same for all numbers.
pub fn made_mux(alloc: Global, number: u64) -> Result<Vec<u8>, AllocError>
    ensures { IfOk result (λ text. text.items ≡ mux_text) }
{
    let mut out = Vec::from_slice(alloc, b"network,40,Soak\nstream,1,1\n")?;
    for i in 0..8 {
        put_service(alloc, &mut out, i)?;
    }
    out.extend_from_slice(b"start,1993-10-13T00:00:00Z\nend\n")?;
    Ok(out)
}

// Appends the line of a service.
fn put_service(alloc: Global, out: &mut Vec<u8>, i: u64) -> Result<(), AllocError>
    requires { i < 8 }
    ensures { OnOk result (out.new.items ≡ out.old.items ++ service_line i) }
{
    out.extend_from_slice(b"service,")?;
    put_number(alloc, out, 101 + i)?;
    out.extend_from_slice(b",")?;
    put_number(alloc, out, 1 + i % 2)?;
    out.extend_from_slice(b",1,")?;
    put_number(alloc, out, 256 + i)?;
    out.extend_from_slice(b",")?;
    put_number(alloc, out, 512 + i)?;
    out.extend_from_slice(b",Maker,Channel ")?;
    put_number(alloc, out, i)?;
    out.extend_from_slice(b"\n")
}
