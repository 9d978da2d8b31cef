// Numbers as texts.
ghost use Rattle.std.specs.Prelude.{◌≡◌, ◌++◌, OnErr, OnOk, decimal};

use std::alloc::{AllocError, Global};

/// Appends a number in decimal digits. After want of memory `out` is as it was.
pub fn put_number(alloc: Global, out: &mut Vec<u8>, number: u64) -> Result<(), AllocError>
    ensures text { OnOk result (out.new.items ≡ out.old.items ++ decimal number) }
    ensures kept { OnErr result (out.new.items ≡ out.old.items) }
{
    let text = number.to_string(alloc)?;
    out.extend_from_slice(text.as_bytes())
}
