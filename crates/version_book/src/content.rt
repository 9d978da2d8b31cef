// Copies of contents.
ghost use Rattle.std.specs.Prelude.{◌≡◌, take, IfOk};

use section_codec::{NumberedBodies, NumberedBody};
use si_base::Items;
use std::alloc::{AllocError, Global};

// A copy of a content.
pub fn copy(alloc: Global, content: &[NumberedBody]) -> Result<NumberedBodies, AllocError>
    ensures { IfOk result (λ copied. copied ≡ content.now) }
{
    let mut copied = Vec::with_capacity(alloc, content.len())?;
    for part in content {
        let body = Vec::from_slice(alloc, part.body.as_slice())?;
        copied.push(NumberedBody {
            number: part.number,
            body: Items::of(body),
        })?;
    }
    Ok(Items::of(copied))
}
