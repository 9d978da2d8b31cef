// Sub-tables of one section.
ghost use Rattle.std.specs.Prelude.{◌≡◌, IfOk};
ghost use Rattle.publication.specs.Sections.{single_table};

use section_codec::{Key, NumberedBodies, NumberedBody, SubTable, Tier3};
use si_base::Bytes;
use std::alloc::{AllocError, Global};

/// The sub-table of this key whose one section has this body.
pub(crate) fn single_table(alloc: Global, key: Key, body: Bytes) -> Result<SubTable, AllocError>
    ensures { IfOk result (λ table. table ≡ single_table key body) }
{
    let mut sections = NumberedBodies::new(alloc);
    sections.push(NumberedBody { number: 0, body })?;
    Ok(SubTable {
        key,
        tier: Tier3::Fast,
        sections,
    })
}
