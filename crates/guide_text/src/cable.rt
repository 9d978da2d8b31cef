// The fields of a cable.
ghost use Rattle.std.specs.Prelude.{◌≡◌, ◌++◌, ◌∷◌, Some, OnOk};
ghost use Rattle.std.specs.List.{join_with_byte};
ghost use Rattle.guide_text.specs.Guides.{cable_fields};

use crate::field::put_decimal;
use guide_model::Cable;
use std::alloc::{AllocError, Global};

/// Appends the numbers of a cable.
pub(crate) fn put_cable_numbers(
    alloc: Global,
    out: &mut Vec<u8>,
    cable: Cable,
) -> Result<(), AllocError>
    ensures { OnOk result (out.new.items ≡ out.old.items ++ 9 ∷ join_with_byte 9 (cable_fields (Some cable))) }
{
    put_decimal(alloc, out, u64::from(cable.frequency))?;
    put_decimal(alloc, out, u64::from(cable.modulation))?;
    put_decimal(alloc, out, u64::from(cable.symbol_rate))?;
    put_decimal(alloc, out, u64::from(cable.fec_outer))?;
    put_decimal(alloc, out, u64::from(cable.fec_inner))
}

/// Appends the numbers of a cable, or as many empty fields.
pub(crate) fn put_optional_cable(
    alloc: Global,
    out: &mut Vec<u8>,
    cable: Option<Cable>,
) -> Result<(), AllocError>
    ensures { OnOk result (out.new.items ≡ out.old.items ++ 9 ∷ join_with_byte 9 (cable_fields cable)) }
{
    match cable {
        Some(cable) => put_cable_numbers(alloc, out, cable),
        None => out.extend_from_slice(b"\t\t\t\t\t"),
    }
}
