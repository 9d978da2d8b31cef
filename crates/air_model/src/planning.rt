// The order of a cycle of sub-tables.
ghost use Rattle.std.specs.Prelude.{◌≡◌, ◌++◌, IfOk, OnOk};
ghost use Rattle.air_model.specs.Air.{CanBeTold};
ghost use Rattle.std.specs.List.{All};
ghost use Rattle.section_codec.specs.SubTables.{IsFit, AreFit};
ghost use Rattle.air_model.specs.Laying.{order_under};
ghost use Rattle.air_model.specs.Planning.{weights_in, weights_of, time_weights, tot_weight, weights_under};

use crate::laying::lead_count;
use crate::{CyclePlan, plan};
use guide_model::Offset;
use section_codec::{SubTable, Tier3};
use std::alloc::{AllocError, Global};
use ts_packets::packets_of;

/// Plans the order of one cycle of the sections of these sub-tables, of a TDT, and of a TOT where
/// there are offsets; these two stand after those that lead. A section is named by its place where
/// each is laid once.
pub fn plan_cycle(
    alloc: Global,
    tables: &[SubTable],
    quota: u32,
    offsets: &[Offset],
) -> Result<CyclePlan, AllocError>
    requires fit { AreFit tables.now }
    requires offsets { CanBeTold offsets.now }
    ensures { IfOk result (λ order. order ≡ order_under tables.now (record { quota = quota; offsets = offsets.now })) }
{
    let mut weights = Vec::new(alloc);
    put_weights(&mut weights, tables, offsets)?;
    plan(alloc, weights.as_slice(), quota)
}

fn put_weights(
    weights: &mut Vec<(Tier3, u32)>,
    tables: &[SubTable],
    offsets: &[Offset],
) -> Result<(), AllocError>
    requires fit { All IsFit tables.now }
    requires offsets { CanBeTold offsets.now }
    ensures { OnOk result (weights.new.items ≡ weights.old.items ++ weights_under tables.now offsets.now) }
{
    let (before, behind) = tables.split_at(lead_count(tables));
    put_tables(weights, before)?;
    put_times(weights, offsets)?;
    put_tables(weights, behind)
}

// The TDT has one packet, and a TOT 16 bytes beside its offsets, each of which has 13.
fn put_times(weights: &mut Vec<(Tier3, u32)>, offsets: &[Offset]) -> Result<(), AllocError>
    requires { CanBeTold offsets.now }
    ensures { OnOk result (weights.new.items ≡ weights.old.items ++ time_weights offsets.now) }
{
    weights.push((Tier3::Fast, 1))?;
    put_tot(weights, offsets)
}

fn put_tot(weights: &mut Vec<(Tier3, u32)>, offsets: &[Offset]) -> Result<(), AllocError>
    requires { CanBeTold offsets.now }
    ensures { OnOk result (weights.new.items ≡ weights.old.items ++ tot_weight offsets.now) }
{
    if offsets.is_empty() {
        return Ok(());
    }
    weights.push((Tier3::Fast, packets_of(16 + 13 * offsets.len())))?;
    Ok(())
}

fn put_tables(weights: &mut Vec<(Tier3, u32)>, tables: &[SubTable]) -> Result<(), AllocError>
    requires { All IsFit tables.now }
    ensures { OnOk result (weights.new.items ≡ weights.old.items ++ weights_of tables.now) }
{
    for table in tables {
        put_table(weights, table)?;
    }
    Ok(())
}

fn put_table(weights: &mut Vec<(Tier3, u32)>, table: &SubTable) -> Result<(), AllocError>
    requires { IsFit table.now }
    ensures { OnOk result (weights.new.items ≡ weights.old.items ++ weights_in table.now) }
{
    for section in table.sections.as_slice() {
        weights.push((table.tier, packets_of(section.body.len() + 12)))?;
    }
    Ok(())
}
