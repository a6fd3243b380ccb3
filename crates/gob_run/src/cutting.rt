//! The units of a run, for which the state has room.
ghost use Rattle.std.specs.Prelude.{◌≡◌, ◌≤◌, IfErr, IfOk};
ghost use Rattle.gob_ledger.specs.UnitLaws.{new_count};
ghost use Rattle.gob_meaning.specs.Fold.{saturate_u64};
ghost use Rattle.gob_run.specs.Cutting.{CutFits, CutNot, parts_of};

use crate::RunFault;
use gob_cut::{Cut, units};
use gob_io::Source;
use gob_marks::MarkTable;
use gob_plan::{Limits, Unit};
use gob_segments::Loaded;
use std::alloc::Global;

/// The most ranges that a state may have, with a run's new units.
const MOST_RANGES: u64 = 200_000;

/// Cuts the units of a run over what was loaded, where the state has room for their ranges.
pub(crate) fn cut_over<S: Source>(
    alloc: Global,
    source: &mut S,
    loaded: &Loaded,
    limits: &Limits,
) -> Result<Cut, RunFault>
    ensures cut { IfOk result (CutFits (parts_of loaded.now.state) limits.now (S.supply source.old)) }
    ensures stopped { IfErr result (CutNot (parts_of loaded.now.state) limits.now (S.supply source.old)
        (S.plan_faults source.old) (S.plan_faults source.new)) }
    ensures supply { S.supply source.new ≡ S.supply source.old }
    ensures source { S.faults source.old ≤ S.faults source.new }
    ensures planned { S.plan_faults source.old ≤ S.plan_faults source.new }
{
    let nothing = MarkTable::new(alloc);
    let marks = match &loaded.state {
        Some(state) => &state.marks,
        None => &nothing,
    };
    let cut = cut_for(alloc, source, marks, limits)?;
    Ok(cut)
}

// Cuts the units over these marks.
fn cut_for<S: Source>(
    alloc: Global,
    source: &mut S,
    marks: &MarkTable,
    limits: &Limits,
) -> Result<Cut, RunFault>
    ensures cut { IfOk result (CutFits marks.now limits.now (S.supply source.old)) }
    ensures stopped { IfErr result (CutNot marks.now limits.now (S.supply source.old)
        (S.plan_faults source.old) (S.plan_faults source.new)) }
    ensures supply { S.supply source.new ≡ S.supply source.old }
    ensures source { S.faults source.old ≤ S.faults source.new }
    ensures planned { S.plan_faults source.old ≤ S.plan_faults source.new }
{
    let cut = units(alloc, source, marks, limits)?;
    let ranges = marks.range_count();
    let fresh = count_new(cut.units.as_slice());
    if ranges == u64::MAX || fresh == u64::MAX {
        // No memory holds so many, so this is as if there were none.
        return Err(RunFault::Memory);
    }
    if ranges.saturating_add(fresh) > MOST_RANGES {
        return Err(RunFault::Full {
            ranges,
            units: fresh,
        });
    }
    Ok(cut)
}

// How many units are new. The count stops at the end of a `u64`.
fn count_new(units: &[Unit]) -> u64
    ensures { result ≡ saturate_u64 (new_count units.now) }
{
    let mut count = 0u64;
    for unit in units {
        if unit.fresh {
            count = count.saturating_add(1);
        }
    }
    count
}
