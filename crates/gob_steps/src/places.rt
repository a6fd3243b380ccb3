//! The places of the columns that a step is for.

ghost use Rattle.std.specs.Prelude.{◌≡◌, IfOk, true};
ghost use Rattle.gob_plan.specs.Columns.{is_columns};
ghost use Rattle.gob_steps.specs.Places.{kept_by, name_of, column_place, places_of};

use gob_plan::{Column, Columns, NoMemory, StepSpec};
use std::alloc::Global;

/// The name of the one column that a step reads or changes.
pub(crate) fn own_name(spec: &StepSpec) -> &str
    ensures { result.now ≡ name_of spec.now }
{
    match spec {
        StepSpec::Keep { columns: _ } => "",
        StepSpec::Drop { columns: _ } => "",
        StepSpec::Rename { from, to: _ } => from.as_str(),
        StepSpec::Cast { column, kind: _ } => column.as_str(),
        StepSpec::Set {
            column,
            kind: _,
            value: _,
        } => column.as_str(),
        StepSpec::Copy { from, to: _ } => from.as_str(),
        StepSpec::Explode {
            column,
            separator: _,
        } => column.as_str(),
        StepSpec::Where { test } => test.column.as_str(),
        StepSpec::Upper { column } => column.as_str(),
        StepSpec::Lower { column } => column.as_str(),
    }
}

/// The place of the column with this name, or the one behind the last where it isn't there.
pub(crate) fn place_named(name: &str, columns: &Columns) -> usize
    ensures place { result ≡ column_place name.now columns.now }
    ensures proper { is_columns columns.now ≡ true }
{
    let behind = columns.len();
    match columns.find(name) {
        Some(place) => place,
        None => behind,
    }
}

/// The places of all columns that a step keeps, where it is one that keeps some.
pub(crate) fn places_kept(
    alloc: Global,
    spec: &StepSpec,
    after: &Columns,
    columns: &Columns,
) -> Result<Vec<usize>, NoMemory>
    ensures { IfOk result (λ ks. ks.items ≡ places_of (kept_by spec.now after.now) columns.now) }
{
    match spec {
        StepSpec::Keep { columns: _ } => Ok(places_named(alloc, after.as_slice(), columns)?),
        StepSpec::Drop { columns: _ } => Ok(places_named(alloc, after.as_slice(), columns)?),
        _ => Ok(Vec::new(alloc)),
    }
}

fn places_named(alloc: Global, kept: &[Column], columns: &Columns) -> Result<Vec<usize>, NoMemory>
    ensures { IfOk result (λ ks. ks.items ≡ places_of kept.now columns.now) }
{
    let mut places = Vec::with_capacity(alloc, kept.len())?;
    for column in kept {
        places.push(place_named(column.name.as_str(), columns))?;
    }
    Ok(places)
}
