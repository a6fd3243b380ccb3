//! Rows made of a row. Its values are moved, and copied only where a second row takes them.

ghost use Rattle.std.specs.Prelude.{◌≡◌, ◌<◌, ◌^◌, ◌++◌, ◌∷◌, [], IfOk, IfErr, OnOk, OnErr, Some, None, true, length};
ghost use Rattle.std.specs.Prelude.{get_or, slice_set, map};
ghost use Rattle.std.specs.List.{list_all};
ghost use Rattle.std.specs.Option.{option_map};
ghost use Rattle.gob_plan.specs.declared.rows.Value.TheVariants as value;
ghost use Rattle.gob_convert.specs.declared.convert.ConvertFault.{ConvertFault as Fault};
ghost use Rattle.gob_steps.specs.Changes.{value_change_of};
ghost use Rattle.gob_steps.specs.Places.{are_apart, is_below, values_at};

use crate::values::changed;
use gob_convert::ConvertFault;
use gob_plan::{List, NoMemory, Row, StepSpec, Value};
use std::alloc::Global;
use std::mem;

/// The values at these places, in this order.
pub(crate) fn picked(alloc: Global, row: Row, places: &[usize]) -> Result<Row, NoMemory>
    requires below { list_all (is_below (length row.values)) places.now ≡ true }
    requires apart { are_apart places.now ≡ true }
    ensures { IfOk result (λ r. r.values ≡ values_at places.now row.values) }
{
    let mut values = row.values.into_vec();
    let mut picked = List::with_capacity(alloc, places.len())?;
    for place in places {
        picked.push(mem::replace(&mut values[*place], Value::Null))?;
    }
    Ok(Row { values: picked })
}

/// The row with its value at this place changed by the step.
pub(crate) fn with_change(
    alloc: Global,
    row: Row,
    place: usize,
    spec: &StepSpec,
) -> Result<Row, ConvertFault>
    requires { place < length row.values }
    ensures ok { IfOk result (λ r.
        option_map (λ w. slice_set row.values place w) (value_change_of spec.now (get_or row.values place value.Null))
        ≡ Some r.values) }
    ensures bad { IfErr result (λ e. e ≡ Fault.Bad
        → value_change_of spec.now (get_or row.values place value.Null) ≡ None) }
{
    let mut values = row.values.into_vec();
    let old = mem::replace(&mut values[place], Value::Null);
    values[place] = changed(alloc, spec, old)?;
    Ok(Row {
        values: List::from_vec(values),
    })
}

/// The row with this value at this place, or at its end where the place is behind the last.
pub(crate) fn with_set(row: Row, place: usize, value: &Value) -> Result<Row, NoMemory>
    ensures set { IfOk result (λ r. place < length row.values → r.values ≡ slice_set row.values place value.now) }
    ensures added { IfOk result (λ r. place ≡ length row.values → r.values ≡ row.values ++ value.now ∷ []) }
{
    let value = value.copy()?;
    let mut values = row.values.into_vec();
    if place < values.len() {
        values[place] = value;
    } else {
        values.push(value)?;
    }
    Ok(Row {
        values: List::from_vec(values),
    })
}

/// The row with the value at this place once more, at its end.
pub(crate) fn with_copy(row: Row, place: usize) -> Result<Row, NoMemory>
    requires { place < length row.values }
    ensures { IfOk result (λ r. r.values ≡ row.values ++ get_or row.values place value.Null ∷ []) }
{
    let mut values = row.values;
    let value = values.as_slice()[place].copy()?;
    values.push(value)?;
    Ok(Row { values })
}
