//! The columns behind a step, or why it is refused.

ghost use Rattle.std.specs.Prelude.{◌≡◌, IfOk};
ghost use Rattle.gob_plan.specs.declared.steps.StepFault.{StepFault as Fault};
ghost use Rattle.gob_plan.specs.declared.steps.Refusal.{Refusal as Why};
ghost use Rattle.gob_plan.specs.declared.steps.StepSpec.{StepSpec as Spec};
ghost use Rattle.gob_plan.specs.Tests.{check_is_right, check_takes};
ghost use Rattle.gob_plan.specs.Rows as rows;
ghost use Rattle.gob_steps.specs.Told.{TellsColumns};

use crate::names::{
    are_bad_names, columns_but, columns_named, first_missing, is_there, kind_of, same, with_column,
    with_new_kind, with_new_name,
};
use gob_plan::{
    Check, Column, Columns, How, Kind, List, NoMemory, Refusal, StepFault, StepSpec, TestSpec,
    Text, Value,
};
use std::alloc::Global;

const MOST: usize = 64;

/// One answer for each step: a missing column goes before a wrong kind, and that before all else.
pub(crate) fn columns_after(
    alloc: Global,
    spec: &StepSpec,
    columns: &Columns,
) -> Result<List<Column>, StepFault>
    ensures { TellsColumns spec.now columns.now result }
{
    match spec {
        StepSpec::Keep { columns: names } => keep(alloc, names.as_slice(), columns),
        StepSpec::Drop { columns: names } => drop_named(alloc, names.as_slice(), columns),
        StepSpec::Rename { from, to } => rename(alloc, from, to, columns),
        StepSpec::Cast { column, kind } => cast(alloc, column, *kind, columns),
        StepSpec::Set {
            column,
            kind,
            value,
        } => set(alloc, column, *kind, value, columns),
        StepSpec::Copy { from, to } => copy(alloc, from, to, columns),
        StepSpec::Explode { column, separator } => explode(alloc, column, separator, columns),
        StepSpec::Where { test } => select(alloc, test, columns),
        StepSpec::Upper { column } => of_text(alloc, column, columns),
        StepSpec::Lower { column } => of_text(alloc, column, columns),
    }
}

fn bad_value() -> StepFault
    ensures { result ≡ Fault.Refused Why.BadValue }
{
    StepFault::Refused(Refusal::BadValue)
}

fn no_column(column: &Text) -> Result<StepFault, NoMemory>
    ensures { IfOk result (λ e. e ≡ Fault.Refused (Why.NoColumn column.now)) }
{
    let column = column.copy()?;
    Ok(StepFault::Refused(Refusal::NoColumn { column }))
}

fn bad_kind(column: &Text) -> Result<StepFault, NoMemory>
    ensures { IfOk result (λ e. e ≡ Fault.Refused (Why.BadKind column.now)) }
{
    let column = column.copy()?;
    Ok(StepFault::Refused(Refusal::BadKind { column }))
}

fn keep(alloc: Global, names: &[Text], columns: &Columns) -> Result<List<Column>, StepFault>
    ensures { TellsColumns (Spec.Keep names.now) columns.now result }
{
    if let Some(name) = first_missing(names, columns) {
        return Err(no_column(name)?);
    }
    if are_bad_names(names) {
        return Err(bad_value());
    }
    Ok(columns_named(alloc, names, columns)?)
}

fn drop_named(alloc: Global, names: &[Text], columns: &Columns) -> Result<List<Column>, StepFault>
    ensures { TellsColumns (Spec.Drop names.now) columns.now result }
{
    if let Some(name) = first_missing(names, columns) {
        return Err(no_column(name)?);
    }
    if are_bad_names(names) {
        return Err(bad_value());
    }
    let others = columns_but(alloc, names, columns)?;
    if others.len() == 0 {
        return Err(bad_value());
    }
    Ok(others)
}

fn rename(
    alloc: Global,
    from: &Text,
    to: &Text,
    columns: &Columns,
) -> Result<List<Column>, StepFault>
    ensures { TellsColumns (Spec.Rename from.now to.now) columns.now result }
{
    let Some(_) = kind_of(from.as_str(), columns) else {
        return Err(no_column(from)?);
    };
    if is_there(to.as_str(), columns) {
        return Err(bad_value());
    }
    Ok(with_new_name(alloc, from, to, columns)?)
}

fn cast(
    alloc: Global,
    column: &Text,
    kind: Kind,
    columns: &Columns,
) -> Result<List<Column>, StepFault>
    ensures { TellsColumns (Spec.Cast column.now kind) columns.now result }
{
    let Some(_) = kind_of(column.as_str(), columns) else {
        return Err(no_column(column)?);
    };
    Ok(with_new_kind(alloc, column, kind, columns)?)
}

fn set(
    alloc: Global,
    column: &Text,
    kind: Kind,
    value: &Value,
    columns: &Columns,
) -> Result<List<Column>, StepFault>
    ensures { TellsColumns (Spec.Set column.now kind value.now) columns.now result }
{
    if !is_of(kind, value) {
        return Err(bad_value());
    }
    if is_there(column.as_str(), columns) {
        return Ok(with_new_kind(alloc, column, kind, columns)?);
    }
    if MOST <= columns.len() {
        return Err(bad_value());
    }
    Ok(with_column(alloc, column, kind, columns)?)
}

fn copy(alloc: Global, from: &Text, to: &Text, columns: &Columns) -> Result<List<Column>, StepFault>
    ensures { TellsColumns (Spec.Copy from.now to.now) columns.now result }
{
    let Some(kind) = kind_of(from.as_str(), columns) else {
        return Err(no_column(from)?);
    };
    if is_there(to.as_str(), columns) {
        return Err(bad_value());
    }
    if MOST <= columns.len() {
        return Err(bad_value());
    }
    Ok(with_column(alloc, to, kind, columns)?)
}

fn of_text(alloc: Global, column: &Text, columns: &Columns) -> Result<List<Column>, StepFault>
    ensures { TellsColumns (Spec.Upper column.now) columns.now result }
{
    let Some(kind) = kind_of(column.as_str(), columns) else {
        return Err(no_column(column)?);
    };
    if !is_text(kind) {
        return Err(bad_kind(column)?);
    }
    Ok(same(alloc, columns)?)
}

fn explode(
    alloc: Global,
    column: &Text,
    separator: &Text,
    columns: &Columns,
) -> Result<List<Column>, StepFault>
    ensures { TellsColumns (Spec.Explode column.now separator.now) columns.now result }
{
    let Some(kind) = kind_of(column.as_str(), columns) else {
        return Err(no_column(column)?);
    };
    if !is_text(kind) {
        return Err(bad_kind(column)?);
    }
    if separator.len() == 0 {
        return Err(bad_value());
    }
    Ok(same(alloc, columns)?)
}

fn select(alloc: Global, test: &TestSpec, columns: &Columns) -> Result<List<Column>, StepFault>
    ensures { TellsColumns (Spec.Where test.now) columns.now result }
{
    let Some(kind) = kind_of(test.column.as_str(), columns) else {
        return Err(no_column(&test.column)?);
    };
    if !takes(&test.check, kind) {
        return Err(bad_kind(&test.column)?);
    }
    if !is_right(&test.check, kind) {
        return Err(bad_value());
    }
    Ok(same(alloc, columns)?)
}

fn is_text(kind: Kind) -> bool
    ensures { result ≡ rows.is_text kind }
{
    matches!(kind, Kind::Text)
}

fn is_of(kind: Kind, value: &Value) -> bool
    ensures { result ≡ rows.is_of kind value.now }
{
    match value {
        Value::Null => false,
        Value::Bool(_) => matches!(kind, Kind::Bool),
        Value::Int(_) => matches!(kind, Kind::Int),
        Value::Text(_) => matches!(kind, Kind::Text),
    }
}

fn takes(check: &Check, kind: Kind) -> bool
    ensures { result ≡ check_takes check.now kind }
{
    match check {
        Check::Null => true,
        Check::Compare { how, value: _ } => matches!(how, How::Eq) || !matches!(kind, Kind::Bool),
        Check::Like { pattern: _ } => is_text(kind),
        Check::Bytes { low: _, high: _ } => is_text(kind),
    }
}

fn is_right(check: &Check, kind: Kind) -> bool
    ensures { result ≡ check_is_right check.now kind }
{
    match check {
        Check::Compare { how: _, value } => is_of(kind, value),
        Check::Bytes { low, high } => low <= high,
        _ => true,
    }
}
