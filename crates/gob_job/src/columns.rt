//! The columns behind a step, or why these columns don't take it.
ghost use Rattle.std.specs.Prelude.{◌≡◌, ◌∷◌, [], IfOk};
ghost use Rattle.std.specs.Option.{ok_or, option_copied};
ghost use Rattle.gob_plan.specs.declared.steps.Refusal.TheVariants.{NoColumn, BadValue};
ghost use Rattle.gob_plan.specs.declared.steps.StepFault.TheVariants.{Refused};
ghost use Rattle.gob_plan.specs.declared.steps.StepSpec.TheVariants as step;
ghost use Rattle.gob_plan.specs.Columns.{is_there};
ghost use Rattle.gob_plan.specs.Rows as rows;
ghost use Rattle.gob_plan.specs.Tests as tests;
ghost use Rattle.gob_meaning.specs.Steps as spec;
ghost use Rattle.gob_job.specs.Faults.{TakesElement};

use gob_plan::{
    Check, Column, How, Kind, List, NoMemory, Refusal, StepFault, StepSpec, TestSpec, Text, Value,
};
use std::alloc::Global;

/// The most columns that a row may have.
const MOST_COLUMNS: usize = 64;

/// All else is wrong than a column that isn't there or has another kind.
pub(crate) fn bad_value() -> StepFault
    ensures { result ≡ Refused BadValue }
{
    StepFault::Refused(Refusal::BadValue)
}

// ---- names and columns

fn is_there(name: &str, columns: &[Column]) -> bool
    ensures { result ≡ is_there name.now columns.now }
{
    columns.iter().any(|c| c.name.as_str() == name)
}

/// The kind of the column with this name.
pub(crate) fn kind_of(name: &str, columns: &[Column]) -> Option<Kind>
    ensures { result ≡ rows.kind_of name.now columns.now }
{
    for column in columns {
        if column.name.as_str() == name {
            return Some(column.kind);
        }
    }
    None
}

/// The kind of the column with this name, which must be there.
pub(crate) fn kind_there(alloc: Global, name: &str, columns: &[Column]) -> Result<Kind, StepFault>
    ensures { TakesElement (λ k. k) result (ok_or (rows.kind_of name.now columns.now) (NoColumn name.now)) }
{
    match kind_of(name, columns) {
        Some(kind) => Ok(kind),
        None => Err(StepFault::Refused(Refusal::NoColumn {
            column: Text::from_str(alloc, name)?,
        })),
    }
}

fn is_among(name: &str, names: &[Text]) -> bool
    ensures { result ≡ spec.is_among name.now names.now }
{
    names.iter().any(|n| n.as_str() == name)
}

fn has_twice(names: &[Text]) -> bool
    ensures { result ≡ spec.has_twice names.now }
{
    match names {
        [] => false,
        [first, rest @ ..] => is_among(first.as_str(), rest) || has_twice(rest),
    }
}

// The first of these names that no column has.
fn first_missing<'a>(names: &'a [Text], columns: &[Column]) -> Option<&'a Text>
    ensures { option_copied result ≡ spec.first_missing names.now columns.now }
{
    for name in names {
        if !is_there(name.as_str(), columns) {
            return Some(name);
        }
    }
    None
}

// ---- columns made of others

fn columns_named(
    alloc: Global,
    names: &[Text],
    columns: &[Column],
) -> Result<List<Column>, NoMemory>
    ensures { IfOk result (λ named. named ≡ spec.columns_named names.now columns.now) }
{
    let mut named = List::new(alloc);
    for name in names {
        let kind = kind_of(name.as_str(), columns).unwrap_or(Kind::Text);
        named.push(Column {
            name: name.copy()?,
            kind,
        })?;
    }
    Ok(named)
}

fn columns_but(alloc: Global, names: &[Text], columns: &[Column]) -> Result<List<Column>, NoMemory>
    ensures { IfOk result (λ others. others ≡ spec.columns_but names.now columns.now) }
{
    let mut others = List::new(alloc);
    for column in columns {
        if !is_among(column.name.as_str(), names) {
            others.push(column.copy()?)?;
        }
    }
    Ok(others)
}

// The column, by its new name where it has this one.
fn renamed(alloc: Global, column: &Column, from: &str, to: &str) -> Result<Column, NoMemory>
    ensures { IfOk result (λ c. c ∷ [] ≡ spec.with_new_name from.now to.now (column.now ∷ [])) }
{
    if column.name.as_str() == from {
        Ok(Column {
            name: Text::from_str(alloc, to)?,
            kind: column.kind,
        })
    } else {
        Ok(column.copy()?)
    }
}

fn with_new_name(
    alloc: Global,
    from: &str,
    to: &str,
    columns: &[Column],
) -> Result<List<Column>, NoMemory>
    ensures { IfOk result (λ named. named ≡ spec.with_new_name from.now to.now columns.now) }
{
    let mut named = List::new(alloc);
    for column in columns {
        named.push(renamed(alloc, column, from, to)?)?;
    }
    Ok(named)
}

fn with_new_kind(
    alloc: Global,
    name: &str,
    kind: Kind,
    columns: &[Column],
) -> Result<List<Column>, NoMemory>
    ensures { IfOk result (λ retyped. retyped ≡ spec.with_new_kind name.now kind columns.now) }
{
    let mut retyped = List::new(alloc);
    for column in columns {
        let name_there = column.name.copy()?;
        let kind = if name_there.as_str() == name {
            kind
        } else {
            column.kind
        };
        retyped.push(Column {
            name: name_there,
            kind,
        })?;
    }
    Ok(retyped)
}

/// The same columns.
pub(crate) fn copied(alloc: Global, columns: &[Column]) -> Result<List<Column>, NoMemory>
    ensures { IfOk result (λ copies. copies ≡ columns.now) }
{
    let mut copies = List::new(alloc);
    for column in columns {
        copies.push(column.copy()?)?;
    }
    Ok(copies)
}

fn with_column(
    alloc: Global,
    name: &str,
    kind: Kind,
    columns: &[Column],
) -> Result<List<Column>, NoMemory>
    ensures { IfOk result (λ more. more ≡ spec.with_column name.now kind columns.now) }
{
    let mut more = copied(alloc, columns)?;
    more.push(Column {
        name: Text::from_str(alloc, name)?,
        kind,
    })?;
    Ok(more)
}

// ---- one function for each step

#[tactic(auto, unfolding(gob_meaning::specs::Steps::columns_after))]
fn keep(alloc: Global, names: &[Text], columns: &[Column]) -> Result<List<Column>, StepFault>
    ensures { TakesElement (λ x. x) result (spec.columns_after (step.Keep names.now) columns.now) }
{
    if let Some(name) = first_missing(names, columns) {
        let column = name.copy()?;
        return Err(StepFault::Refused(Refusal::NoColumn { column }));
    }
    if names.is_empty() || has_twice(names) {
        return Err(bad_value());
    }
    Ok(columns_named(alloc, names, columns)?)
}

#[tactic(auto, unfolding(gob_meaning::specs::Steps::columns_after))]
fn drop_columns(
    alloc: Global,
    names: &[Text],
    columns: &[Column],
) -> Result<List<Column>, StepFault>
    ensures { TakesElement (λ x. x) result (spec.columns_after (step.Drop names.now) columns.now) }
{
    if let Some(name) = first_missing(names, columns) {
        let column = name.copy()?;
        return Err(StepFault::Refused(Refusal::NoColumn { column }));
    }
    let others = columns_but(alloc, names, columns)?;
    if names.is_empty() || has_twice(names) || others.is_empty() {
        return Err(bad_value());
    }
    Ok(others)
}

#[tactic(auto, unfolding(gob_meaning::specs::Steps::columns_after))]
fn rename(
    alloc: Global,
    from: &str,
    to: &str,
    columns: &[Column],
) -> Result<List<Column>, StepFault>
    ensures { TakesElement (λ x. x) result (spec.columns_after (step.Rename from.now to.now) columns.now) }
{
    kind_there(alloc, from, columns)?;
    if is_there(to, columns) {
        return Err(bad_value());
    }
    Ok(with_new_name(alloc, from, to, columns)?)
}

#[tactic(auto, unfolding(gob_meaning::specs::Steps::columns_after))]
fn cast(
    alloc: Global,
    name: &str,
    kind: Kind,
    columns: &[Column],
) -> Result<List<Column>, StepFault>
    ensures { TakesElement (λ x. x) result (spec.columns_after (step.Cast name.now kind) columns.now) }
{
    kind_there(alloc, name, columns)?;
    Ok(with_new_kind(alloc, name, kind, columns)?)
}

#[tactic(auto, unfolding(gob_meaning::specs::Steps::columns_after))]
fn set(
    alloc: Global,
    name: &str,
    kind: Kind,
    value: &Value,
    columns: &[Column],
) -> Result<List<Column>, StepFault>
    ensures { TakesElement (λ x. x) result (spec.columns_after (step.Set name.now kind value.now) columns.now) }
{
    if !is_of(kind, value) {
        return Err(bad_value());
    }
    if is_there(name, columns) {
        return Ok(with_new_kind(alloc, name, kind, columns)?);
    }
    if columns.len() >= MOST_COLUMNS {
        return Err(bad_value());
    }
    Ok(with_column(alloc, name, kind, columns)?)
}

#[tactic(auto, unfolding(gob_meaning::specs::Steps::columns_after))]
fn copy(alloc: Global, from: &str, to: &str, columns: &[Column]) -> Result<List<Column>, StepFault>
    ensures { TakesElement (λ x. x) result (spec.columns_after (step.Copy from.now to.now) columns.now) }
{
    let kind = kind_there(alloc, from, columns)?;
    if is_there(to, columns) || columns.len() >= MOST_COLUMNS {
        return Err(bad_value());
    }
    Ok(with_column(alloc, to, kind, columns)?)
}

// The column must be there and hold texts.
#[tactic(auto, unfolding(gob_meaning::specs::Steps::columns_after))]
fn text_there(alloc: Global, name: &str, columns: &[Column]) -> Result<(), StepFault>
    ensures { TakesElement (λ _. columns.now) result (spec.columns_after (step.Upper name.now) columns.now) }
{
    match kind_there(alloc, name, columns)? {
        Kind::Text => Ok(()),
        _ => Err(StepFault::Refused(Refusal::BadKind {
            column: Text::from_str(alloc, name)?,
        })),
    }
}

#[tactic(auto, unfolding(gob_meaning::specs::Steps::columns_after))]
fn explode(
    alloc: Global,
    name: &str,
    separator: &Text,
    columns: &[Column],
) -> Result<List<Column>, StepFault>
    ensures { TakesElement (λ x. x) result (spec.columns_after (step.Explode name.now separator.now) columns.now) }
{
    text_there(alloc, name, columns)?;
    if separator.is_empty() {
        return Err(bad_value());
    }
    Ok(copied(alloc, columns)?)
}

#[tactic(auto, unfolding(gob_meaning::specs::Steps::columns_after))]
fn change_letters(alloc: Global, name: &str, columns: &[Column]) -> Result<List<Column>, StepFault>
    ensures upper { TakesElement (λ x. x) result (spec.columns_after (step.Upper name.now) columns.now) }
    ensures lower { TakesElement (λ x. x) result (spec.columns_after (step.Lower name.now) columns.now) }
{
    text_there(alloc, name, columns)?;
    Ok(copied(alloc, columns)?)
}

#[tactic(auto, unfolding(gob_meaning::specs::Steps::columns_after))]
fn filter(alloc: Global, test: &TestSpec, columns: &[Column]) -> Result<List<Column>, StepFault>
    ensures { TakesElement (λ x. x) result (spec.columns_after (step.Where test.now) columns.now) }
{
    let kind = kind_there(alloc, test.column.as_str(), columns)?;
    if !check_takes(&test.check, kind) {
        let column = test.column.copy()?;
        return Err(StepFault::Refused(Refusal::BadKind { column }));
    }
    if !check_is_right(&test.check, kind) {
        return Err(bad_value());
    }
    Ok(copied(alloc, columns)?)
}

/// The columns behind the step, or why these columns don't take it.
pub(crate) fn columns_after(
    alloc: Global,
    step: &StepSpec,
    columns: &[Column],
) -> Result<List<Column>, StepFault>
    ensures { TakesElement (λ x. x) result (spec.columns_after step.now columns.now) }
{
    match step {
        StepSpec::Keep { columns: names } => keep(alloc, names.as_slice(), columns),
        StepSpec::Drop { columns: names } => drop_columns(alloc, names.as_slice(), columns),
        StepSpec::Rename { from, to } => rename(alloc, from.as_str(), to.as_str(), columns),
        StepSpec::Cast { column, kind } => cast(alloc, column.as_str(), *kind, columns),
        StepSpec::Set {
            column,
            kind,
            value,
        } => { set(alloc, column.as_str(), *kind, value, columns) }
        StepSpec::Copy { from, to } => copy(alloc, from.as_str(), to.as_str(), columns),
        StepSpec::Explode { column, separator } => {
            explode(alloc, column.as_str(), separator, columns)
        }
        StepSpec::Where { test } => filter(alloc, test, columns),
        StepSpec::Upper { column } => change_letters(alloc, column.as_str(), columns),
        StepSpec::Lower { column } => change_letters(alloc, column.as_str(), columns),
    }
}

/// The columns behind the step; a refused one leaves them.
pub(crate) fn columns_behind(
    alloc: Global,
    step: &StepSpec,
    columns: &[Column],
) -> Result<List<Column>, NoMemory>
    ensures { IfOk result (λ behind. behind ≡ spec.columns_behind step.now columns.now) }
{
    match columns_after(alloc, step, columns) {
        Ok(after) => Ok(after),
        Err(StepFault::Refused(_)) => Ok(copied(alloc, columns)?),
        Err(StepFault::Memory) => Err(NoMemory),
    }
}

/// The columns behind all steps, one after the other.
pub fn columns_through(
    alloc: Global,
    steps: &[StepSpec],
    columns: &[Column],
) -> Result<List<Column>, NoMemory>
    ensures { IfOk result (λ behind. behind ≡ spec.columns_through steps.now columns.now) }
{
    let mut left = copied(alloc, columns)?;
    for step in steps {
        left = columns_behind(alloc, step, left.as_slice())?;
    }
    Ok(left)
}

// ---- checks and kinds

fn is_of(kind: Kind, value: &Value) -> bool
    ensures { result ≡ rows.is_of kind value.now }
{
    match value {
        Value::Null => false,
        Value::Bool(_) => kind == Kind::Bool,
        Value::Int(_) => kind == Kind::Int,
        Value::Text(_) => kind == Kind::Text,
    }
}

fn takes(how: How, kind: Kind) -> bool
    ensures { result ≡ tests.takes how kind }
{
    how == How::Eq || kind != Kind::Bool
}

/// Whether the check is for values of this kind.
pub(crate) fn check_takes(check: &Check, kind: Kind) -> bool
    ensures { result ≡ tests.check_takes check.now kind }
{
    match check {
        Check::Null => true,
        Check::Compare { how, value: _ } => takes(*how, kind),
        Check::Like { pattern: _ } => kind == Kind::Text,
        Check::Bytes { low: _, high: _ } => kind == Kind::Text,
    }
}

/// Whether the check's own words are right for this kind.
pub(crate) fn check_is_right(check: &Check, kind: Kind) -> bool
    ensures { result ≡ tests.check_is_right check.now kind }
{
    match check {
        Check::Null => true,
        Check::Compare { how: _, value } => is_of(kind, value),
        Check::Like { pattern: _ } => true,
        Check::Bytes { low, high } => *low <= *high,
    }
}
