//! Columns by their names, and the lists that steps make of them.

ghost use Rattle.std.specs.Prelude.{◌≡◌, IfOk, option_copied, ◌∷◌, []};
ghost use Rattle.gob_plan.specs.Columns as named;
ghost use Rattle.gob_plan.specs.Rows as rows;
ghost use Rattle.gob_meaning.specs.Steps as meaning;
ghost use Rattle.gob_steps.specs.Places.{column_of};

use gob_plan::{Column, Columns, Kind, List, NoMemory, Text};
use std::alloc::Global;

pub(crate) fn is_there(name: &str, columns: &Columns) -> bool
    ensures { result ≡ named.is_there name.now columns.now }
{
    columns.as_slice().iter().any(|c| c.name.as_str() == name)
}

pub(crate) fn kind_of(name: &str, columns: &Columns) -> Option<Kind>
    ensures { result ≡ rows.kind_of name.now columns.now }
{
    for column in columns.as_slice() {
        if column.name.as_str() == name {
            return Some(column.kind);
        }
    }
    None
}

pub(crate) fn first_missing<'a>(names: &'a [Text], columns: &Columns) -> Option<&'a Text>
    ensures { option_copied result ≡ meaning.first_missing names.now columns.now }
{
    for name in names {
        if !is_there(name.as_str(), columns) {
            return Some(name);
        }
    }
    None
}

/// Where each name is that of a column, two of the first 65 are the same at the latest.
pub(crate) fn are_bad_names(names: &[Text]) -> bool
    ensures { result ≡ meaning.are_bad_names names.now }
{
    names.len() == 0 || has_twice(names)
}

fn has_twice(names: &[Text]) -> bool
    ensures { result ≡ meaning.has_twice names.now }
{
    match names {
        [] => false,
        [first, rest @ ..] => is_among(first.as_str(), rest) || has_twice(rest),
    }
}

fn is_among(name: &str, names: &[Text]) -> bool
    ensures { result ≡ meaning.is_among name.now names.now }
{
    names.iter().any(|n| n.as_str() == name)
}

pub(crate) fn columns_named(
    alloc: Global,
    names: &[Text],
    columns: &Columns,
) -> Result<List<Column>, NoMemory>
    ensures { IfOk result (λ l. l ≡ meaning.columns_named names.now columns.now) }
{
    let mut list = List::new(alloc);
    for name in names {
        list.push(column_named(name, columns)?)?;
    }
    Ok(list)
}

fn column_named(name: &Text, columns: &Columns) -> Result<Column, NoMemory>
    ensures { IfOk result (λ c. c ≡ column_of name.now columns.now) }
{
    let kind = kind_of(name.as_str(), columns).unwrap_or(Kind::Text);
    Ok(Column {
        name: name.copy()?,
        kind,
    })
}

pub(crate) fn columns_but(
    alloc: Global,
    names: &[Text],
    columns: &Columns,
) -> Result<List<Column>, NoMemory>
    ensures { IfOk result (λ l. l ≡ meaning.columns_but names.now columns.now) }
{
    let mut list = List::new(alloc);
    for column in columns.as_slice() {
        if !is_among(column.name.as_str(), names) {
            list.push(column.copy()?)?;
        }
    }
    Ok(list)
}

pub(crate) fn with_new_name(
    alloc: Global,
    from: &Text,
    to: &Text,
    columns: &Columns,
) -> Result<List<Column>, NoMemory>
    ensures { IfOk result (λ l. l ≡ meaning.with_new_name from.now to.now columns.now) }
{
    let mut list = List::new(alloc);
    for column in columns.as_slice() {
        list.push(renamed(column, from, to)?)?;
    }
    Ok(list)
}

fn renamed(column: &Column, from: &Text, to: &Text) -> Result<Column, NoMemory>
    ensures { IfOk result (λ c. c ∷ [] ≡ meaning.with_new_name from.now to.now (column.now ∷ [])) }
{
    if column.name.as_str() == from.as_str() {
        return Ok(Column {
            name: to.copy()?,
            kind: column.kind,
        });
    }
    Ok(column.copy()?)
}

pub(crate) fn with_new_kind(
    alloc: Global,
    name: &Text,
    kind: Kind,
    columns: &Columns,
) -> Result<List<Column>, NoMemory>
    ensures { IfOk result (λ l. l ≡ meaning.with_new_kind name.now kind columns.now) }
{
    let mut list = List::new(alloc);
    for column in columns.as_slice() {
        list.push(retyped(column, name, kind)?)?;
    }
    Ok(list)
}

fn retyped(column: &Column, name: &Text, kind: Kind) -> Result<Column, NoMemory>
    ensures { IfOk result (λ c. c ∷ [] ≡ meaning.with_new_kind name.now kind (column.now ∷ [])) }
{
    let mut retyped = column.copy()?;
    if column.name.as_str() == name.as_str() {
        retyped.kind = kind;
    }
    Ok(retyped)
}

/// One more column, at the end.
pub(crate) fn with_column(
    alloc: Global,
    name: &Text,
    kind: Kind,
    columns: &Columns,
) -> Result<List<Column>, NoMemory>
    ensures { IfOk result (λ l. l ≡ meaning.with_column name.now kind columns.now) }
{
    let mut list = same(alloc, columns)?;
    let name = name.copy()?;
    list.push(Column { name, kind })?;
    Ok(list)
}

pub(crate) fn same(alloc: Global, columns: &Columns) -> Result<List<Column>, NoMemory>
    ensures { IfOk result (λ l. l ≡ columns.now) }
{
    let mut list = List::new(alloc);
    for column in columns.as_slice() {
        list.push(column.copy()?)?;
    }
    Ok(list)
}
