//! Lines of csv as rows.
//!
//! Most lines have no quote and no line mark in them: such a line is one record, and its fields are what stands between
//! its commas. Other lines go byte by byte through the states of csv's own machine.
ghost use Rattle.std.specs.Prelude.{◌≡◌, ℕ, List as Items, ◌∷◌, ◌++◌, [], None, Some, IfOk, IfErr, OnOk, MatchOption};
ghost use Rattle.std.specs.List.{list_any};
ghost use Rattle.csv.specs.Machine.{ends_at_end};
ghost use Rattle.csv.specs.Reading.{strip_bom};
ghost use Rattle.csv.specs.Records.{fields_of, partial_of};
ghost use Rattle.csv.specs.declared.parser.State.{State as Place};
ghost use Rattle.csv.specs.declared.parser.State.TheVariants as st;
ghost use Rattle.gob_convert.specs.Made.{concatenation};
ghost use Rattle.gob_meaning.specs.Formats.{row_of, field_values, csv_line_rows};
ghost use Rattle.gob_formats.specs.Adding.{KeepsFront};
ghost use Rattle.gob_formats.specs.Splits.{is_mark, is_plain_line, comma_fields, step, code_state, action_of};
ghost use Rattle.gob_formats.specs.Splits.{split_step};
ghost use Rattle.gob_formats.specs.Rows.{rows_on, rows_after};

use crate::fields::read_field;
use csv::ByteRecord;
use gob_convert::ConvertFault;
use gob_plan::{Column, List, Row};
use memchr::memchr;
use std::alloc::{AllocError, Global};

/// The record that is read, and its field at hand. Their memory is kept from line to line.
#[derive(Drop)]
pub(crate) struct Draft {
    fields: ByteRecord,
    field: Vec<u8>,
}

impl Draft {
    pub(crate) fn new(alloc: Global) -> Draft {
        Draft {
            fields: ByteRecord::new(alloc),
            field: Vec::new(alloc),
        }
    }
}

/// Adds the rows of the line's records.
pub(crate) fn read_records(
    alloc: Global,
    columns: &[Column],
    draft: &mut Draft,
    line: &[u8],
    rows: &mut Vec<Row>,
) -> Result<(), ConvertFault>
    ensures ok { OnOk result
        (concatenation (Some rows.old.items) (csv_line_rows columns.now line.now) ≡ Some rows.new.items) }
    ensures bad { IfErr result (λ e. e ≡ ConvertFault.Bad → csv_line_rows columns.now line.now ≡ None) }
    ensures keeps { KeepsFront rows.old.items rows.new.items }
{
    if is_plain(line) {
        let row = plain_row(alloc, columns, line)?;
        rows.push(row)?;
        return Ok(());
    }
    read_marked(alloc, columns, draft, without_mark(line), rows)?;
    Ok(())
}

// The whole line is looked through: a loop without an early exit goes many bytes at a time.
fn is_plain(line: &[u8]) -> bool
    ensures { result ≡ is_plain_line line.now }
{
    match line {
        [] | [0xef, ..] => false,
        _ => !has_mark(line),
    }
}

fn has_mark(line: &[u8]) -> bool
    ensures { result ≡ list_any is_mark line.now }
{
    let mut found = false;
    for b in line {
        found |= is_mark(*b);
    }
    found
}

#[inline(always)]
fn is_mark(b: u8) -> bool
    ensures { result ≡ is_mark b }
{
    (b == b'"') | (b == b'\r') | (b == b'\n')
}

// The row of a plain line.
fn plain_row(alloc: Global, columns: &[Column], line: &[u8]) -> Result<Row, ConvertFault>
    ensures ok { IfOk result (λ row. field_values columns.now (comma_fields [] line.now) ≡ Some row.values) }
    ensures bad { IfErr result
        (λ e. e ≡ ConvertFault.Bad → field_values columns.now (comma_fields [] line.now) ≡ None) }
{
    let mut values = Vec::with_capacity(alloc, columns.len())?;
    let mut left = Some(line);
    for column in columns {
        let Some(text) = left else {
            return Err(ConvertFault::Bad);
        };
        let (field, after) = first_field(text);
        values.push(read_field(alloc, column.kind, field)?)?;
        left = after;
    }
    if let Some(_) = left {
        return Err(ConvertFault::Bad);
    }
    Ok(Row {
        values: List::from_vec(values),
    })
}

// The first field of a text, and the text after its comma, if it has one.
#[inline(always)]
fn first_field(text: &[u8]) -> (&[u8], Option<&[u8]>)
    ensures { MatchOption result.1 (comma_fields [] text.now ≡ result.0.now ∷ [])
        (λ rest. comma_fields [] text.now ≡ result.0.now ∷ comma_fields [] rest.now) }
{
    match memchr(b',', text) {
        None => (text, None),
        Some(at) => {
            let (field, _) = text.split_at(at);
            let (_, rest) = text.split_at(at + 1);
            (field, Some(rest))
        }
    }
}

// A byte order mark may stand in front.
#[tactic(auto, unfolding(csv::specs::Reading::strip_bom))]
fn without_mark(line: &[u8]) -> &[u8]
    ensures { result.now ≡ strip_bom line.now }
{
    match line {
        [0xef, 0xbb, 0xbf, rest @ ..] => rest,
        _ => line,
    }
}

// The rows of a text of any bytes.
fn read_marked(
    alloc: Global,
    columns: &[Column],
    draft: &mut Draft,
    text: &[u8],
    rows: &mut Vec<Row>,
) -> Result<(), ConvertFault>
    ensures ok { OnOk result
        (concatenation (Some rows.old.items) (rows_on columns.now st.StartRecord [] [] text.now)
        ≡ Some rows.new.items) }
    ensures bad { IfErr result
        (λ e. e ≡ ConvertFault.Bad → rows_on columns.now st.StartRecord [] [] text.now ≡ None) }
    ensures keeps { KeepsFront rows.old.items rows.new.items }
{
    draft.fields.clear();
    draft.field.clear();
    let mut state = State::StartRecord;
    for b in text {
        let (next, action) = step(state, *b);
        take(alloc, columns, draft, rows, action, *b)?;
        state = next;
    }
    if !ends_at_end(state) {
        return Ok(());
    }
    end_record(alloc, columns, draft, rows)?;
    Ok(())
}

// Does what a byte asks for.
fn take(
    alloc: Global,
    columns: &[Column],
    draft: &mut Draft,
    rows: &mut Vec<Row>,
    action: Action,
    b: u8,
) -> Result<(), ConvertFault>
    requires { partial_of draft.old.fields ≡ [] }
    ensures ok { OnOk result ((s : Place) (rest : Items ℕ)
        → concatenation (Some rows.new.items)
        (rows_on columns.now s (fields_of draft.new.fields) draft.new.field.items rest)
        ≡ concatenation (Some rows.old.items)
        (rows_after columns.now s (action_of action) (fields_of draft.old.fields) draft.old.field.items b rest)) }
    ensures bad { IfErr result (λ e. e ≡ ConvertFault.Bad → (s : Place) (rest : Items ℕ)
        → rows_after columns.now s (action_of action) (fields_of draft.old.fields) draft.old.field.items b rest
        ≡ None) }
    ensures keeps { KeepsFront rows.old.items rows.new.items }
    ensures none { OnOk result (partial_of draft.new.fields ≡ []) }
{
    match action {
        Action::Skip => Ok(()),
        Action::Copy => {
            draft.field.push(b)?;
            Ok(())
        }
        Action::EndField => {
            end_field(draft)?;
            Ok(())
        }
        Action::EndRecord => {
            end_record(alloc, columns, draft, rows)?;
            Ok(())
        }
    }
}

fn end_field(draft: &mut Draft) -> Result<(), AllocError>
    requires { partial_of draft.old.fields ≡ [] }
    ensures fields { OnOk result
        (fields_of draft.new.fields ≡ fields_of draft.old.fields ++ draft.old.field.items ∷ []) }
    ensures none { OnOk result (partial_of draft.new.fields ≡ []) }
    ensures field { OnOk result (draft.new.field.items ≡ []) }
{
    draft.fields.push_field(draft.field.as_slice())?;
    draft.field.clear();
    Ok(())
}

fn end_record(
    alloc: Global,
    columns: &[Column],
    draft: &mut Draft,
    rows: &mut Vec<Row>,
) -> Result<(), ConvertFault>
    requires { partial_of draft.old.fields ≡ [] }
    ensures ok { OnOk result (concatenation (Some rows.old.items)
        (row_of (field_values columns.now (fields_of draft.old.fields ++ draft.old.field.items ∷ [])))
        ≡ Some rows.new.items) }
    ensures bad { IfErr result (λ e. e ≡ ConvertFault.Bad
        → field_values columns.now (fields_of draft.old.fields ++ draft.old.field.items ∷ []) ≡ None) }
    ensures keeps { KeepsFront rows.old.items rows.new.items }
    ensures fields { OnOk result (fields_of draft.new.fields ≡ []) }
    ensures none { OnOk result (partial_of draft.new.fields ≡ []) }
    ensures field { OnOk result (draft.new.field.items ≡ []) }
{
    end_field(draft)?;
    let row = row_of(alloc, columns, &draft.fields)?;
    rows.push(row)?;
    draft.fields.clear();
    Ok(())
}

fn row_of(alloc: Global, columns: &[Column], fields: &ByteRecord) -> Result<Row, ConvertFault>
    ensures ok { IfOk result (λ row. field_values columns.now (fields_of fields.now) ≡ Some row.values) }
    ensures bad { IfErr result
        (λ e. e ≡ ConvertFault.Bad → field_values columns.now (fields_of fields.now) ≡ None) }
{
    if fields.len() != columns.len() {
        return Err(ConvertFault::Bad);
    }
    let mut values = Vec::with_capacity(alloc, columns.len())?;
    for (i, column) in columns.iter().enumerate() {
        let Some(field) = fields.get(i) else {
            return Err(ConvertFault::Bad);
        };
        values.push(read_field(alloc, column.kind, field)?)?;
    }
    Ok(Row {
        values: List::from_vec(values),
    })
}

// Where the machine stands: before a record, at a field's start, in one, between quotes, or behind a quote that may end
// them.
#[derive(Clone, Copy, Drop)]
enum State {
    StartRecord,
    StartField,
    InField,
    InQuoted,
    AfterQuote,
}

#[derive(Clone, Copy, Drop)]
enum Action {
    Skip,
    Copy,
    EndField,
    EndRecord,
}

fn step(state: State, b: u8) -> (State, Action)
    ensures { split_step result ≡ step (code_state state) b }
{
    match state {
        State::StartRecord => start_record(b),
        State::StartField => start_field(b),
        State::InField => in_field(b),
        State::InQuoted => in_quoted(b),
        State::AfterQuote => after_quote(b),
    }
}

fn start_record(b: u8) -> (State, Action)
    ensures { split_step result ≡ step st.StartRecord b }
{
    if b == b'\r' || b == b'\n' {
        (State::StartRecord, Action::Skip)
    } else {
        start_field(b)
    }
}

fn start_field(b: u8) -> (State, Action)
    ensures { split_step result ≡ step st.StartField b }
{
    if b == b'"' {
        (State::InQuoted, Action::Skip)
    } else {
        in_field(b)
    }
}

fn in_field(b: u8) -> (State, Action)
    ensures { split_step result ≡ step st.InField b }
{
    if b == b',' {
        (State::StartField, Action::EndField)
    } else if b == b'\r' || b == b'\n' {
        (State::StartRecord, Action::EndRecord)
    } else {
        (State::InField, Action::Copy)
    }
}

fn in_quoted(b: u8) -> (State, Action)
    ensures { split_step result ≡ step st.InQuoted b }
{
    if b == b'"' {
        (State::AfterQuote, Action::Skip)
    } else {
        (State::InQuoted, Action::Copy)
    }
}

fn after_quote(b: u8) -> (State, Action)
    ensures { split_step result ≡ step st.AfterQuote b }
{
    if b == b'"' {
        (State::InQuoted, Action::Copy)
    } else {
        in_field(b)
    }
}

fn ends_at_end(state: State) -> bool
    ensures { result ≡ ends_at_end (code_state state) }
{
    !matches!(state, State::StartRecord)
}
