//! Columns and rows made of words, rows shown as words, and assertions.

ghost use Rattle.std.specs.Prelude.{◌≡◌};
ghost use Rattle.gob_plan.specs.Rows.{values_conform, may_stand};

use gob_convert::{Convert, ConvertFault};
use gob_formats::{LineDecoder, LineScratch, RowEncoder};
use gob_plan::{Column, Columns, Format, Kind, List, Row, Text, Value};
use itoa::Buffer;
use std::alloc::{AllocError, Global};
use std::process::Abort;
use std::str;
use std::test::Fail;

pub(crate) fn same_text(rt: &impl Abort, found: &str, wanted: &str) {
    assert_eq!(rt; found, wanted);
}

pub(crate) fn same_length(rt: &impl Abort, found: usize, wanted: usize) {
    assert_eq!(rt; found, wanted);
}

pub(crate) fn columns(alloc: Global, names: &[(&str, Kind)]) -> Result<Columns, Fail> {
    let mut list = List::new(alloc);
    for (name, kind) in names {
        list.push(Column {
            name: Text::from_str(alloc, name)?,
            kind: *kind,
        })?;
    }
    match Columns::new(list) {
        Ok(columns) => Ok(columns),
        Err(_) => Err(Fail::from("these are no columns")),
    }
}

/// A line as it is decoded: each row ends in a semicolon, each value in a comma, and a text stands in quotes.
pub(crate) fn decoded(alloc: Global, decoder: &LineDecoder, line: &[u8]) -> Result<String, Fail> {
    let mut scratch = LineScratch::new(alloc);
    let mut rows = Vec::new(alloc);
    match decoder.decode(alloc, &mut scratch, line, &mut rows) {
        Ok(()) => Ok(shown(alloc, rows.as_slice())?),
        Err(ConvertFault::Bad) => Ok(String::from_str(alloc, "bad")?),
        Err(ConvertFault::Memory) => Err(Fail::from("out of memory")),
    }
}

/// A row of these columns as it is encoded.
#[tactic(auto, unfolding(gob_plan::specs::Rows::conforms))]
pub(crate) fn encoded(
    alloc: Global,
    format: Format,
    columns: &Columns,
    row: &Row,
) -> Result<String, Fail> {
    let encoder = match RowEncoder::new(alloc, format, columns) {
        Ok(encoder) => encoder,
        Err(_) => return Err(Fail::from("the columns are refused")),
    };
    if !conform(columns.as_slice(), row.values.as_slice()) {
        return Err(Fail::from("the row doesn't conform"));
    }
    let mut record = Vec::new(alloc);
    match encoder.encode(row, &mut record) {
        Ok(()) => Ok(String::from_utf8(record)?),
        Err(ConvertFault::Bad) => Ok(String::from_str(alloc, "bad")?),
        Err(ConvertFault::Memory) => Err(Fail::from("out of memory")),
    }
}

/// The same by the encoder as a converter.
#[tactic(auto, unfolding(gob_plan::specs::Rows::conforms))]
pub(crate) fn converted(
    alloc: Global,
    format: Format,
    columns: &Columns,
    row: Row,
) -> Result<String, Fail> {
    let encoder = match RowEncoder::new(alloc, format, columns) {
        Ok(encoder) => encoder,
        Err(_) => return Err(Fail::from("the columns are refused")),
    };
    if !conform(columns.as_slice(), row.values.as_slice()) {
        return Err(Fail::from("the row doesn't conform"));
    }
    let made = encoder.convert(alloc, row)?;
    let mut text = String::new(alloc);
    for record in &made {
        text.push_str(str::from_utf8(record.as_slice())?)?;
    }
    Ok(text)
}

fn conform(columns: &[Column], values: &[Value]) -> bool
    ensures { result ≡ values_conform columns.now values.now }
{
    match columns {
        [] => values.is_empty(),
        [column, columns @ ..] => match values {
            [] => false,
            [value, values @ ..] => may_stand(column.kind, value) && conform(columns, values),
        },
    }
}

fn may_stand(kind: Kind, value: &Value) -> bool
    ensures { result ≡ may_stand kind value.now }
{
    match value {
        Value::Null => true,
        Value::Bool(_) => kind == Kind::Bool,
        Value::Int(_) => kind == Kind::Int,
        Value::Text(_) => kind == Kind::Text,
    }
}

pub(crate) fn shown(alloc: Global, rows: &[Row]) -> Result<String, AllocError> {
    let mut text = String::new(alloc);
    for row in rows {
        for value in row.values.as_slice() {
            show(value, &mut text)?;
        }
        text.push_str(";")?;
    }
    Ok(text)
}

fn show(value: &Value, into: &mut String) -> Result<(), AllocError> {
    match value {
        Value::Null => into.push_str("null")?,
        Value::Bool(true) => into.push_str("true")?,
        Value::Bool(false) => into.push_str("false")?,
        Value::Int(n) => into.push_str(Buffer::new().format(*n))?,
        Value::Text(text) => {
            into.push_str("'")?;
            into.push_str(text.as_str())?;
            into.push_str("'")?;
        }
    }
    into.push_str(",")
}
