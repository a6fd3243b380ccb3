//! Rows as records of csv.
ghost use Rattle.std.specs.Prelude.{◌≡◌, ◌++◌, ◌∷◌, [], OnOk};
ghost use Rattle.csv.specs.Writing.{default_writer, needs_quotes, needs_byte, escaped};
ghost use Rattle.gob_meaning.specs.Formats.{csv_record};
ghost use Rattle.gob_meaning.specs.Values.{value_text};
ghost use Rattle.gob_formats.specs.Adding.{KeepsFront};
ghost use Rattle.gob_formats.specs.Fields.{field_written, more_fields, record_body};

use crate::adding::add;
use gob_plan::Value;
use itoa::Buffer;
use std::alloc::AllocError;

/// Adds the values as one record, with its line feed. A record whose one field is empty is two quotes.
pub(crate) fn write_record(values: &[Value], into: &mut Vec<u8>) -> Result<(), AllocError>
    ensures ok { OnOk result (into.new.items ≡ into.old.items ++ csv_record values.now) }
    ensures keeps { KeepsFront into.old.items into.new.items }
{
    let before = into.len();
    write_body(values, into)?;
    if into.len() == before {
        return add(b"\"\"\n", into);
    }
    add(b"\n", into)
}

fn write_body(values: &[Value], into: &mut Vec<u8>) -> Result<(), AllocError>
    ensures ok { OnOk result (into.new.items ≡ into.old.items ++ record_body values.now) }
    ensures keeps { KeepsFront into.old.items into.new.items }
{
    match values {
        [] => Ok(()),
        [first, rest @ ..] => {
            write_field(first, into)?;
            write_more(rest, into)?;
            Ok(())
        }
    }
}

fn write_more(values: &[Value], into: &mut Vec<u8>) -> Result<(), AllocError>
    ensures ok { OnOk result (into.new.items ≡ into.old.items ++ more_fields values.now) }
    ensures keeps { KeepsFront into.old.items into.new.items }
{
    for value in values {
        into.push(b',')?;
        write_field(value, into)?;
    }
    Ok(())
}

fn write_field(value: &Value, into: &mut Vec<u8>) -> Result<(), AllocError>
    ensures ok { OnOk result (into.new.items ≡ into.old.items ++ field_written (value_text value.now)) }
    ensures keeps { KeepsFront into.old.items into.new.items }
{
    match value {
        Value::Null => Ok(()),
        Value::Bool(true) => write_text(b"true", into),
        Value::Bool(false) => write_text(b"false", into),
        Value::Int(n) => write_text(Buffer::new().format(*n).as_bytes(), into),
        Value::Text(text) => write_text(text.as_str().as_bytes(), into),
    }
}

fn write_text(field: &[u8], into: &mut Vec<u8>) -> Result<(), AllocError>
    ensures ok { OnOk result (into.new.items ≡ into.old.items ++ field_written field.now) }
    ensures keeps { KeepsFront into.old.items into.new.items }
{
    if !needs_quotes(field) {
        return add(field, into);
    }
    into.push(b'"')?;
    write_escaped(field, into)?;
    into.push(b'"')?;
    Ok(())
}

// The whole field is looked through: a loop without an early exit goes many bytes at a time.
fn needs_quotes(field: &[u8]) -> bool
    ensures { result ≡ needs_quotes default_writer field.now }
{
    let mut found = false;
    for b in field {
        found |= is_mark(*b);
    }
    found
}

#[inline(always)]
fn is_mark(b: u8) -> bool
    ensures { result ≡ needs_byte default_writer b }
{
    (b == b',') | (b == b'"') | (b == b'\r') | (b == b'\n')
}

// A quote is written twice.
fn write_escaped(field: &[u8], into: &mut Vec<u8>) -> Result<(), AllocError>
    ensures ok { OnOk result (into.new.items ≡ into.old.items ++ escaped default_writer field.now) }
    ensures keeps { KeepsFront into.old.items into.new.items }
{
    for b in field {
        write_byte(*b, into)?;
    }
    Ok(())
}

#[tactic(auto, unfolding(csv::specs::Writing::escaped))]
fn write_byte(b: u8, into: &mut Vec<u8>) -> Result<(), AllocError>
    ensures ok { OnOk result (into.new.items ≡ into.old.items ++ escaped default_writer (b ∷ [])) }
    ensures keeps { KeepsFront into.old.items into.new.items }
{
    if b == b'"' {
        return add(b"\"\"", into);
    }
    add(&[b], into)
}
