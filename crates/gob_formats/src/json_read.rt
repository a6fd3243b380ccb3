//! Lines of json as rows.
ghost use Rattle.std.specs.Prelude.{◌≡◌, ◌==◌, ◌<◌, IsTrue, length, slice_index, true, false, None, Some, IfOk, IfErr};
ghost use Rattle.std.specs.Prelude.{OnOk, is_some, option_map, option_and_then};
ghost use Rattle.json.specs.Find.{as_object};
ghost use Rattle.json.specs.Value.{value_view, items_view, members_view};
ghost use Rattle.serde_json.specs.Read.{number_of, number_from, float_of};
ghost use Rattle.serde_json.specs.Find.{as_i64};
ghost use Rattle.gob_convert.specs.Made.{concatenation};
ghost use Rattle.gob_plan.specs.declared.rows.Value.TheVariants as value_kind;
ghost use Rattle.gob_meaning.specs.Formats.{json_line_rows};
ghost use Rattle.gob_formats.specs.Adding.{KeepsFront};
ghost use Rattle.gob_formats.specs.Objects.{tree_of, finite, items_finite, members_finite, integer_of, value_of_json};
ghost use Rattle.gob_formats.specs.Objects.{member_found, tree_values, object_values};

use fast_float::Numeral;
use gob_convert::ConvertFault;
use gob_plan::{Column, Kind, List, NoMemory, Row, Text, Value};
use json::{Error, Reader, Scratch, Value as Json};
use std::alloc::Global;
use std::str;

// How deep arrays and objects may nest.
const MAX_DEPTH: usize = 127;

/// Adds the row of the line's object; an empty line has none.
pub(crate) fn read_object(
    alloc: Global,
    columns: &[Column],
    scratch: &mut Scratch,
    line: &[u8],
    rows: &mut Vec<Row>,
) -> Result<(), ConvertFault>
    ensures ok { OnOk result
        (concatenation (Some rows.old.items) (json_line_rows columns.now line.now) ≡ Some rows.new.items) }
    ensures bad { IfErr result (λ e. e ≡ ConvertFault.Bad → json_line_rows columns.now line.now ≡ None) }
    ensures keeps { KeepsFront rows.old.items rows.new.items }
{
    if line.is_empty() {
        return Ok(());
    }
    let row = line_row(alloc, columns, scratch, line)?;
    rows.push(row)?;
    Ok(())
}

fn line_row(
    alloc: Global,
    columns: &[Column],
    scratch: &mut Scratch,
    line: &[u8],
) -> Result<Row, ConvertFault>
    ensures ok { IfOk result (λ row. object_values columns.now line.now ≡ Some row.values) }
    ensures bad { IfErr result (λ e. e ≡ ConvertFault.Bad → object_values columns.now line.now ≡ None) }
{
    let Ok(text) = str::from_utf8(line) else {
        return Err(ConvertFault::Bad);
    };
    let tree = read_tree(alloc, text, scratch)?;
    tree_row(alloc, columns, &tree)
}

fn read_tree<'a>(
    alloc: Global,
    text: &'a str,
    scratch: &'a mut Scratch,
) -> Result<Json<'a>, ConvertFault>
    ensures ok { IfOk result (λ v. tree_of text.now ≡ Some (value_view v)) }
    ensures bad { IfErr result (λ e. e ≡ ConvertFault.Bad → tree_of text.now ≡ None) }
{
    let mut reader = Reader::new(text, scratch)?;
    let tree = match Json::read(alloc, &mut reader, MAX_DEPTH) {
        Ok(tree) => tree,
        Err(Error::Invalid) => return Err(ConvertFault::Bad),
        Err(_) => return Err(ConvertFault::Memory),
    };
    if let Some(_) = reader.next() {
        return Err(ConvertFault::Bad);
    }
    Ok(tree)
}

// A number that is too large for a float makes the line bad, also in a member that no column names.
fn tree_row(alloc: Global, columns: &[Column], tree: &Json<'_>) -> Result<Row, ConvertFault>
    ensures ok { IfOk result (λ row. tree_values columns.now (value_view tree.now) ≡ Some row.values) }
    ensures bad { IfErr result
        (λ e. e ≡ ConvertFault.Bad → tree_values columns.now (value_view tree.now) ≡ None) }
{
    if !is_object(tree) {
        return Err(ConvertFault::Bad);
    }
    if !is_finite(tree) {
        return Err(ConvertFault::Bad);
    }
    object_row(alloc, columns, tree)
}

fn is_object(tree: &Json<'_>) -> bool
    ensures { result ≡ is_some (as_object (value_view tree.now)) }
{
    if let Json::Object(_) = tree {
        true
    } else {
        false
    }
}

fn object_row(alloc: Global, columns: &[Column], tree: &Json<'_>) -> Result<Row, ConvertFault>
    requires object { is_some (as_object (value_view tree.now)) ≡ true }
    requires reads { finite (value_view tree.now) ≡ true }
    ensures ok { IfOk result (λ row. tree_values columns.now (value_view tree.now) ≡ Some row.values) }
    ensures bad { IfErr result
        (λ e. e ≡ ConvertFault.Bad → tree_values columns.now (value_view tree.now) ≡ None) }
{
    let mut values = Vec::with_capacity(alloc, columns.len())?;
    for column in columns {
        let found = tree.get(column.name.as_str());
        values.push(member_value(alloc, column.kind, found)?)?;
    }
    Ok(Row {
        values: List::from_vec(values),
    })
}

fn member_value(alloc: Global, kind: Kind, found: Option<&Json<'_>>) -> Result<Value, ConvertFault>
    ensures ok { IfOk result
        (λ v. member_found kind (option_map (λ j. value_view j.now) found.entry) ≡ Some v) }
    ensures bad { IfErr result (λ e. e ≡ ConvertFault.Bad
        → member_found kind (option_map (λ j. value_view j.now) found.entry) ≡ None) }
{
    match found {
        Some(value) => read_value(alloc, kind, value),
        None => Ok(Value::Null),
    }
}

fn read_value(alloc: Global, kind: Kind, value: &Json<'_>) -> Result<Value, ConvertFault>
    ensures ok { IfOk result (λ v. value_of_json kind (value_view value.now) ≡ Some v) }
    ensures bad { IfErr result
        (λ e. e ≡ ConvertFault.Bad → value_of_json kind (value_view value.now) ≡ None) }
{
    if value.is_null() {
        return Ok(Value::Null);
    }
    let read = match kind {
        Kind::Bool => bool_value(value.as_bool()),
        Kind::Int => int_value(value.as_number()),
        Kind::Text => text_value(alloc, value.as_str())?,
    };
    read.ok_or(ConvertFault::Bad)
}

fn bool_value(read: Option<bool>) -> Option<Value>
    ensures { result ≡ option_map value_kind.Bool read }
{
    Some(Value::Bool(read?))
}

fn int_value(text: Option<&str>) -> Option<Value>
    ensures { result
        ≡ option_map value_kind.Int (option_and_then integer_of (option_map (λ s. s.now) text.entry)) }
{
    Some(Value::Int(read_integer(text?)?))
}

fn text_value(alloc: Global, text: Option<&str>) -> Result<Option<Value>, NoMemory>
    ensures { IfOk result
        (λ o. o ≡ option_map value_kind.Text (option_map (λ s. s.now) text.entry)) }
{
    match text {
        Some(text) => {
            let text = Text::from_str(alloc, text)?;
            Ok(Some(Value::Text(text)))
        }
        None => Ok(None),
    }
}

// ---- numbers

// A number with a point or an exponent, and `-0`, are none.
fn read_integer(number: &str) -> Option<i64>
    ensures { result ≡ integer_of number.now }
{
    let bytes = number.as_bytes();
    if has_minus(bytes) {
        negative_integer(&Numeral::scan(&bytes[1..]))
    } else {
        unsigned_integer(&Numeral::scan(bytes))
    }
}

#[inline(always)]
fn has_minus(bytes: &[u8]) -> bool
    ensures value { result ≡ (slice_index bytes.now 0 == 45) }
    ensures len { IsTrue result → 0 < length bytes.now }
{
    !bytes.is_empty() && bytes[0] == b'-'
}

fn unsigned_integer(numeral: &Numeral<'_>) -> Option<i64>
    ensures { result ≡ option_and_then as_i64 (number_from false numeral.now) }
{
    let n = numeral.to_u64()?;
    if n <= i64::MAX as u64 {
        Some(n as i64)
    } else {
        None
    }
}

fn negative_integer(numeral: &Numeral<'_>) -> Option<i64>
    ensures { result ≡ option_and_then as_i64 (number_from true numeral.now) }
{
    let n = numeral.to_i64(true)?;
    if n < 0 { Some(n) } else { None }
}

fn is_finite_number(number: &str) -> bool
    ensures { result ≡ is_some (number_of number.now) }
{
    let bytes = number.as_bytes();
    if has_minus(bytes) {
        is_finite_negative(&Numeral::scan(&bytes[1..]))
    } else {
        is_finite_unsigned(&Numeral::scan(bytes))
    }
}

fn is_finite_unsigned(numeral: &Numeral<'_>) -> bool
    ensures { result ≡ is_some (number_from false numeral.now) }
{
    match numeral.to_u64() {
        Some(_) => true,
        None => is_finite_float(false, numeral),
    }
}

fn is_finite_negative(numeral: &Numeral<'_>) -> bool
    ensures { result ≡ is_some (number_from true numeral.now) }
{
    if let Some(n) = numeral.to_i64(true) {
        if n < 0 {
            return true;
        }
    }
    is_finite_float(true, numeral)
}

fn is_finite_float(negative: bool, numeral: &Numeral<'_>) -> bool
    ensures { result ≡ is_some (float_of negative numeral.now) }
{
    numeral.to_float::<f64>(negative).is_finite()
}

// ---- trees

#[cycle(finite)]
fn is_finite(tree: &Json<'_>) -> bool
    ensures { result ≡ finite (value_view tree.now) }
{
    match tree {
        Json::Number(number) => is_finite_number(number),
        Json::Array(items) => are_items_finite(items),
        Json::Object(members) => are_members_finite(members),
        _ => true,
    }
}

#[cycle(finite)]
fn are_items_finite(items: &Vec<Json<'_>>) -> bool
    ensures { result ≡ items_finite (items_view items.now.items) }
{
    for item in items {
        if !is_finite(item) {
            return false;
        }
    }
    true
}

#[cycle(finite)]
fn are_members_finite(members: &Vec<(&str, Json<'_>)>) -> bool
    ensures { result ≡ members_finite (members_view members.now.items) }
{
    for member in members {
        if !is_finite(&member.1) {
            return false;
        }
    }
    true
}
