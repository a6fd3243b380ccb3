//! Rows as records.

use crate::helpers::{columns, converted, encoded, same_text};
use gob_formats::RowEncoder;
use gob_plan::{Format, Kind, List, Refusal, Row, StepFault, Text, Value};
use std::alloc::Global;
use std::process::Abort;
use std::test::Fail;

/// A text as a field of csv, alone in its record.
const FIELDS: [(&str, &str); 15] = [
    ("a", "a\n"),
    ("", "\"\"\n"),
    ("a,b", "\"a,b\"\n"),
    ("a\"b", "\"a\"\"b\"\n"),
    ("\"", "\"\"\"\"\n"),
    ("a\rb", "\"a\rb\"\n"),
    ("a\nb", "\"a\nb\"\n"),
    ("a b\\'\t", "a b\\'\t\n"),
    ("\u{e9}\0", "\u{e9}\0\n"),
    (",", "\",\"\n"),
    ("\r", "\"\r\"\n"),
    ("\r\n", "\"\r\n\"\n"),
    ("\"\"", "\"\"\"\"\"\"\n"),
    (" ", " \n"),
    ("\u{feff}", "\u{feff}\n"),
];

/// A text as a member of json.
const MEMBERS: [(&str, &str); 8] = [
    ("a", "{\"c\":\"a\"}\n"),
    ("", "{\"c\":\"\"}\n"),
    ("\"\\/", "{\"c\":\"\\\"\\\\/\"}\n"),
    ("\u{8}\u{c}\n\r\t", "{\"c\":\"\\b\\f\\n\\r\\t\"}\n"),
    ("\0\u{1f}\u{7f}", "{\"c\":\"\\u0000\\u001f\u{7f}\"}\n"),
    ("\u{e9}\u{1f600}", "{\"c\":\"\u{e9}\u{1f600}\"}\n"),
    (
        "\u{1}\u{7}\u{b}\u{e}\u{19}\u{1a}",
        "{\"c\":\"\\u0001\\u0007\\u000b\\u000e\\u0019\\u001a\"}\n",
    ),
    (
        "\u{feff}\u{2028}\u{10ffff}'",
        "{\"c\":\"\u{feff}\u{2028}\u{10ffff}'\"}\n",
    ),
];

/// A text as a line.
const TEXTS: [(&str, &str); 6] = [
    ("a", "a\n"),
    ("", "\n"),
    ("a\r", "a\r\n"),
    ("\0\u{feff}\"", "\0\u{feff}\"\n"),
    ("a\nb", "bad"),
    ("\n", "bad"),
];

fn text(alloc: Global, text: &str) -> Result<Value, Fail> {
    Ok(Value::Text(Text::from_str(alloc, text)?))
}

fn one_text(alloc: Global, word: &str) -> Result<Row, Fail> {
    let mut values = List::new(alloc);
    values.push(text(alloc, word)?)?;
    Ok(Row { values })
}

fn each_encodes(
    rt: &impl Abort,
    alloc: Global,
    format: Format,
    cases: &[(&str, &str)],
) -> Result<(), Fail> {
    let list = columns(alloc, &[("c", Kind::Text)])?;
    for (word, wanted) in cases {
        let row = one_text(alloc, word)?;
        let found = encoded(alloc, format, &list, &row)?;
        same_text(rt, found.as_str(), wanted);
    }
    Ok(())
}

#[test]
fn texts_are_written_as_each_format_does(rt: HostRuntime) -> Result<(), Fail> {
    each_encodes(&rt, rt.alloc(), Format::Csv, &FIELDS)?;
    each_encodes(&rt, rt.alloc(), Format::Json, &MEMBERS)?;
    each_encodes(&rt, rt.alloc(), Format::Lines, &TEXTS)
}

fn mixed_row(alloc: Global, first: Value, second: Value, third: Value) -> Result<Row, Fail> {
    let mut values = List::new(alloc);
    values.push(first)?;
    values.push(second)?;
    values.push(third)?;
    Ok(Row { values })
}

fn mixed_encode(
    rt: &impl Abort,
    alloc: Global,
    row: &Row,
    csv: &str,
    json: &str,
) -> Result<(), Fail> {
    let list = columns(
        alloc,
        &[("z", Kind::Int), ("a\"", Kind::Text), ("m", Kind::Bool)],
    )?;
    same_text(rt, encoded(alloc, Format::Csv, &list, row)?.as_str(), csv);
    same_text(rt, encoded(alloc, Format::Json, &list, row)?.as_str(), json);
    Ok(())
}

#[test]
fn members_go_by_their_names(rt: HostRuntime) -> Result<(), Fail> {
    let alloc = rt.alloc();
    let some = mixed_row(
        alloc,
        Value::Int(i64::MIN),
        text(alloc, "x,y")?,
        Value::Bool(true),
    )?;
    mixed_encode(
        &rt,
        alloc,
        &some,
        "-9223372036854775808,\"x,y\",true\n",
        "{\"a\\\"\":\"x,y\",\"m\":true,\"z\":-9223372036854775808}\n",
    )?;
    let none = mixed_row(alloc, Value::Null, Value::Null, Value::Bool(false))?;
    mixed_encode(
        &rt,
        alloc,
        &none,
        ",,false\n",
        "{\"a\\\"\":null,\"m\":false,\"z\":null}\n",
    )
}

#[test]
fn one_null_is_two_quotes_and_no_line(rt: HostRuntime) -> Result<(), Fail> {
    let alloc = rt.alloc();
    let list = columns(alloc, &[("c", Kind::Text)])?;
    let mut values = List::new(alloc);
    values.push(Value::Null)?;
    let row = Row { values };
    same_text(
        &rt,
        encoded(alloc, Format::Csv, &list, &row)?.as_str(),
        "\"\"\n",
    );
    same_text(
        &rt,
        encoded(alloc, Format::Json, &list, &row)?.as_str(),
        "{\"c\":null}\n",
    );
    same_text(
        &rt,
        encoded(alloc, Format::Lines, &list, &row)?.as_str(),
        "bad",
    );
    Ok(())
}

fn refused(alloc: Global, names: &[(&str, Kind)]) -> Result<String, Fail> {
    let list = columns(alloc, names)?;
    match RowEncoder::new(alloc, Format::Lines, &list) {
        Err(StepFault::Refused(Refusal::BadKind { column })) => Ok(column.into_string()),
        _ => Err(Fail::from("the columns aren't refused")),
    }
}

#[test]
fn lines_are_written_of_one_text(rt: HostRuntime) -> Result<(), Fail> {
    let alloc = rt.alloc();
    same_text(&rt, refused(alloc, &[("a", Kind::Int)])?.as_str(), "a");
    let two = [("a", Kind::Text), ("b", Kind::Text)];
    same_text(&rt, refused(alloc, &two)?.as_str(), "b");
    Ok(())
}

#[test]
fn an_encoder_converts(rt: HostRuntime) -> Result<(), Fail> {
    let alloc = rt.alloc();
    let list = columns(alloc, &[("c", Kind::Text)])?;
    let found = converted(alloc, Format::Json, &list, one_text(alloc, "x")?)?;
    same_text(&rt, found.as_str(), "{\"c\":\"x\"}\n");
    Ok(())
}
