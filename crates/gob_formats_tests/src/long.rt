//! Long lines, and deep ones.

use crate::decoding::{csv_decoder, is_bad, json_decoder, lines_decoder};
use crate::helpers::{decoded, same_length, same_text};
use gob_formats::{LineDecoder, LineScratch};
use gob_plan::{Row, Value};
use std::alloc::{AllocError, Global};
use std::process::Abort;
use std::test::Fail;

const LONG: usize = 1 << 20;

fn add_times(into: &mut Vec<u8>, word: &str, times: usize) -> Result<(), AllocError> {
    for _ in 0..times {
        into.extend_from_slice(word.as_bytes())?;
    }
    Ok(())
}

/// A mebibyte of one letter, with these around it.
fn around_a_mebibyte(alloc: Global, front: &str, back: &str) -> Result<Vec<u8>, AllocError> {
    let mut line = Vec::from_slice(alloc, front.as_bytes())?;
    add_times(&mut line, "x", LONG)?;
    line.extend_from_slice(back.as_bytes())?;
    Ok(line)
}

// How long the last value of a row is.
fn last_length(row: &Row) -> usize {
    match row.values.as_slice().last() {
        Some(Value::Text(text)) => text.len(),
        _ => 0,
    }
}

fn is_one_text(
    rt: &impl Abort,
    alloc: Global,
    decoder: &LineDecoder,
    front: &str,
    back: &str,
) -> Result<(), Fail> {
    let line = around_a_mebibyte(alloc, front, back)?;
    let mut rows = Vec::new(alloc);
    decoder.decode(alloc, &mut LineScratch::new(alloc), &line, &mut rows)?;
    for row in &rows {
        same_length(rt, last_length(row), LONG);
    }
    same_length(rt, rows.len(), 1);
    Ok(())
}

fn each_is_one_text(
    rt: &impl Abort,
    alloc: Global,
    decoder: &LineDecoder,
    around: &[(&str, &str)],
) -> Result<(), Fail> {
    for (front, back) in around {
        is_one_text(rt, alloc, decoder, front, back)?;
    }
    Ok(())
}

#[test]
fn a_line_of_a_mebibyte_is_one_text(rt: HostRuntime) -> Result<(), Fail> {
    let decoder = lines_decoder(rt.alloc())?;
    each_is_one_text(&rt, rt.alloc(), &decoder, &[("", "")])
}

#[test]
fn a_field_of_a_mebibyte_is_one_text(rt: HostRuntime) -> Result<(), Fail> {
    let decoder = csv_decoder(rt.alloc())?;
    let around = [("1,", ""), ("\r1,", "\r"), ("1,\"", "")];
    each_is_one_text(&rt, rt.alloc(), &decoder, &around)
}

#[test]
fn a_member_of_a_mebibyte_is_one_text(rt: HostRuntime) -> Result<(), Fail> {
    let decoder = json_decoder(rt.alloc())?;
    each_is_one_text(&rt, rt.alloc(), &decoder, &[("{\"t\":\"", "\"}")])
}

fn each_is_bad(
    rt: &impl Abort,
    alloc: Global,
    decoder: &LineDecoder,
    fronts: &[&str],
) -> Result<(), Fail> {
    for front in fronts {
        let line = around_a_mebibyte(alloc, front, "")?;
        is_bad(rt, alloc, decoder, &line)?;
    }
    Ok(())
}

#[test]
fn a_mebibyte_without_a_quote_is_no_object(rt: HostRuntime) -> Result<(), Fail> {
    let decoder = json_decoder(rt.alloc())?;
    each_is_bad(&rt, rt.alloc(), &decoder, &["", "{\"t\":\""])
}

/// What stands in front, what opens so many times, what closes them, and what stands behind.
type Nest = ([&'static str; 4], usize, &'static str);

const NESTS: [Nest; 4] = [
    (["{\"o\":", "[", "]", "}"], 126, "null,null,null,;"),
    (["{\"o\":", "[", "]", "}"], 127, "bad"),
    (["", "{\"o\":", "}", ""], 127, "null,null,null,;"),
    (["", "{\"o\":", "}", ""], 128, "bad"),
];

// With a zero in the midst.
fn nested(alloc: Global, parts: [&str; 4], times: usize) -> Result<Vec<u8>, AllocError> {
    let mut line = Vec::from_slice(alloc, parts[0].as_bytes())?;
    add_times(&mut line, parts[1], times)?;
    line.push(b'0')?;
    add_times(&mut line, parts[2], times)?;
    line.extend_from_slice(parts[3].as_bytes())?;
    Ok(line)
}

fn is_read_so(
    rt: &impl Abort,
    alloc: Global,
    decoder: &LineDecoder,
    nest: &Nest,
) -> Result<(), Fail> {
    let line = nested(alloc, nest.0, nest.1)?;
    let found = decoded(alloc, decoder, &line)?;
    same_text(rt, found.as_str(), nest.2);
    Ok(())
}

#[test]
fn json_nests_127_deep_and_no_deeper(rt: HostRuntime) -> Result<(), Fail> {
    let decoder = json_decoder(rt.alloc())?;
    for nest in &NESTS {
        is_read_so(&rt, rt.alloc(), &decoder, nest)?;
    }
    Ok(())
}
