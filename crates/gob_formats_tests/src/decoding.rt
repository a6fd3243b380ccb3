//! Lines as rows.

use crate::helpers::{columns, decoded, same_length, same_text, shown};
use gob_convert::Convert;
use gob_formats::{LineDecoder, LineScratch, RowEncoder};
use gob_plan::{Bytes, Format, Kind};
use std::alloc::Global;
use std::process::Abort;
use std::test::Fail;

const LINES: [(&str, &str); 6] = [
    ("x", "'x',;"),
    ("", "'',;"),
    ("a\rb\r", "'a\rb\r',;"),
    ("\u{feff}\0", "'\u{feff}\0',;"),
    ("\r", "'\r',;"),
    ("\0\0,\"", "'\0\0,\"',;"),
];

/// Of an int and a text.
const CSV: [(&str, &str); 62] = [
    ("1,a", "1,'a',;"),
    (",", "null,'',;"),
    ("", ""),
    ("1", "bad"),
    ("1,a,b", "bad"),
    ("1,a,", "bad"),
    ("x,a", "bad"),
    (" 1,a", "bad"),
    ("-0,a", "0,'a',;"),
    ("007,a", "7,'a',;"),
    ("+1,a", "bad"),
    ("1.0,a", "bad"),
    ("1e2,a", "bad"),
    ("9223372036854775807,a", "9223372036854775807,'a',;"),
    ("9223372036854775808,a", "bad"),
    ("-9223372036854775808,a", "-9223372036854775808,'a',;"),
    ("-9223372036854775809,a", "bad"),
    ("1,\"a,b\"", "1,'a,b',;"),
    ("1,\"a\"\"b\"", "1,'a\"b',;"),
    ("1,a\"b", "1,'a\"b',;"),
    ("1,\"a\"b", "1,'ab',;"),
    ("1,\"a", "1,'a',;"),
    ("1,\"\"", "1,'',;"),
    ("1,\"", "1,'',;"),
    ("\"1\",\"\"\"\"", "1,'\"',;"),
    ("\"\",a", "null,'a',;"),
    ("1,a\r", "1,'a',;"),
    ("1,a\r2,b", "1,'a',;2,'b',;"),
    ("1,a\r2", "bad"),
    ("1,a\r2,b,c", "bad"),
    ("\r", ""),
    ("\r\r1,a\r\r2,b\r\r", "1,'a',;2,'b',;"),
    ("1,a\n2,b", "1,'a',;2,'b',;"),
    ("1,\"a\r\nb\"", "1,'a\r\nb',;"),
    ("\u{feff}1,a", "1,'a',;"),
    ("\u{feff}", ""),
    ("\u{feff}\u{feff}1,a", "bad"),
    ("1,\u{feff}", "1,'\u{feff}',;"),
    ("1,a\0b", "1,'a\0b',;"),
    ("1,\"\"\"", "1,'\"',;"),
    ("1,\"\"\"\"\"", "1,'\"\"',;"),
    ("1,\"\"\"\"\"\"", "1,'\"\"',;"),
    ("1,\"a\"\"", "1,'a\"',;"),
    ("1,\"a\" \"b\"", "1,'a \"b\"',;"),
    ("1,a\"\"b\"", "1,'a\"\"b\"',;"),
    ("1, \"a,b\"", "bad"),
    ("1,\"a\rb,c\"\r2,d", "1,'a\rb,c',;2,'d',;"),
    ("1,\"\r\"", "1,'\r',;"),
    ("\"1\r\",a", "bad"),
    ("1,a\r\"2", "bad"),
    ("\0,a", "bad"),
    ("1\0,a", "bad"),
    ("1,\0\r2,\0\0", "1,'\0',;2,'\0\0',;"),
    ("1,a\r\u{feff}2,b", "bad"),
    ("\"\u{feff}1\",a", "bad"),
    ("\u{feff}\"1\",a", "1,'a',;"),
    ("\u{feff}\r1,a", "1,'a',;"),
    ("-,a", "bad"),
    ("--1,a", "bad"),
    ("-00000000000000000000001,a", "-1,'a',;"),
    ("99999999999999999999999,a", "bad"),
    ("NaN,a", "bad"),
];

/// Of a bool, an int and a text.
const JSON: [(&str, &str); 91] = [
    ("", ""),
    (" ", "bad"),
    ("{}", "null,null,null,;"),
    (" {\"t\" : \"x\" , \"n\":5,\"b\":true}\t", "true,5,'x',;"),
    ("{\"b\":null,\"n\":null,\"t\":null}", "null,null,null,;"),
    ("{\"b\":false,\"t\":\"\"}", "false,null,'',;"),
    ("{\"o\":{\"n\":1},\"n\":2}", "null,2,null,;"),
    ("{\"n\":1,\"n\":2}", "null,2,null,;"),
    ("{\"n\":\"x\",\"n\":2}", "null,2,null,;"),
    ("{\"n\":2,\"n\":\"x\"}", "bad"),
    ("{\"n\":2,\"n\":null}", "null,null,null,;"),
    ("{\"n\":1.0}", "bad"),
    ("{\"n\":1e2}", "bad"),
    ("{\"n\":-0}", "bad"),
    ("{\"n\":0}", "null,0,null,;"),
    ("{\"n\":01}", "bad"),
    (
        "{\"n\":9223372036854775807}",
        "null,9223372036854775807,null,;",
    ),
    ("{\"n\":9223372036854775808}", "bad"),
    (
        "{\"n\":-9223372036854775808}",
        "null,-9223372036854775808,null,;",
    ),
    ("{\"n\":-9223372036854775809}", "bad"),
    ("{\"n\":true}", "bad"),
    ("{\"b\":1}", "bad"),
    ("{\"b\":\"true\"}", "bad"),
    ("{\"t\":1}", "bad"),
    ("{\"t\":[]}", "bad"),
    ("{\"t\":{}}", "bad"),
    ("{\"o\":1e400}", "bad"),
    ("{\"o\":[1,{\"p\":-1e400}]}", "bad"),
    ("{\"o\":1e308}", "null,null,null,;"),
    ("{\"o\":123456789012345678901234567890}", "null,null,null,;"),
    ("[1]", "bad"),
    ("null", "bad"),
    ("5", "bad"),
    ("{\"n\":1} x", "bad"),
    ("{\"n\":1}{}", "bad"),
    ("{\"n\":1", "bad"),
    ("{\"n\":1,}", "bad"),
    ("\u{feff}{}", "bad"),
    (
        "{\"t\":\"\\\"\\\\\\/\\b\\f\\n\\r\\t\\u00e9\\ud83d\\ude00\"}",
        "null,null,'\"\\/\u{8}\u{c}\n\r\t\u{e9}\u{1f600}',;",
    ),
    ("{\"t\":\"\\ud83d\"}", "bad"),
    ("{\"t\":\"\\u0000\"}", "null,null,'\0',;"),
    ("{\"t\":\"\0\"}", "bad"),
    ("{\"\\u006e\":3}", "null,3,null,;"),
    (
        "{\"t\":\"\u{e9}\u{1f600}\"}",
        "null,null,'\u{e9}\u{1f600}',;",
    ),
    ("{\"n\":-1}", "null,-1,null,;"),
    ("{\"n\":1E2}", "bad"),
    ("{\"n\":0e0}", "bad"),
    ("{\"n\":-0.0}", "bad"),
    ("{\"n\":18446744073709551615}", "bad"),
    ("{\"n\":18446744073709551616}", "bad"),
    ("{\"n\":+1}", "bad"),
    ("{\"n\":-}", "bad"),
    ("{\"n\":1.}", "bad"),
    ("{\"n\":.5}", "bad"),
    ("{\"n\":NaN}", "bad"),
    ("{\"n\":1e400,\"n\":1}", "bad"),
    ("{\"n\":1,\"\\u006e\":2}", "null,2,null,;"),
    ("{\"t\":1,\"t\":[],\"t\":\"a\"}", "null,null,'a',;"),
    ("{\"o\":{\"n\":1,\"n\":2},\"o\":3}", "null,null,null,;"),
    (
        "{\"t\":\"\\u0022\\u005C\\u002f\\u00E9\\uD83D\\uDE00\\u007F\\ud7ff\\uE000\"}",
        "null,null,'\"\\/\u{e9}\u{1f600}\u{7f}\u{d7ff}\u{e000}',;",
    ),
    ("{\"t\":\"\\ude00\"}", "bad"),
    ("{\"t\":\"\\ud83dx\"}", "bad"),
    ("{\"t\":\"\\ud83d\\n\"}", "bad"),
    ("{\"t\":\"\\ud83d\\u0041\"}", "bad"),
    ("{\"t\":\"\\ud83d\\ud83d\\ude00\"}", "bad"),
    ("{\"t\":\"\\ude00\\ud83d\"}", "bad"),
    ("{\"o\":\"\\ud800\"}", "bad"),
    ("{\"\\udc00\":1}", "bad"),
    ("{\"t\":\"\\x41\"}", "bad"),
    ("{\"t\":\"\\'\"}", "bad"),
    ("{\"t\":\"\\u12\"}", "bad"),
    ("{\"t\":\"\\u00g0\"}", "bad"),
    ("{\"t\":\"\\\"}", "bad"),
    ("{\"t\":\"\\", "bad"),
    ("{\"t\":\"\u{1f}\"}", "bad"),
    ("{\"t\":\"\t\"}", "bad"),
    ("{\"t\":\"\u{7f}\"}", "null,null,'\u{7f}',;"),
    ("{\"n\":1\0}", "bad"),
    ("{}\0", "bad"),
    ("{\"n\0\":1}", "bad"),
    ("{\"n\\u0000\":1}", "null,null,null,;"),
    ("{\u{feff}}", "bad"),
    ("{\"t\":\"\u{feff}\"}", "null,null,'\u{feff}',;"),
    ("\r", "bad"),
    ("\r{\r\"n\"\r:\r1\r}\r", "null,1,null,;"),
    ("{\"n\":1\u{c}}", "bad"),
    ("{'n':1}", "bad"),
    ("{n:1}", "bad"),
    ("{\"n\" 1}", "bad"),
    ("{\"n\":1 \"t\":\"a\"}", "bad"),
    ("{\"n\":[1,]}", "bad"),
];

// Columns that whole lines are written of are also read as whole lines.
pub(crate) fn lines_decoder(alloc: Global) -> Result<LineDecoder, Fail> {
    let list = columns(alloc, &[("line", Kind::Text)])?;
    match RowEncoder::new(alloc, Format::Lines, &list) {
        Ok(_) => Ok(LineDecoder::new(Format::Lines, &list)?),
        Err(_) => Err(Fail::from("the columns are refused")),
    }
}

pub(crate) fn csv_decoder(alloc: Global) -> Result<LineDecoder, Fail> {
    let list = columns(alloc, &[("n", Kind::Int), ("t", Kind::Text)])?;
    Ok(LineDecoder::new(Format::Csv, &list)?)
}

pub(crate) fn json_decoder(alloc: Global) -> Result<LineDecoder, Fail> {
    let list = columns(
        alloc,
        &[("b", Kind::Bool), ("n", Kind::Int), ("t", Kind::Text)],
    )?;
    Ok(LineDecoder::new(Format::Json, &list)?)
}

fn each_decodes(
    rt: &impl Abort,
    alloc: Global,
    decoder: &LineDecoder,
    cases: &[(&str, &str)],
) -> Result<(), Fail> {
    for (line, wanted) in cases {
        let found = decoded(alloc, decoder, line.as_bytes())?;
        same_text(rt, found.as_str(), wanted);
    }
    Ok(())
}

#[test]
fn whole_lines_are_texts(rt: HostRuntime) -> Result<(), Fail> {
    let decoder = lines_decoder(rt.alloc())?;
    each_decodes(&rt, rt.alloc(), &decoder, &LINES)
}

#[test]
fn csv_is_read_as_csv_reads_it(rt: HostRuntime) -> Result<(), Fail> {
    let decoder = csv_decoder(rt.alloc())?;
    each_decodes(&rt, rt.alloc(), &decoder, &CSV)
}

#[test]
fn json_is_read_as_serde_json_reads_it(rt: HostRuntime) -> Result<(), Fail> {
    let decoder = json_decoder(rt.alloc())?;
    each_decodes(&rt, rt.alloc(), &decoder, &JSON)
}

pub(crate) fn is_bad(
    rt: &impl Abort,
    alloc: Global,
    decoder: &LineDecoder,
    line: &[u8],
) -> Result<(), Fail> {
    let found = decoded(alloc, decoder, line)?;
    same_text(rt, found.as_str(), "bad");
    Ok(())
}

#[test]
fn bytes_that_are_no_text_are_bad(rt: HostRuntime) -> Result<(), Fail> {
    let alloc = rt.alloc();
    is_bad(&rt, alloc, &lines_decoder(alloc)?, &[0xff])?;
    is_bad(&rt, alloc, &csv_decoder(alloc)?, &[b'1', b',', 0xff])?;
    is_bad(
        &rt,
        alloc,
        &csv_decoder(alloc)?,
        &[b'1', b',', b'"', 0xc3, b'"'],
    )?;
    is_bad(&rt, alloc, &json_decoder(alloc)?, &[b'{', b'}', 0xff])
}

/// Of a bool.
const BOOLS: [(&str, &str); 6] = [
    ("true", "true,;"),
    ("false", "false,;"),
    ("\"\"", "null,;"),
    ("True", "bad"),
    ("1", "bad"),
    (",", "bad"),
];

#[test]
fn bools_are_two_words(rt: HostRuntime) -> Result<(), Fail> {
    let list = columns(rt.alloc(), &[("c", Kind::Bool)])?;
    let decoder = LineDecoder::new(Format::Csv, &list)?;
    each_decodes(&rt, rt.alloc(), &decoder, &BOOLS)
}

#[test]
fn a_bad_line_leaves_the_rows(rt: HostRuntime) -> Result<(), Fail> {
    let alloc = rt.alloc();
    let decoder = csv_decoder(alloc)?;
    let mut scratch = LineScratch::new(alloc);
    let mut rows = Vec::new(alloc);
    decoder.decode(alloc, &mut scratch, b"1,a", &mut rows)?;
    if let Ok(()) = decoder.decode(alloc, &mut scratch, b"2,b\r3", &mut rows) {
        return Err(Fail::from("a bad line was read"));
    }
    decoder.decode(alloc, &mut scratch, b"4,d", &mut rows)?;
    let found = shown(alloc, rows.as_slice())?;
    same_text(&rt, found.as_str(), "1,'a',;4,'d',;");
    Ok(())
}

#[test]
fn a_decoder_converts(rt: HostRuntime) -> Result<(), Fail> {
    let alloc = rt.alloc();
    let decoder = csv_decoder(alloc)?;
    let rows = decoder.convert(alloc, Bytes::from_slice(alloc, b"1,a\r2,b")?)?;
    let found = shown(alloc, rows.as_slice())?;
    same_text(&rt, found.as_str(), "1,'a',;2,'b',;");
    same_length(&rt, decoder.output().len(), 2);
    Ok(())
}
