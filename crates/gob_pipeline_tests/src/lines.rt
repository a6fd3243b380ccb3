//! Lines as they are: their ends, what is torn, and bad lines.

use crate::cuts::{Case, each_is_so};
use std::test::Fail;

const PLAIN: &str = "source.format=lines\nwriter.format=lines\n";

const PLAIN_LINES: [Case; 11] = [
    ("", "", "0 0 0 0, 0 0 0"),
    ("a\nbc\n", "out0:a\nbc\n", "2 0 2 0, 2 0 0"),
    ("a\r\n\r\n\n", "out0:a\n\n\n", "3 0 3 0, 3 0 0"),
    ("a\rb\r\r\n\r", "out0:a\rb\r\n", "1 0 1 0, 1 0 0 torn"),
    ("a\nbc", "out0:a\n", "1 0 1 0, 1 0 0 torn"),
    ("\r", "", "0 0 0 0, 0 0 0 torn"),
    (
        "\u{feff}\0\n\0\n",
        "out0:\u{feff}\0\n\0\n",
        "2 0 2 0, 2 0 0",
    ),
    ("\u{1f600}\n", "out0:\u{1f600}\n", "1 0 1 0, 1 0 0"),
    // It begins at 7.
    ("a\n~\nb\n", "out0:a\n", "bad 9"),
    ("~\r\nab", "", "bad 7 torn"),
    ("a\n~\n", "out0:a\n", "bad 9"),
];

/// One bad line may pass.
const LENIENT: &str = "source.format=lines\nwriter.format=lines\ntask.skip.error.records=1\n";

const LENIENT_LINES: [Case; 3] = [
    ("~\r\n\u{e9}\n", "bad0:~\r\nout0:\u{e9}\n", "2 1 1 0, 1 0 0"),
    ("a\n~\n~", "bad0:~\nout0:a\n", "2 1 1 0, 1 0 0 torn"),
    ("~\na\n~\nb\n~\n", "bad0:~\nout0:a\n", "bad 4"),
];

/// The line at offset 0 is the header.
const HEADER: &str =
    "source.format=csv\nsource.columns=id:int\nsource.skip.header=true\nwriter.format=csv\n";

const HEADER_LINES: [Case; 3] = [
    ("id\n7\n", "out0:7\n", "1 0 1 0, 1 0 0"),
    ("~\r\n\n8\n", "out0:8\n", "2 0 1 0, 1 0 0"),
    ("id", "", "0 0 0 0, 0 0 0 torn"),
];

const LATER_LINES: [Case; 2] = [
    ("7\n8\n", "out0:7\n8\n", "2 0 2 0, 2 0 0"),
    ("id\n7\n", "", "bad 3"),
];

#[test]
fn lines_go_to_lines(rt: HostRuntime) -> Result<(), Fail> {
    each_is_so(&rt, rt.alloc(), PLAIN, 7, &PLAIN_LINES)
}

#[test]
fn so_many_bad_lines_pass(rt: HostRuntime) -> Result<(), Fail> {
    each_is_so(&rt, rt.alloc(), LENIENT, 0, &LENIENT_LINES)
}

#[test]
fn the_header_makes_nothing(rt: HostRuntime) -> Result<(), Fail> {
    each_is_so(&rt, rt.alloc(), HEADER, 0, &HEADER_LINES)?;
    each_is_so(&rt, rt.alloc(), HEADER, 3, &LATER_LINES)
}
