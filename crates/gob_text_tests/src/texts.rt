//! Numbers, names, line ends and words, of gob_text.

use crate::compare::{same_bytes, same_integer, same_number, same_place, same_truth};
use gob_text::{
    Words, escaped_len, first_line_end, is_column_name, is_job_name, last_line_end, push_escaped,
    push_i64, push_offset, push_u64, read_i64, read_u64, unescape,
};
use std::process::Abort;
use std::test::Fail;

const NUMBERS: [(&str, Option<u64>); 7] = [
    ("0", Some(0)),
    ("18446744073709551615", Some(u64::MAX)),
    ("18446744073709551616", None),
    ("00", None),
    ("+1", None),
    ("1 ", None),
    ("", None),
];

const INTEGERS: [(&str, Option<i64>); 7] = [
    ("-9223372036854775808", Some(i64::MIN)),
    ("9223372036854775807", Some(i64::MAX)),
    ("9223372036854775808", None),
    ("-007", Some(-7)),
    ("-", None),
    ("+1", None),
    ("", None),
];

/// A name, whether a job may have it, and whether a column may.
const NAMES: [(&str, bool, bool); 7] = [
    ("a-b_9", true, true),
    ("9", true, true),
    ("jobs", false, true),
    ("-a", false, true),
    ("A.b", false, true),
    ("a b", false, false),
    ("", false, false),
];

const LINE_ENDS: [(&str, Option<usize>, Option<usize>); 4] = [
    ("a\nb\r\nc", Some(2), Some(5)),
    ("\n", Some(1), Some(1)),
    ("a\r", None, None),
    ("", None, None),
];

/// A text, and whether it is the spelling of a name.
const SPELLINGS: [(&str, bool); 6] = [
    ("a%2Fb", true),
    ("%E9", true),
    ("a%2fb", false),
    ("a%61b", false),
    ("a/b", false),
    ("a%2", false),
];

#[test]
fn numbers_are_read(rt: HostRuntime) {
    for (text, wanted) in NUMBERS {
        same_number(&rt, read_u64(text.as_bytes()), wanted);
    }
}

#[test]
fn integers_are_read(rt: HostRuntime) {
    for (text, wanted) in INTEGERS {
        same_integer(&rt, read_i64(text.as_bytes()), wanted);
    }
}

#[test]
fn numbers_and_names_are_written(rt: HostRuntime) -> Result<(), Fail> {
    let mut text = Vec::new(rt.alloc());
    push_u64(&mut text, 10)?;
    push_i64(&mut text, i64::MIN)?;
    push_offset(&mut text, 4)?;
    push_escaped(&mut text, "web1/\u{e9}~a.b_c-9")?;
    let wanted = "10-922337203685477580800000000000000000004web1%2F%C3%A9%7Ea.b_c-9";
    same_bytes(&rt, &text, wanted.as_bytes());
    Ok(())
}

#[test]
fn names_are_told(rt: HostRuntime) {
    for (name, job, column) in NAMES {
        same_truth(&rt, is_job_name(name), job);
        same_truth(&rt, is_column_name(name), column);
    }
}

#[test]
fn line_ends_are_found(rt: HostRuntime) {
    for (text, first, last) in LINE_ENDS {
        same_place(&rt, first_line_end(text.as_bytes()), first);
        same_place(&rt, last_line_end(text.as_bytes()), last);
    }
}

#[test]
fn escaped_names_have_one_spelling(rt: HostRuntime) -> Result<(), Fail> {
    for (text, known) in SPELLINGS {
        same_truth(&rt, unescape(rt.alloc(), text.as_bytes())?.is_some(), known);
    }
    Ok(())
}

#[test]
fn escaped_names_are_measured(rt: HostRuntime) {
    same_place(&rt, Some(escaped_len("web1/a.log")), Some(12));
    same_place(&rt, Some(escaped_len("")), Some(0));
}

fn takes(rt: &impl Abort, words: &mut Words<'_>, text: &[u8]) {
    same_truth(rt, words.take_text(text), true);
}

#[test]
fn words_are_taken(rt: HostRuntime) -> Result<(), Fail> {
    let mut words = Words::new(b"partition a%20b 12\nkey=%FF\n07 %FF %C3%A9");
    takes(&rt, &mut words, b"partition ");
    let name = words.take_name(rt.alloc())?.ok_or("a name")?;
    same_bytes(&rt, name.as_bytes(), b"a b");
    same_truth(&rt, words.take_text(b"\n"), false);
    takes(&rt, &mut words, b" ");
    same_number(&rt, words.take_number(), Some(12));
    takes(&rt, &mut words, b"\n");
    same_bytes(&rt, words.take_line().ok_or("a line")?, b"key=%FF");
    Ok(())
}

#[test]
fn what_is_no_name_is_left(rt: HostRuntime) -> Result<(), Fail> {
    let mut words = Words::new(b"07 %FF %C3%A9");
    same_number(&rt, words.take_number(), None);
    same_bytes(&rt, words.take_word().ok_or("a word")?, b"07");
    takes(&rt, &mut words, b" ");
    same_truth(&rt, words.take_name(rt.alloc())?.is_none(), true);
    takes(&rt, &mut words, b"%FF ");
    same_truth(&rt, words.take_name(rt.alloc())?.is_some(), true);
    same_truth(&rt, words.is_done(), true);
    Ok(())
}
