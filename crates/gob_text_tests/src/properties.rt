//! Job files' texts, of gob_props.

use crate::compare::same_text;
use gob_props::{Props, PropsFault, read_props};
use std::alloc::{AllocError, Global};
use std::test::Fail;

fn listed(alloc: Global, props: &Props) -> Result<String, AllocError> {
    let mut list = String::new(alloc);
    for i in 0..props.len() {
        let key = props.key_at(i).unwrap_or("?");
        list.push_str(key)?;
        list.push('>')?;
        list.push_str(props.get(key).unwrap_or("?"))?;
        list.push('|')?;
    }
    Ok(list)
}

fn told(alloc: Global, text: &[u8]) -> Result<String, AllocError> {
    match read_props(alloc, text) {
        Ok(props) => listed(alloc, &props),
        Err(PropsFault::NotUtf8) => String::from_str(alloc, "not utf-8"),
        Err(PropsFault::BadEscape { line }) => format!(in alloc; "bad escape {line}"),
        Err(PropsFault::Memory) => Err(AllocError),
    }
}

/// A text, and its keys with their values.
const TEXTS: [(&str, &str); 10] = [
    ("", ""),
    ("a=1\rb = 2\r\nc:3\n\rd 4 ", "a>1|b>2|c>3|d>4 |"),
    (
        " # c\\\na\\=b\\ c=d=e\n!x\n\u{c}=x\ny\n",
        "a=b c>d=e|>x|y>|",
    ),
    ("a=b\\\n  #c\\\\\nd=e\\\\\\\n f\\", "a>b#c\\|d>e\\f|"),
    ("a=1\nb=2\n\\u0061=3\n", "a>3|b>2|"),
    ("x=\\t\\q\\u00E9\\uD83D\\ude00", "x>\tq\u{e9}\u{1f600}|"),
    ("x=\\u00\\\n  41\n\\\n\n", "x>A|"),
    ("source.format=lines\nx=\\u00zz\n", "bad escape 2"),
    ("# c\r\n\ra=\\\n b\\ud83d\n", "bad escape 3"),
    ("\\ud83d=\\ude00", "bad escape 1"),
];

#[test]
fn texts_are_read(rt: HostRuntime) -> Result<(), Fail> {
    for (text, wanted) in TEXTS {
        same_text(&rt, told(rt.alloc(), text.as_bytes())?.as_str(), wanted);
    }
    same_text(
        &rt,
        told(rt.alloc(), b"# \xff\na=\\u1")?.as_str(),
        "not utf-8",
    );
    Ok(())
}
