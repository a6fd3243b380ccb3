//! Assertions, each in one place.

use gob_io::Pulled;
use std::process::Abort;

pub(crate) fn same_text(rt: &impl Abort, found: &str, wanted: &str) {
    assert_eq!(rt; found, wanted);
}

pub(crate) fn same_number(rt: &impl Abort, found: u64, wanted: u64) {
    assert_eq!(rt; found, wanted);
}

pub(crate) fn same_truth(rt: &impl Abort, found: bool, wanted: bool) {
    assert_eq!(rt; found, wanted);
}

pub(crate) fn same_pull(rt: &impl Abort, found: &Pulled, part: &str, at: u64, len: u64) {
    same_text(rt, found.part.as_str(), part);
    same_number(rt, found.at, at);
    same_number(rt, found.len, len);
}
