//! Assertions, each in one place.

use std::process::Abort;

pub(crate) fn same_text(rt: &impl Abort, found: &str, wanted: &str) {
    assert_eq!(rt; found, wanted);
}

pub(crate) fn same_bytes(rt: &impl Abort, found: &[u8], wanted: &[u8]) {
    assert_eq!(rt; found, wanted);
}

pub(crate) fn same_number(rt: &impl Abort, found: Option<u64>, wanted: Option<u64>) {
    assert_eq!(rt; found, wanted);
}

pub(crate) fn same_place(rt: &impl Abort, found: Option<usize>, wanted: Option<usize>) {
    assert_eq!(rt; found, wanted);
}

pub(crate) fn same_integer(rt: &impl Abort, found: Option<i64>, wanted: Option<i64>) {
    assert_eq!(rt; found, wanted);
}

pub(crate) fn same_truth(rt: &impl Abort, found: bool, wanted: bool) {
    assert_eq!(rt; found, wanted);
}
