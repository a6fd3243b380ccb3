//! Assertions, each in one place.

use std::process::Abort;

pub(crate) fn same_text(rt: &impl Abort, found: &str, wanted: &str) {
    assert_eq!(rt; found, wanted);
}

pub(crate) fn same_bytes(rt: &impl Abort, found: &[u8], wanted: &str) {
    assert_eq!(rt; found, wanted.as_bytes());
}

pub(crate) fn same_number(rt: &impl Abort, found: Option<u64>, wanted: Option<u64>) {
    assert_eq!(rt; found, wanted);
}

pub(crate) fn same_count(rt: &impl Abort, found: Option<usize>, wanted: Option<usize>) {
    assert_eq!(rt; found, wanted);
}

pub(crate) fn same_counts(rt: &impl Abort, found: (u64, u64), wanted: (u64, u64)) {
    assert_eq!(rt; found, wanted);
}

pub(crate) fn same_truth(rt: &impl Abort, found: bool, wanted: bool) {
    assert_eq!(rt; found, wanted);
}
