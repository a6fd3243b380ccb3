//! Assertions, each in one place.

use std::process::Abort;

pub(crate) fn same_text(rt: &impl Abort, found: &str, wanted: &str) {
    assert_eq!(rt; found, wanted);
}

pub(crate) fn same_number(rt: &impl Abort, found: u64, wanted: u64) {
    assert_eq!(rt; found, wanted);
}

pub(crate) fn same_truth(rt: &impl Abort, found: bool, wanted: bool) {
    assert_eq!(rt; found, wanted);
}
