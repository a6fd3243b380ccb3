//! Assertions, each in one place.

use std::process::Abort;

pub(crate) fn same_bytes(rt: &impl Abort, found: &[u8], wanted: &[u8]) {
    assert_eq!(rt; found, wanted);
}

pub(crate) fn same_number(rt: &impl Abort, found: u8, wanted: u8) {
    assert_eq!(rt; found, wanted);
}
