//! A line that is longer than its pieces.

use crate::cuts::{Unit, long_is_so};
use std::alloc::{AllocError, Global};
use std::test::Fail;

/// A long line behind this front, and behind that this back.
fn around_a_line(alloc: Global, front: &str, back: &str) -> Result<Vec<u8>, AllocError> {
    let mut bytes = Vec::from_slice(alloc, front.as_bytes())?;
    for _ in 0..1_048_576 {
        bytes.push(b'x')?;
    }
    bytes.extend_from_slice(back.as_bytes())?;
    Ok(bytes)
}

fn long_unit(alloc: Global) -> Result<Unit, AllocError> {
    let bytes = around_a_line(alloc, "a\n", "\r\nb\n")?;
    let sent = around_a_line(alloc, "out0:a\n", "\nb\n")?;
    Ok(Unit {
        lo: 0,
        bytes,
        sent,
        end: "3 0 3 0, 3 0 0",
    })
}

#[test]
fn a_line_over_many_pieces_is_one_line(rt: HostRuntime) -> Result<(), Fail> {
    let unit = long_unit(rt.alloc())?;
    let job = "source.format=lines\nwriter.format=lines\n";
    long_is_so(&rt, rt.alloc(), job, &unit)
}
