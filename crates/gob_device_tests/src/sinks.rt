//! A sink in memory.

use crate::compare::{same_bytes, same_counts, same_truth};
use gob_io::{MemSink, Sink};
use std::test::Fail;

/// A write that fails leaves nothing, and those before and after it are kept.
#[test]
fn writes_are_kept_in_order(rt: HostRuntime) -> Result<(), Fail> {
    let fails = Vec::from_slice(rt.alloc(), &[1])?;
    let mut sink = MemSink::new(rt.alloc(), fails);
    same_bytes(&rt, sink.bytes(), "");
    same_truth(&rt, sink.write(b"one\n").is_ok(), true);
    same_truth(&rt, sink.write(b"two\n").is_ok(), false);
    same_counts(&rt, (sink.fault_count(), sink.short_count()), (1, 0));
    same_truth(&rt, sink.write(b"three\n").is_ok(), true);
    same_counts(&rt, (sink.fault_count(), sink.short_count()), (1, 0));
    same_bytes(&rt, sink.bytes(), "one\nthree\n");
    Ok(())
}
