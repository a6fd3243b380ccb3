//! Texts of states: which are read, and what is written over them.

use gob_state::{push_numbered, read_state, write_state};
use std::alloc::{AllocError, Global};
use std::process::Abort;
use std::test::Fail;

/// A state of the first version, and the same in the second.
const FIRST: &[u8] =
    b"gobblin-state 1\nrun 3\npipeline 2\nwriter.format.0=json\nx=%0A\ntotals 5 0 5 1\nbranch 0 2 1 0\n\
        branch 1 2 0 0\npartition a%2Fb.log 9\ndone 0 4\nopen 4 6\ndone 6 9\npartition b 1\nopen 0 1\nend\n";

const SECOND: &[u8] =
    b"gobblin-state 2\nrun 3\npipelines 1\npipeline 2\nwriter.format.0=json\nx=%0A\ntotals 5 0 5 1\nbranch 0 2 1 0\n\
        branch 1 2 0 0\npartition a%2Fb.log 9\ndone 0 4 0\nopen 4 6\ndone 6 9 0\npartition b 1\nopen 0 1\nend\n";

/// A state without a pipeline or a partition.
const EMPTY: &[u8] = b"gobblin-state 2\nrun 0\npipelines 0\ntotals 0 0 0 0\nbranch 0 0 0 0\nend\n";

/// Texts that are no state's.
const MALFORMED: [&[u8]; 22] = [
    b"",
    b"gobblin-state 3\nrun 0\npipelines 0\ntotals 0 0 0 0\nbranch 0 0 0 0\nend\n",
    b"gobblin-state 2\nrun 0\npipelines 0\ntotals 0 0 0 0\nbranch 0 0 0 0\nend\n\n",
    b"gobblin-state 2\nrun 00\npipelines 0\ntotals 0 0 0 0\nbranch 0 0 0 0\nend\n",
    b"gobblin-state 2\nrun  0\npipelines 0\ntotals 0 0 0 0\nbranch 0 0 0 0\nend\n",
    b"gobblin-state 2\nrun 18446744073709551616\npipelines 0\ntotals 0 0 0 0\nbranch 0 0 0 0\nend\n",
    b"gobblin-state 2\nrun 0\npipelines 1\ntotals 0 0 0 0\nbranch 0 0 0 0\nend\n",
    b"gobblin-state 2\nrun 0\npipelines 1\npipeline 18446744073709551615\ntotals 0 0 0 0\nbranch 0 0 0 0\nend\n",
    b"gobblin-state 2\nrun 0\npipelines 2\npipeline 0\npipeline 0\ntotals 0 0 0 0\nbranch 0 0 0 0\nend\n",
    b"gobblin-state 2\nrun 0\npipelines 1\npipeline 1\nx=%0a\ntotals 0 0 0 0\nbranch 0 0 0 0\nend\n",
    b"gobblin-state 2\nrun 0\npipelines 1\npipeline 1\n=1\ntotals 0 0 0 0\nbranch 0 0 0 0\nend\n",
    b"gobblin-state 2\nrun 0\npipelines 0\ntotals 0 0 0 0\nend\n",
    b"gobblin-state 2\nrun 0\npipelines 0\ntotals 0 0 0 0\nbranch 1 0 0 0\nend\n",
    b"gobblin-state 2\nrun 0\npipelines 0\ntotals 0 0 0 0\nbranch 0 0 0 0\npartition a 1\ndone 0 1 0\nend\n",
    b"gobblin-state 2\nrun 0\npipelines 0\ntotals 0 0 0 0\nbranch 0 0 0 0\npartition a 0\nend\n",
    b"gobblin-state 2\nrun 0\npipelines 0\ntotals 0 0 0 0\nbranch 0 0 0 0\npartition a 2\nopen 0 1\nend\n",
    b"gobblin-state 2\nrun 0\npipelines 0\ntotals 0 0 0 0\nbranch 0 0 0 0\npartition a 2\nopen 1 2\nend\n",
    b"gobblin-state 2\nrun 0\npipelines 0\ntotals 0 0 0 0\nbranch 0 0 0 0\npartition a 1\nopen 0 1\nopen 1 1\nend\n",
    b"gobblin-state 2\nrun 0\npipelines 0\ntotals 0 0 0 0\nbranch 0 0 0 0\npartition b 1\nopen 0 1\npartition a 1\n\
        open 0 1\nend\n",
    b"gobblin-state 2\nrun 0\npipelines 0\ntotals 0 0 0 0\nbranch 0 0 0 0\npartition a 1\nopen 0 1\npartition a 1\n\
        open 0 1\nend\n",
    b"gobblin-state 2\nrun 0\npipelines 0\ntotals 0 0 0 0\nbranch 0 0 0 0\npartition %61 1\nopen 0 1\nend\n",
    b"gobblin-state 2\nrun 0\npipelines 0\ntotals 0 0 0 0\nbranch 0 0 0 0\ndoneend\n",
];

fn same_bytes(rt: &impl Abort, found: &[u8], wanted: &[u8]) {
    assert_eq!(rt; found, wanted);
}

fn is_true(rt: &impl Abort, found: bool) {
    assert!(rt; found);
}

/// What is written of the state that a text tells.
fn read_and_written(
    rt: &impl Abort,
    alloc: Global,
    text: &[u8],
    wanted: &[u8],
) -> Result<(), Fail> {
    match read_state(alloc, text)? {
        Some(state) => {
            let written = write_state(&state)?;
            same_bytes(rt, written.as_slice(), wanted);
        }
        None => is_true(rt, false),
    }
    Ok(())
}

#[test]
fn both_versions_are_read_and_the_second_is_written(rt: HostRuntime) -> Result<(), Fail> {
    read_and_written(&rt, rt.alloc(), FIRST, SECOND)?;
    read_and_written(&rt, rt.alloc(), SECOND, SECOND)?;
    read_and_written(&rt, rt.alloc(), EMPTY, EMPTY)?;
    Ok(())
}

/// A state of so many open ranges, each of one byte.
fn many_ranges(alloc: Global, count: u64) -> Result<Vec<u8>, AllocError> {
    let mut text = Vec::new(alloc);
    text.extend_from_slice(
        b"gobblin-state 2\nrun 0\npipelines 0\ntotals 0 0 0 0\nbranch 0 0 0 0\n",
    )?;
    push_numbered(&mut text, b"partition a", &[count])?;
    for lo in 0..count {
        push_numbered(&mut text, b"open", &[lo, lo + 1])?;
    }
    text.extend_from_slice(b"end\n")?;
    Ok(text)
}

#[test]
fn many_ranges_are_read(rt: HostRuntime) -> Result<(), Fail> {
    let text = many_ranges(rt.alloc(), 200_000)?;
    read_and_written(&rt, rt.alloc(), &text, &text)?;
    Ok(())
}

#[test]
fn other_texts_are_no_states(rt: HostRuntime) -> Result<(), Fail> {
    for text in MALFORMED {
        is_true(&rt, read_state(rt.alloc(), text)?.is_none());
    }
    Ok(())
}

/// No front of a text but the whole is a state's.
fn fronts_are_no_states(rt: &impl Abort, alloc: Global, text: &[u8]) -> Result<(), Fail> {
    for len in 0..text.len() {
        let (front, _) = text.split_at(len);
        is_true(rt, read_state(alloc, front)?.is_none());
    }
    Ok(())
}

#[test]
fn a_text_that_is_cut_is_no_state(rt: HostRuntime) -> Result<(), Fail> {
    fronts_are_no_states(&rt, rt.alloc(), FIRST)?;
    fronts_are_no_states(&rt, rt.alloc(), SECOND)?;
    Ok(())
}

/// A text with one byte changed is no state's, or is written as it was read.
fn changed_reads_back(
    rt: &impl Abort,
    alloc: Global,
    text: &[u8],
    at: usize,
    byte: u8,
) -> Result<bool, Fail> {
    let mut changed = Vec::from_slice(alloc, text)?;
    if at < changed.len() {
        changed[at] = byte;
    }
    match read_state(alloc, &changed)? {
        Some(state) => {
            let written = write_state(&state)?;
            same_bytes(rt, written.as_slice(), &changed);
            Ok(true)
        }
        None => Ok(false),
    }
}

#[test]
fn a_changed_byte_is_seen(rt: HostRuntime) -> Result<(), Fail> {
    let mut read = 0u64;
    for at in 0..SECOND.len() {
        for byte in [b' ', b'\n', b'0', b'1', b'%', b'a', b'e', 255] {
            if changed_reads_back(&rt, rt.alloc(), SECOND, at, byte)? {
                read = read.saturating_add(1);
            }
        }
    }
    is_true(&rt, read > 0);
    Ok(())
}
