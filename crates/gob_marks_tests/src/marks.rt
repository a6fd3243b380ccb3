//! The marks of one partition.

use gob_marks::{Done, Marks, Range};
use gob_plan::NoMemory;
use std::alloc::Global;
use std::process::Abort;
use std::test::Fail;

fn same_number(rt: &impl Abort, found: u64, wanted: u64) {
    assert_eq!(rt; found, wanted);
}

fn same_answer(rt: &impl Abort, found: bool, wanted: bool) {
    assert_eq!(rt; found, wanted);
}

fn same_done(rt: &impl Abort, marks: &Marks, wanted: &[Done]) {
    assert!(rt; marks.done() == wanted);
}

fn same_open(rt: &impl Abort, marks: &Marks, wanted: &[Range]) {
    assert!(rt; marks.open_ranges() == wanted);
}

const fn range(lo: u64, hi: u64) -> Range {
    Range { lo, hi }
}

const fn done(lo: u64, hi: u64, pipeline: u64) -> Done {
    Done {
        range: Range { lo, hi },
        pipeline,
    }
}

/// Two done ranges of one pipeline between two that are open.
fn mixed(alloc: Global) -> Result<Marks, NoMemory> {
    let mut marks = Marks::new(alloc);
    marks.add_open(4)?;
    marks.add_done(9, 1)?;
    marks.add_done(12, 1)?;
    marks.add_open(20)?;
    Ok(marks)
}

#[test]
fn nothing_is_taken_at_first(rt: HostRuntime) -> Result<(), Fail> {
    let marks = Marks::new(rt.alloc());
    same_number(&rt, marks.next(), 0);
    same_number(&rt, marks.watermark(), 0);
    same_answer(&rt, marks.covers(0), false);
    same_done(&rt, &marks, &[]);
    same_open(&rt, &marks, &[]);
    Ok(())
}

#[test]
fn ranges_stand_by_offset(rt: HostRuntime) -> Result<(), Fail> {
    let marks = mixed(rt.alloc())?;
    same_number(&rt, marks.next(), 20);
    same_number(&rt, marks.watermark(), 0);
    same_done(&rt, &marks, &[done(4, 9, 1), done(9, 12, 1)]);
    same_open(&rt, &marks, &[range(0, 4), range(12, 20)]);
    Ok(())
}

/// Offsets at both ends of each range, and whether a done one has them.
const COVERED: [(u64, bool); 8] = [
    (0, false),
    (3, false),
    (4, true),
    (8, true),
    (9, true),
    (11, true),
    (12, false),
    (20, false),
];

#[test]
fn offsets_are_covered_by_done_ranges(rt: HostRuntime) -> Result<(), Fail> {
    let marks = mixed(rt.alloc())?;
    for (at, wanted) in COVERED {
        same_answer(&rt, marks.covers(at), wanted);
    }
    Ok(())
}

#[test]
fn an_open_range_is_committed_once(rt: HostRuntime) -> Result<(), Fail> {
    let mut marks = mixed(rt.alloc())?;
    same_answer(&rt, marks.commit(range(0, 4), 2)?, true);
    same_answer(&rt, marks.commit(range(0, 4), 2)?, false);
    same_number(&rt, marks.watermark(), 12);
    same_done(&rt, &marks, &[done(0, 4, 2), done(4, 9, 1), done(9, 12, 1)]);
    same_open(&rt, &marks, &[range(12, 20)]);
    same_answer(&rt, marks.commit(range(12, 20), 1)?, true);
    same_number(&rt, marks.watermark(), 20);
    Ok(())
}

/// Ranges that aren't open: done ones, parts, and such as aren't there.
const NOT_OPEN: [Range; 6] = [
    Range { lo: 4, hi: 9 },
    Range { lo: 0, hi: 3 },
    Range { lo: 1, hi: 4 },
    Range { lo: 0, hi: 9 },
    Range { lo: 20, hi: 24 },
    Range { lo: 12, hi: 12 },
];

#[test]
fn no_other_range_is_committed(rt: HostRuntime) -> Result<(), Fail> {
    let mut marks = mixed(rt.alloc())?;
    for range in NOT_OPEN {
        same_answer(&rt, marks.commit(range, 1)?, false);
    }
    same_open(&rt, &marks, &[range(0, 4), range(12, 20)]);
    Ok(())
}

#[test]
fn done_ranges_of_one_pipeline_become_one(rt: HostRuntime) -> Result<(), Fail> {
    let mut marks = mixed(rt.alloc())?;
    same_answer(&rt, marks.commit(range(0, 4), 2)?, true);
    same_answer(&rt, marks.join(range(4, 12)), true);
    same_done(&rt, &marks, &[done(0, 4, 2), done(4, 12, 1)]);
    same_answer(&rt, marks.covers(9), true);
    same_number(&rt, marks.next(), 20);
    Ok(())
}

/// Ranges that no two done ones of one pipeline fill, where `[0, 4)` is of another.
const NOT_FILLED: [Range; 7] = [
    Range { lo: 0, hi: 9 },
    Range { lo: 0, hi: 12 },
    Range { lo: 4, hi: 9 },
    Range { lo: 4, hi: 11 },
    Range { lo: 5, hi: 12 },
    Range { lo: 4, hi: 20 },
    Range { lo: 12, hi: 20 },
];

#[test]
fn no_other_ranges_become_one(rt: HostRuntime) -> Result<(), Fail> {
    let mut marks = mixed(rt.alloc())?;
    same_answer(&rt, marks.commit(range(0, 4), 2)?, true);
    for range in NOT_FILLED {
        same_answer(&rt, marks.join(range), false);
    }
    same_done(&rt, &marks, &[done(0, 4, 2), done(4, 9, 1), done(9, 12, 1)]);
    Ok(())
}

#[test]
fn a_copy_is_equal_and_apart(rt: HostRuntime) -> Result<(), Fail> {
    let mut marks = mixed(rt.alloc())?;
    let copy = marks.copy()?;
    same_answer(&rt, marks.commit(range(0, 4), 2)?, true);
    same_number(&rt, copy.next(), 20);
    same_done(&rt, &copy, &[done(4, 9, 1), done(9, 12, 1)]);
    same_open(&rt, &copy, &[range(0, 4), range(12, 20)]);
    Ok(())
}
