//! What is cut from a source, by what was taken and by the limits.

use crate::helpers::{Given, Taken, answer_through, limits, marks, same_text, source};
use std::alloc::Global;
use std::process::Abort;
use std::test::Fail;

/// What a source holds, the limit of bytes, and the units.
type OfLines = (&'static [Given], u64, &'static str);

/// What a source holds, what was taken of it, and the units.
type OfTaken = (&'static [Given], &'static [Taken], &'static str);

/// What a source holds, the prefix of the names that are taken, and the units.
type OfNames = (&'static [Given], &'static str, &'static str);

/// A cut ends at the last line end within the limit, else at the first one behind it.
const LINES: [OfLines; 13] = [
    (&[], 100, ""),
    (&[("a", "")], 100, ""),
    (&[("a", "abc")], 100, ""),
    (&[("a", "1\n2\n3")], 100, "a 0-4 new;"),
    (
        &[("a", "1\n22\n333\n")],
        4,
        "a 0-2 new;a 2-5 new;a 5-9 new;",
    ),
    (&[("a", "1\n22\n333\n")], 5, "a 0-5 new;a 5-9 new;"),
    (&[("a", "1\n22\n333\n")], 9, "a 0-9 new;"),
    (&[("a", "1234567\n8\n")], 3, "a 0-8 new;a 8-10 new;"),
    (&[("a", "\n\n")], 1, "a 0-1 new;a 1-2 new;"),
    (&[("a", "1\n2\n")], u64::MAX, "a 0-4 new;"),
    // A half line waits, a long line is whole.
    (&[("a.log", "x\nyy")], 100, "a.log 0-2 new;"),
    (
        &[("a.log", "ab\nabcdefgh\nz\n")],
        4,
        "a.log 0-3 new;a.log 3-12 new;a.log 12-14 new;",
    ),
    (
        &[("a.log", "a\nK\nb\n")],
        2,
        "a.log 0-2 new;a.log 2-4 new;a.log 4-6 new;",
    ),
];

const THREE: &[Given] = &[("a", "1\n2\n3\n"), ("b", "1\n2\n"), ("c", "1\n")];

/// The first cut of each partition, then the second of each, and so on: the most new units, and those that come.
const ROUNDS: [(u32, &str); 6] = [
    (0, ""),
    (2, "a 0-2 new;b 0-2 new;"),
    (3, "a 0-2 new;b 0-2 new;c 0-2 new;"),
    (4, "a 0-2 new;b 0-2 new;c 0-2 new;a 2-4 new;"),
    (5, "a 0-2 new;b 0-2 new;c 0-2 new;a 2-4 new;b 2-4 new;"),
    (
        7,
        "a 0-2 new;b 0-2 new;c 0-2 new;a 2-4 new;b 2-4 new;a 4-6 new;",
    ),
];

const TWO: &[Given] = &[("a", "1\n2\n3\n"), ("b", "1\n2\n3\n")];

/// A run takes up to three new units, and the next one goes on: what was taken before, and the units.
const RUNS: [(&[Taken], &str); 4] = [
    (&[], "a 0-2 new;b 0-2 new;a 2-4 new;"),
    (
        &[("a", 4, true), ("b", 2, true)],
        "a 4-6 new;b 2-4 new;b 4-6 new;",
    ),
    // The middle unit failed. What is owed doesn't count among them.
    (
        &[("a", 4, true), ("b", 2, false)],
        "b 0-2 owed;a 4-6 new;b 2-4 new;b 4-6 new;",
    ),
    (&[("a", 6, true), ("b", 6, true)], ""),
];

/// What is open comes first, however many new units there may be; new ones begin behind all that was taken.
const TAKEN: [OfTaken; 9] = [
    (&[("a", "1\n2\n3\n")], &[("a", 4, true)], "a 4-6 new;"),
    (&[("a", "1\n2\n3\n")], &[("a", 6, true)], ""),
    (&[("a", "1\n2\n3")], &[("a", 4, true)], ""),
    (
        &[("a", "1\n2\n3\n4\n")],
        &[("a", 2, false), ("a", 4, true), ("a", 6, false)],
        "a 0-2 owed;a 4-6 owed;a 6-8 new;",
    ),
    (
        &[("b", "1\n2\n")],
        &[("b", 2, false), ("a", 3, false), ("a", 5, false)],
        "a 0-3 owed, not listed;a 3-5 owed, not listed;b 0-2 owed;b 2-4 new;",
    ),
    (&[], &[("a", 4, true)], ""),
    // The half line has become whole.
    (
        &[("a.log", "x\nyy\n")],
        &[("a.log", 2, true)],
        "a.log 2-5 new;",
    ),
    // The line between two others failed, and then its partition is gone.
    (
        &[("a.log", "a\nK\nb\n")],
        &[("a.log", 2, true), ("a.log", 4, false), ("a.log", 6, true)],
        "a.log 2-4 owed;",
    ),
    (
        &[],
        &[("a.log", 2, true), ("a.log", 4, false), ("a.log", 6, true)],
        "a.log 2-4 owed, not listed;",
    ),
];

/// A partition that is shorter than what was taken of it is named, the first of them in byte order of names.
const SHRUNK: [OfTaken; 3] = [
    (
        &[("a", "1\n"), ("b", "1\n2"), ("c", "")],
        &[
            ("c", 1, true),
            ("b", 2, false),
            ("b", 5, true),
            ("a", 2, true),
        ],
        "b had 5 and has 3",
    ),
    (&[("a", "1\n")], &[("a", 3, false)], "a had 3 and has 2"),
    (
        &[("a.log", "x\n")],
        &[("a.log", 4, true)],
        "a.log had 4 and has 2",
    ),
];

/// A name's length counts as it is escaped, and up to 180 bytes are taken.
const NAMES: [OfNames; 5] = [
    (
        &[("web", "1\n"), ("web/a", "1\n"), ("xweb/a", "1\n")],
        "web/",
        "web/a 0-2 new;",
    ),
    (
        &[("b", "1\n"), ("a/b", "1\n")],
        "",
        "a/b 0-2 new;b 0-2 new;",
    ),
    (
        &[("éééééééééééééééééééééééééééééé", "1\n")],
        "",
        "éééééééééééééééééééééééééééééé 0-2 new;",
    ),
    (
        &[("ééééééééééééééééééééééééééééééa", "1\n"), ("b", "1\n")],
        "",
        "b 0-2 new;long ééééééééééééééééééééééééééééééa;",
    ),
    (
        &[("ééééééééééééééééééééééééééééééa", "1\n"), ("b", "1\n")],
        "b",
        "b 0-2 new;",
    ),
];

/// A partition whose name is too long, with a range that is open.
const LONG: OfTaken = (
    &[("ééééééééééééééééééééééééééééééa", "1\n2\n")],
    &[("ééééééééééééééééééééééééééééééa", 2, false)],
    "ééééééééééééééééééééééééééééééa 0-2 owed, not listed;long ééééééééééééééééééééééééééééééa;",
);

/// What is cut for a job that takes names with this prefix, at most so many new units of at most so many bytes.
#[derive(Clone, Copy)]
struct Run {
    prefix: &'static str,
    max_bytes: u64,
    most: u32,
}

const WIDE: Run = Run {
    prefix: "",
    max_bytes: 100,
    most: 100,
};

/// So many bytes are looked at in one call: whatever they are, the units are the same.
const WINDOWS: [usize; 4] = [1, 2, 3, 65536];

fn check(
    rt: &impl Abort,
    alloc: Global,
    parts: &[Given],
    taken: &[Taken],
    run: &Run,
    wanted: &str,
) -> Result<(), Fail> {
    let mut source = source(alloc, parts, &[], &[])?;
    let marks = marks(alloc, taken)?;
    let limits = limits(alloc, run.prefix, run.max_bytes, run.most)?;
    for window in WINDOWS {
        let found = answer_through(alloc, &mut source, &marks, &limits, window)?;
        same_text(rt, found.as_str(), wanted);
    }
    Ok(())
}

#[test]
fn a_cut_ends_at_a_line_end(rt: HostRuntime) -> Result<(), Fail> {
    for (parts, max_bytes, wanted) in &LINES {
        let run = Run {
            prefix: "",
            max_bytes: *max_bytes,
            most: 100,
        };
        check(&rt, rt.alloc(), parts, &[], &run, wanted)?;
    }
    Ok(())
}

#[test]
fn new_units_are_taken_in_rounds(rt: HostRuntime) -> Result<(), Fail> {
    for (most, wanted) in &ROUNDS {
        let run = Run {
            prefix: "",
            max_bytes: 2,
            most: *most,
        };
        check(&rt, rt.alloc(), THREE, &[], &run, wanted)?;
    }
    Ok(())
}

#[test]
fn the_next_run_goes_on_in_rounds(rt: HostRuntime) -> Result<(), Fail> {
    let run = Run {
        prefix: "",
        max_bytes: 2,
        most: 3,
    };
    for (taken, wanted) in &RUNS {
        check(&rt, rt.alloc(), TWO, taken, &run, wanted)?;
    }
    Ok(())
}

fn check_taken(rt: &impl Abort, alloc: Global, cases: &[OfTaken]) -> Result<(), Fail> {
    for (parts, taken, wanted) in cases {
        check(rt, alloc, parts, taken, &WIDE, wanted)?;
    }
    Ok(())
}

#[test]
fn what_is_open_comes_first(rt: HostRuntime) -> Result<(), Fail> {
    check_taken(&rt, rt.alloc(), &TAKEN)?;
    let none_new = Run {
        prefix: "b",
        max_bytes: 100,
        most: 0,
    };
    let taken = &[("a", 2, false), ("b", 2, false)];
    let wanted = "a 0-2 owed, not listed;b 0-2 owed;";
    check(&rt, rt.alloc(), THREE, taken, &none_new, wanted)?;
    Ok(())
}

#[test]
fn the_first_that_shrank_is_named(rt: HostRuntime) -> Result<(), Fail> {
    check_taken(&rt, rt.alloc(), &SHRUNK)?;
    // The prefix doesn't matter.
    let others = Run {
        prefix: "b",
        max_bytes: 100,
        most: 100,
    };
    let wanted = "a had 9 and has 6";
    check(&rt, rt.alloc(), THREE, &[("a", 9, true)], &others, wanted)?;
    Ok(())
}

#[test]
fn names_are_chosen_by_prefix_and_length(rt: HostRuntime) -> Result<(), Fail> {
    for (parts, prefix, wanted) in &NAMES {
        let run = Run {
            prefix,
            max_bytes: 100,
            most: 100,
        };
        check(&rt, rt.alloc(), parts, &[], &run, wanted)?;
    }
    check_taken(&rt, rt.alloc(), &[LONG])?;
    Ok(())
}
