//! Values by name, reads that fill a buffer, and planned failures, of gob_memory.

ghost use Rattle.gob_bytes.specs.Tables.{IsInByteOrder, names_of};

use crate::compare::{same_bytes, same_count, same_counts, same_number, same_truth};
use gob_memory::{Counts, Planned, fill_from, find, get, set, take};
use gob_plan::Text;
use std::process::Abort;
use std::test::Fail;

// What stands at a name, and where.
fn check_at(rt: &impl Abort, table: &[(Text, u64)], name: &str, wanted: Option<(usize, u64)>)
    requires { IsInByteOrder (names_of table.now) }
{
    same_number(
        rt,
        get(table, name).copied(),
        wanted.map(|(_, value)| value),
    );
    same_count(rt, find(table, name).ok(), wanted.map(|(place, _)| place));
}

/// Names stand in byte order, a name that is set again has the new value, and one that is taken is gone.
#[test]
fn values_by_name(rt: HostRuntime) -> Result<(), Fail> {
    let alloc = rt.alloc();
    let mut table = Vec::new(alloc);
    set(alloc, &mut table, "b", 1)?;
    set(alloc, &mut table, "B", 2)?;
    set(alloc, &mut table, "\u{e9}", 3)?;
    set(alloc, &mut table, "b", 4)?;
    check_at(&rt, table.as_slice(), "B", Some((0, 2)));
    check_at(&rt, table.as_slice(), "b", Some((1, 4)));
    check_at(&rt, table.as_slice(), "\u{e9}", Some((2, 3)));
    check_at(&rt, table.as_slice(), "a", None);
    same_number(&rt, take(&mut table, "a"), None);
    same_number(&rt, take(&mut table, "B"), Some(2));
    check_at(&rt, table.as_slice(), "B", None);
    check_at(&rt, table.as_slice(), "b", Some((0, 4)));
    Ok(())
}

/// An offset, and what a buffer of four bytes has of `012345` from there on.
const FILLED: [(u64, &str); 5] = [
    (0, "0123"),
    (2, "2345"),
    (3, "345"),
    (6, ""),
    (18446744073709551615, ""),
];

#[test]
fn buffers_are_filled_from_an_offset(rt: HostRuntime) {
    for (at, wanted) in FILLED {
        let mut buffer = [b'-'; 4];
        let count = fill_from(b"012345", at, &mut buffer);
        same_bytes(&rt, &buffer[..count], wanted);
    }
}

/// Whether each of four calls is to fail, where those numbered 1 and 3 are.
const DUE: [bool; 4] = [false, true, false, true];

#[test]
fn calls_fail_by_their_numbers(rt: HostRuntime) -> Result<(), Fail> {
    let mut planned = Planned::new(Vec::from_slice(rt.alloc(), &[3, 1])?);
    for due in DUE {
        same_truth(&rt, planned.fails_next(), due);
    }
    let mut counts = Counts::new();
    counts.fail();
    counts.fall_short();
    same_counts(&rt, (counts.faults, counts.shorts), (2, 1));
    Ok(())
}
