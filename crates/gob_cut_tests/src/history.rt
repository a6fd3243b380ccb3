//! What is cut behind much that was taken.

use crate::helpers::{answer, grow, limits, same_text, source, take};
use gob_marks::MarkTable;
use gob_plan::NoMemory;
use std::alloc::Global;
use std::process::Abort;
use std::test::Fail;

/// So many ranges that a state may have.
const MOST: usize = 200_000;

/// One partition, of which so many bytes were taken, each as a range.
fn byte_by_byte(alloc: Global, bytes: usize) -> Result<MarkTable, NoMemory> {
    let mut table = MarkTable::new(alloc);
    for at in 0..bytes {
        take(&mut table, "a", at as u64 + 1, true)?;
    }
    Ok(table)
}

fn same_count(rt: &impl Abort, table: &MarkTable, wanted: usize) {
    assert_eq!(rt; table.range_count(), wanted as u64);
}

#[test]
fn behind_many_ranges_the_new_line_is_a_unit(rt: HostRuntime) -> Result<(), Fail> {
    let lines = vec![in rt.alloc(); b'\n'; MOST + 1]?;
    let mut source = source(rt.alloc(), &[], &[], &[])?;
    grow(&mut source, "a", lines.as_slice())?;
    grow(&mut source, "a", b"x")?;
    let marks = byte_by_byte(rt.alloc(), MOST)?;
    same_count(&rt, &marks, MOST);
    let limits = limits(rt.alloc(), "", 1, 100)?;
    let found = answer(rt.alloc(), &mut source, &marks, &limits)?;
    same_text(&rt, found.as_str(), "a 200000-200001 new;");
    Ok(())
}
