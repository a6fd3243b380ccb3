//! The marks of all partitions.

ghost use Rattle.std.specs.Prelude.{◌≡◌, ◌<◌};
ghost use Rattle.gob_marks.specs.Changed.{marks_in};

use gob_marks::{MarkTable, Marks, Range};
use gob_plan::{NoMemory, Text};
use std::alloc::Global;
use std::process::Abort;
use std::test::Fail;

fn same_number(rt: &impl Abort, found: u64, wanted: u64) {
    assert_eq!(rt; found, wanted);
}

fn same_answer(rt: &impl Abort, found: bool, wanted: bool) {
    assert_eq!(rt; found, wanted);
}

/// The partition at a place has this name and this end.
fn same_part(rt: &impl Abort, table: &MarkTable, place: usize, name: &str, next: u64) {
    match table.at(place) {
        Some((part, marks)) => {
            assert!(rt; part == name);
            same_number(rt, marks.next(), next);
        }
        None => assert!(rt; false),
    }
}

/// The partition of this name has this watermark.
fn same_mark(rt: &impl Abort, table: &MarkTable, part: &str, watermark: u64) {
    match table.get(part) {
        Some(marks) => same_number(rt, marks.watermark(), watermark),
        None => assert!(rt; false),
    }
}

fn one_open(alloc: Global, hi: u64) -> Result<Marks, NoMemory>
    requires { 0 < hi }
{
    let mut marks = Marks::new(alloc);
    marks.add_open(hi)?;
    Ok(marks)
}

/// Partitions put in out of order.
fn three(alloc: Global) -> Result<MarkTable, NoMemory> {
    let mut table = MarkTable::new(alloc);
    table.put(Text::from_str(alloc, "b")?, one_open(alloc, 2)?)?;
    table.put(Text::from_str(alloc, "a/x")?, one_open(alloc, 1)?)?;
    table.put(Text::from_str(alloc, "c")?, one_open(alloc, 3)?)?;
    Ok(table)
}

#[test]
fn partitions_stand_in_byte_order(rt: HostRuntime) -> Result<(), Fail> {
    let table = three(rt.alloc())?;
    same_number(&rt, table.len() as u64, 3);
    same_part(&rt, &table, 0, "a/x", 1);
    same_part(&rt, &table, 1, "b", 2);
    same_part(&rt, &table, 2, "c", 3);
    same_answer(&rt, table.at(3).is_none(), true);
    same_answer(&rt, table.get("a").is_none(), true);
    same_number(&rt, table.range_count(), 3);
    Ok(())
}

#[test]
fn a_partition_takes_the_place_of_what_was_there(rt: HostRuntime) -> Result<(), Fail> {
    let alloc = rt.alloc();
    let mut table = three(alloc)?;
    table.put(Text::from_str(alloc, "b")?, one_open(alloc, 7)?)?;
    same_number(&rt, table.len() as u64, 3);
    same_part(&rt, &table, 1, "b", 7);
    Ok(())
}

#[test]
fn only_a_name_above_all_others_goes_behind_them(rt: HostRuntime) -> Result<(), Fail> {
    let alloc = rt.alloc();
    let mut table = three(alloc)?;
    same_answer(
        &rt,
        table.push(Text::from_str(alloc, "c")?, Marks::new(alloc))?,
        false,
    );
    same_answer(
        &rt,
        table.push(Text::from_str(alloc, "bz")?, Marks::new(alloc))?,
        false,
    );
    same_answer(
        &rt,
        table.push(Text::from_str(alloc, "c/")?, one_open(alloc, 4)?)?,
        true,
    );
    same_number(&rt, table.len() as u64, 4);
    same_part(&rt, &table, 3, "c/", 4);
    Ok(())
}

#[test]
fn ranges_are_added_and_committed_by_name(rt: HostRuntime) -> Result<(), Fail> {
    let mut table = MarkTable::new(rt.alloc());
    same_answer(&rt, table.is_empty(), true);
    same_answer(&rt, table.commit("a", Range { lo: 0, hi: 5 }, 0)?, false);
    table.add_open("a", 5)?;
    same_mark(&rt, &table, "a", 0);
    same_answer(&rt, table.commit("a", Range { lo: 0, hi: 4 }, 0)?, false);
    same_answer(&rt, table.commit("a", Range { lo: 0, hi: 5 }, 0)?, true);
    same_mark(&rt, &table, "a", 5);
    same_number(&rt, table.range_count(), 1);
    Ok(())
}

#[test]
fn a_done_range_is_added_by_name(rt: HostRuntime) -> Result<(), Fail> {
    let mut table = MarkTable::new(rt.alloc());
    table.add_done("a", 6, 3)?;
    same_mark(&rt, &table, "a", 6);
    Ok(())
}

/// So many ranges that a state may have.
const MOST: u64 = 200_000;

fn next_of(table: &MarkTable, part: &str) -> u64
    ensures { result ≡ (marks_in table.now part.now).next }
{
    match table.get(part) {
        Some(marks) => marks.next(),
        None => 0,
    }
}

/// Owes one byte more of a partition.
fn owe_byte(table: &mut MarkTable, part: &str) -> Result<(), NoMemory> {
    let next = next_of(table, part);
    if next < u64::MAX {
        table.add_open(part, next + 1)?;
    }
    Ok(())
}

/// Two partitions, of each of which so many bytes are owed, each as a range.
fn byte_by_byte(alloc: Global, bytes: u64) -> Result<MarkTable, NoMemory> {
    let mut table = MarkTable::new(alloc);
    for _ in 0..bytes {
        owe_byte(&mut table, "a")?;
        owe_byte(&mut table, "b")?;
    }
    Ok(table)
}

/// How many of the first so many bytes of a partition were ranges that are done now.
fn commit_bytes(table: &mut MarkTable, part: &str, bytes: u64) -> Result<u64, NoMemory> {
    let mut done = 0u64;
    for lo in 0..bytes {
        if table.commit(part, Range { lo, hi: lo + 1 }, 0)? {
            done = done.saturating_add(1);
        }
    }
    Ok(done)
}

fn is_covered(table: &MarkTable, part: &str, at: u64) -> bool {
    match table.get(part) {
        Some(marks) => marks.covers(at),
        None => false,
    }
}

/// How many of the first so many bytes of a partition are covered.
fn covered_bytes(table: &MarkTable, part: &str, bytes: u64) -> u64 {
    let mut covered = 0u64;
    for at in 0..bytes {
        if is_covered(table, part, at) {
            covered = covered.saturating_add(1);
        }
    }
    covered
}

/// No call goes over all ranges, else this would take hours.
#[test]
fn ranges_are_found_among_many(rt: HostRuntime) -> Result<(), Fail> {
    let mut table = byte_by_byte(rt.alloc(), MOST / 2)?;
    same_number(&rt, table.range_count(), MOST);
    same_number(&rt, commit_bytes(&mut table, "a", MOST)?, MOST / 2);
    same_number(&rt, commit_bytes(&mut table, "a", MOST)?, 0);
    same_mark(&rt, &table, "a", MOST / 2);
    same_mark(&rt, &table, "b", 0);
    same_number(&rt, covered_bytes(&table, "a", MOST), MOST / 2);
    same_number(&rt, covered_bytes(&table, "b", MOST), 0);
    same_number(&rt, table.range_count(), MOST);
    Ok(())
}

#[test]
fn a_copy_of_a_table_stays(rt: HostRuntime) -> Result<(), Fail> {
    let mut table = three(rt.alloc())?;
    let copy = table.copy()?;
    same_answer(&rt, table.commit("b", Range { lo: 0, hi: 2 }, 0)?, true);
    same_mark(&rt, &copy, "b", 0);
    same_part(&rt, &copy, 0, "a/x", 1);
    same_part(&rt, &copy, 2, "c", 3);
    Ok(())
}
