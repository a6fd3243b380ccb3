//! Sources, marks and answers, told in short.

ghost use Rattle.std.specs.Prelude.{◌≡◌};
ghost use Rattle.gob_marks.specs.Changed.{marks_in};

use gob_cut::{Cut, CutFault, units, units_through};
use gob_io::MemSource;
use gob_marks::MarkTable;
use gob_plan::{Limits, NoMemory, Text, Unit};
use std::alloc::Global;
use std::process::Abort;

/// A partition and its bytes.
pub(crate) type Given = (&'static str, &'static str);

/// The end of a range, from where the one before it ends, and whether it is done.
pub(crate) type Taken = (&'static str, u64, bool);

pub(crate) fn same_text(rt: &impl Abort, found: &str, wanted: &str) {
    assert_eq!(rt; found, wanted);
}

/// A source that fails these calls.
pub(crate) fn source(
    alloc: Global,
    parts: &[Given],
    fail_lists: &[u64],
    fail_looks: &[u64],
) -> Result<MemSource, NoMemory> {
    let mut source = MemSource::new(
        alloc,
        Vec::new(alloc),
        Vec::from_slice(alloc, fail_lists)?,
        Vec::from_slice(alloc, fail_looks)?,
        Vec::new(alloc),
    );
    for (name, bytes) in parts {
        grow(&mut source, name, bytes.as_bytes())?;
    }
    Ok(source)
}

/// Adds bytes to a partition that has a name.
pub(crate) fn grow(source: &mut MemSource, name: &str, bytes: &[u8]) -> Result<(), NoMemory> {
    if !name.is_empty() {
        source.grow(name, bytes)?;
    }
    Ok(())
}

/// What was taken of each partition.
pub(crate) fn marks(alloc: Global, ranges: &[Taken]) -> Result<MarkTable, NoMemory> {
    let mut table = MarkTable::new(alloc);
    for (part, hi, done) in ranges {
        take(&mut table, part, *hi, *done)?;
    }
    Ok(table)
}

fn next_of(table: &MarkTable, part: &str) -> u64
    ensures { result ≡ (marks_in table.now part.now).next }
{
    match table.get(part) {
        Some(marks) => marks.next(),
        None => 0,
    }
}

/// Takes a range from where the one before it ends.
pub(crate) fn take(table: &mut MarkTable, part: &str, hi: u64, done: bool) -> Result<(), NoMemory> {
    if next_of(table, part) >= hi {
        return Ok(());
    }
    if done {
        table.add_done(part, hi, 0)?;
    } else {
        table.add_open(part, hi)?;
    }
    Ok(())
}

/// What a run may take.
pub(crate) fn limits(
    alloc: Global,
    prefix: &str,
    max_bytes: u64,
    max_new_units: u32,
) -> Result<Limits, NoMemory> {
    Ok(Limits {
        prefix: Text::from_str(alloc, prefix)?,
        max_bytes,
        max_new_units,
    })
}

/// The units that are cut and the names that are too long, or why there are none.
pub(crate) fn answer(
    alloc: Global,
    source: &mut MemSource,
    marks: &MarkTable,
    limits: &Limits,
) -> Result<Text, NoMemory> {
    told(alloc, &units(alloc, source, marks, limits))
}

/// The same, where a look sees so many bytes, one at least.
pub(crate) fn answer_through(
    alloc: Global,
    source: &mut MemSource,
    marks: &MarkTable,
    limits: &Limits,
    window: usize,
) -> Result<Text, NoMemory> {
    let mut window = vec![in alloc; 0u8; window.max(1)]?;
    let found = units_through(alloc, source, marks, limits, window.as_mut_slice());
    told(alloc, &found)
}

fn told(alloc: Global, found: &Result<Cut, CutFault>) -> Result<Text, NoMemory> {
    match found {
        Ok(cut) => told_cut(alloc, cut),
        Err(fault) => told_fault(alloc, fault),
    }
}

fn told_cut(alloc: Global, cut: &Cut) -> Result<Text, NoMemory> {
    let mut text = Text::new(alloc);
    for unit in cut.units.as_slice() {
        push_unit(&mut text, alloc, unit)?;
    }
    for name in cut.too_long.as_slice() {
        text.push("long ")?;
        text.push(name.as_str())?;
        text.push(";")?;
    }
    Ok(text)
}

fn push_unit(text: &mut Text, alloc: Global, unit: &Unit) -> Result<(), NoMemory> {
    text.push(unit.part.as_str())?;
    push_number(text, alloc, " ", unit.lo)?;
    push_number(text, alloc, "-", unit.hi)?;
    text.push(kind_of(unit.fresh, unit.listed))?;
    text.push(";")?;
    Ok(())
}

pub(crate) fn push_number(
    text: &mut Text,
    alloc: Global,
    before: &str,
    number: u64,
) -> Result<(), NoMemory> {
    text.push(before)?;
    text.push(number.to_string(alloc)?.as_str())?;
    Ok(())
}

fn kind_of(fresh: bool, listed: bool) -> &'static str {
    match (fresh, listed) {
        (true, true) => " new",
        (true, false) => " new, not listed",
        (false, true) => " owed",
        (false, false) => " owed, not listed",
    }
}

fn told_fault(alloc: Global, fault: &CutFault) -> Result<Text, NoMemory> {
    match fault {
        CutFault::Memory => Err(NoMemory),
        CutFault::Failed => Text::from_str(alloc, "failed"),
        CutFault::Shrunk { part, next, size } => {
            let mut text = Text::from_str(alloc, part.as_str())?;
            push_number(&mut text, alloc, " had ", *next)?;
            push_number(&mut text, alloc, " and has ", *size)?;
            Ok(text)
        }
    }
}
