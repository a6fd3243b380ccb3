//! The partitions of a state: how far each is done, and what of it is owed.
ghost use Rattle.std.specs.Prelude.{◌≡◌, ◌++◌, OnOk};
ghost use Rattle.std.specs.List.{flat_map};
ghost use Rattle.gob_texts.specs.Commands.{open_range_line, part_lines};
ghost use Rattle.gob_texts.specs.Report.{mark_line, watermark_of};

use crate::lines::Word::{Name, Number};
use crate::lines::push_line;
use gob_marks::{MarkTable, Marks, Range};
use std::alloc::AllocError;

#[tactic(auto, using(crate::proofs::Watermarks::told_watermark))]
fn watermark(marks: &Marks) -> u64
    ensures { result ≡ watermark_of marks.now }
{
    // Tells that the marks are tiled.
    let _next = marks.next();
    marks.watermark()
}

fn push_mark(into: &mut Vec<u8>, part: &str, marks: &Marks) -> Result<(), AllocError>
    ensures { OnOk result (into.new.items ≡ into.old.items ++ mark_line (part.now, marks.now)) }
{
    push_line(
        into,
        "mark",
        &[Name(part), Number(watermark(marks)), Number(marks.next())],
    )
}

/// A line for each partition: how far it is done, and how far it is taken.
pub(crate) fn push_marks(into: &mut Vec<u8>, table: &MarkTable) -> Result<(), AllocError>
    ensures { OnOk result (into.new.items ≡ into.old.items ++ flat_map mark_line table.now) }
{
    for i in 0..table.len() {
        match table.at(i) {
            Some((part, marks)) => push_mark(into, part, marks)?,
            None => unreachable!(),
        }
    }
    Ok(())
}

fn push_open(into: &mut Vec<u8>, part: &str, open: &[Range]) -> Result<(), AllocError>
    ensures { OnOk result (into.new.items ≡ into.old.items ++ flat_map (open_range_line part.now) open.now) }
{
    for i in 0..open.len() {
        let range = open[i];
        push_line(
            into,
            "open",
            &[Name(part), Number(range.lo), Number(range.hi)],
        )?;
    }
    Ok(())
}

fn push_part(into: &mut Vec<u8>, part: &str, marks: &Marks) -> Result<(), AllocError>
    ensures { OnOk result (into.new.items ≡ into.old.items ++ part_lines (part.now, marks.now)) }
{
    push_mark(into, part, marks)?;
    push_open(into, part, marks.open_ranges())?;
    Ok(())
}

/// The partitions, each with the ranges that it owes.
pub(crate) fn push_parts(into: &mut Vec<u8>, table: &MarkTable) -> Result<(), AllocError>
    ensures { OnOk result (into.new.items ≡ into.old.items ++ flat_map part_lines table.now) }
{
    for i in 0..table.len() {
        match table.at(i) {
            Some((part, marks)) => push_part(into, part, marks)?,
            None => unreachable!(),
        }
    }
    Ok(())
}
