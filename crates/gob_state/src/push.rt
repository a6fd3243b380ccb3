//! Pieces of texts, pushed behind what is there.
ghost use Rattle.std.specs.Prelude.{◌≡◌, ◌≤◌, ◌++◌, ◌∷◌, [], codes, drop, length, map, IfOk, OnOk};
ghost use Rattle.std.specs.List.{flat_map};
ghost use Rattle.std.specs.Fmt.{decimal};
ghost use Rattle.gob_bytes.specs.Escapes.{escape_of};
ghost use Rattle.gob_bytes.specs.Words.{numbered_line, words};
ghost use Rattle.gob_ledger.specs.Marks.{InOrder};
ghost use Rattle.gob_ledger.specs.Spelling as spelling;
ghost use Rattle.gob_state.specs.Written.{BeginsBehind, OpensPushed, branch_lines_from, lines_of_ranges};

use gob_marks::{Done, MarkTable, Marks, Range};
use gob_plan::{BranchCounts, Counts, Text};
use gob_text::{push_escaped, push_u64};
use std::alloc::AllocError;

/// A line of this word and these numbers.
pub fn push_numbered(into: &mut Vec<u8>, word: &[u8], numbers: &[u64]) -> Result<(), AllocError>
    ensures { OnOk result (into.new.items ≡ into.old.items ++ numbered_line word.now numbers.now) }
{
    into.extend_from_slice(word)?;
    for i in 0..numbers.len() {
        into.push(b' ')?;
        push_u64(into, numbers[i])?;
    }
    into.push(b'\n')?;
    Ok(())
}

fn line_count(text: &[u8]) -> u64
    ensures { result ≡ spelling.line_count text.now }
{
    let mut lines = 0usize;
    for i in 0..text.len() {
        if text[i] == b'\n' {
            lines += 1;
        }
    }
    lines as u64
}

// A pipeline, with the number of its lines.
fn push_pipeline(into: &mut Vec<u8>, pipeline: &str) -> Result<(), AllocError>
    ensures { OnOk result (into.new.items ≡ into.old.items ++ spelling.pipeline_part pipeline.now) }
{
    let bytes = pipeline.as_bytes();
    push_numbered(into, b"pipeline", &[line_count(bytes)])?;
    into.extend_from_slice(bytes)?;
    Ok(())
}

/// The pipelines, with their number in front.
pub fn push_pipelines(into: &mut Vec<u8>, pipelines: &[Text]) -> Result<(), AllocError>
    ensures { OnOk result
        (into.new.items ≡ into.old.items ++ spelling.pipelines_text spelling.version_2 pipelines.now) }
{
    push_numbered(into, b"pipelines", &[pipelines.len() as u64])?;
    for pipeline in pipelines {
        push_pipeline(into, pipeline.as_str())?;
    }
    Ok(())
}

fn push_branches(into: &mut Vec<u8>, branches: &[BranchCounts]) -> Result<(), AllocError>
    ensures { OnOk result (into.new.items ≡ into.old.items ++ branch_lines_from 0 branches.now) }
{
    for i in 0..branches.len() {
        let counts = branches[i];
        push_numbered(
            into,
            b"branch",
            &[i as u64, counts.written, counts.errors, counts.optional],
        )?;
    }
    Ok(())
}

/// The totals, and a line for each branch.
pub fn push_totals(into: &mut Vec<u8>, totals: &Counts) -> Result<(), AllocError>
    ensures { OnOk result (into.new.items ≡ into.old.items ++ spelling.totals_text totals.now) }
{
    push_numbered(
        into,
        b"totals",
        &[totals.records, totals.bad, totals.rows, totals.unrouted],
    )?;
    push_branches(into, totals.branches.as_slice())?;
    Ok(())
}

// Open ranges from this place on, as long as they don't begin behind the offset, and the place after them.
fn push_open_up_to(
    into: &mut Vec<u8>,
    open: &[Range],
    from: usize,
    at: u64,
) -> Result<usize, AllocError>
    requires within { from ≤ length open.now }
    requires order { InOrder 0 open.now }
    ensures pushed { IfOk result (λ k.
        OpensPushed at into.old.items (drop from open.now) into.new.items (drop k open.now)) }
    ensures within { IfOk result (λ k. k ≤ length open.now) }
    ensures stop { IfOk result (λ k. BeginsBehind at (drop k open.now)) }
{
    let mut k = from;
    while k < open.len() {
        let range = open[k];
        if range.lo > at {
            return Ok(k);
        }
        push_numbered(into, b"open", &[range.lo, range.hi])?;
        k += 1;
    }
    Ok(k)
}

// Open ranges alone.
fn push_open(into: &mut Vec<u8>, open: &[Range]) -> Result<(), AllocError>
    ensures { OnOk result (into.new.items ≡ into.old.items ++ lines_of_ranges [] open.now) }
{
    for i in 0..open.len() {
        let range = open[i];
        push_numbered(into, b"open", &[range.lo, range.hi])?;
    }
    Ok(())
}

// Ranges by their offsets, of which each kind is in order.
fn push_ranges(into: &mut Vec<u8>, done: &[Done], open: &[Range]) -> Result<(), AllocError>
    requires done { InOrder 0 (map (λ d. d.span) done.now) }
    requires open { InOrder 0 open.now }
    ensures { OnOk result (into.new.items ≡ into.old.items ++ lines_of_ranges done.now open.now) }
{
    let mut k = 0;
    for i in 0..done.len() {
        let first = done[i];
        let range = first.range;
        k = push_open_up_to(into, open, k, range.lo)?;
        push_numbered(into, b"done", &[range.lo, range.hi, first.pipeline])?;
    }
    let (_, behind) = open.split_at(k);
    push_open(into, behind)?;
    Ok(())
}

// The line of a partition: its name and its end.
fn push_head(into: &mut Vec<u8>, part: &str, next: u64) -> Result<(), AllocError>
    ensures { OnOk result (into.new.items
        ≡ into.old.items ++ words (codes "partition") (escape_of part.now ∷ decimal next ∷ [])) }
{
    into.extend_from_slice(b"partition ")?;
    push_escaped(into, part)?;
    push_numbered(into, b"", &[next])?;
    Ok(())
}

/// A partition with these ranges.
pub fn push_part(
    into: &mut Vec<u8>,
    part: &str,
    next: u64,
    done: &[Done],
    open: &[Range],
) -> Result<(), AllocError>
    requires done { InOrder 0 (map (λ d. d.span) done.now) }
    requires open { InOrder 0 open.now }
    ensures { OnOk result (into.new.items ≡ into.old.items
        ++ spelling.part_text spelling.version_2 (
          part.now,
          record { next = next; finished = done.now; owed = open.now },
        )) }
{
    push_head(into, part, next)?;
    push_ranges(into, done, open)?;
    Ok(())
}

fn push_marks(into: &mut Vec<u8>, part: &str, marks: &Marks) -> Result<(), AllocError>
    ensures { OnOk result (into.new.items
        ≡ into.old.items ++ spelling.part_text spelling.version_2 (part.now, marks.now)) }
{
    push_part(into, part, marks.next(), marks.done(), marks.open_ranges())?;
    Ok(())
}

/// The partitions, with their ranges.
pub fn push_parts(into: &mut Vec<u8>, marks: &MarkTable) -> Result<(), AllocError>
    ensures { OnOk result
        (into.new.items ≡ into.old.items ++ spelling.parts_text spelling.version_2 marks.now) }
{
    for i in 0..marks.len() {
        match marks.at(i) {
            Some((part, marks)) => push_marks(into, part, marks)?,
            None => unreachable!(),
        }
    }
    Ok(())
}
