//! What units made: counts with a word for each.
ghost use Rattle.std.specs.Prelude.{◌≡◌, ◌++◌, map, OnOk};
ghost use Rattle.std.specs.List.{enumerate_from, flat_map};
ghost use Rattle.gob_texts.specs.Report as report;
ghost use Rattle.gob_report.specs.Lines.{tally_line, word_text};

use crate::lines::Word::{Number, Plain};
use crate::lines::{Word, push_line, push_long_line};
use gob_plan::{BranchCounts, Counts};
use gob_state::{State, push_numbered};
use std::alloc::AllocError;

/// Counts, each with its word.
pub(crate) fn tally(counts: &Counts) -> [Word<'static>; 8]
    ensures { map word_text result ≡ report.tally counts.now }
{
    [
        Plain("records"),
        Number(counts.records),
        Plain("bad"),
        Number(counts.bad),
        Plain("rows"),
        Number(counts.rows),
        Plain("unrouted"),
        Number(counts.unrouted),
    ]
}

/// A branch's number and its counts, each with its word.
pub(crate) fn branch_tally(number: u64, counts: BranchCounts) -> [Word<'static>; 7]
    ensures { map word_text result ≡ report.branch_tally (number, counts) }
{
    [
        Number(number),
        Plain("written"),
        Number(counts.written),
        Plain("errors"),
        Number(counts.errors),
        Plain("optional"),
        Number(counts.optional),
    ]
}

/// A line for each branch, of these words and its tally.
pub(crate) fn push_branches(
    into: &mut Vec<u8>,
    first: &str,
    front: &[Word<'_>],
    branches: &[BranchCounts],
) -> Result<(), AllocError>
    ensures { OnOk result (into.new.items ≡ into.old.items
        ++ flat_map (tally_line first.now (map word_text front.now)) (enumerate_from 0 branches.now)) }
{
    for i in 0..branches.len() {
        push_long_line(into, first, front, &branch_tally(i as u64, branches[i]))?;
    }
    Ok(())
}

/// What all units made, in all and in each branch.
pub(crate) fn push_counts(into: &mut Vec<u8>, counts: &Counts) -> Result<(), AllocError>
    ensures { OnOk result (into.new.items ≡ into.old.items ++ report.count_lines counts.now) }
{
    push_line(into, "total", &tally(counts))?;
    push_branches(
        into,
        "total",
        &[Plain("branch")],
        counts.branches.as_slice(),
    )?;
    Ok(())
}

/// What a state says in all.
pub(crate) fn push_totals(into: &mut Vec<u8>, state: &State) -> Result<(), AllocError>
    ensures { OnOk result (into.new.items ≡ into.old.items ++ report.total_lines state.now) }
{
    push_counts(into, &state.totals)?;
    push_numbered(into, b"runs", &[state.run])?;
    Ok(())
}
