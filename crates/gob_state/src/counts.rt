//! Totals, and what went to each branch.
ghost use Rattle.std.specs.Prelude.{◌≡◌, IfOk};
ghost use Rattle.gob_ledger.specs.Spelling.{totals_text};
ghost use Rattle.gob_state.specs.Reads.{ReadsSpelling};
ghost use Rattle.gob_state.specs.Counts.{AreBranches, AreTotals, NoBranch, branch_count_lines};

use crate::lines::take_four;
use gob_plan::{BranchCounts, Counts, List, NoMemory};
use gob_text::Words;
use std::alloc::Global;

const MOST_BRANCHES: u64 = 8;

// From one to eight branches, each on a line with its index.
fn take_branches(alloc: Global, text: &mut Words) -> Result<Option<List<BranchCounts>>, NoMemory>
    ensures { IfOk result (λ taken. ReadsSpelling branch_count_lines AreBranches NoBranch text.old text.new taken) }
{
    let mut branches = List::new(alloc);
    for index in 0..MOST_BRANCHES {
        if !text.take_text(b"branch") {
            return Ok(if index == 0 { None } else { Some(branches) });
        }
        let Some((place, written, errors, optional)) = take_four(text) else {
            return Ok(None);
        };
        if place != index {
            return Ok(None);
        }
        branches.push(BranchCounts {
            written,
            errors,
            optional,
        })?;
    }
    Ok(Some(branches))
}

/// The totals, and a line for each branch.
pub fn take_totals(alloc: Global, text: &mut Words) -> Result<Option<Counts>, NoMemory>
    ensures { IfOk result (λ taken. ReadsSpelling totals_text AreTotals NoBranch text.old text.new taken) }
{
    if !text.take_text(b"totals") {
        return Ok(None);
    }
    let Some((records, bad, rows, unrouted)) = take_four(text) else {
        return Ok(None);
    };
    let Some(branches) = take_branches(alloc, text)? else {
        return Ok(None);
    };
    Ok(Some(Counts {
        records,
        bad,
        rows,
        unrouted,
        branches,
    }))
}
