//! States after a commit.
ghost use Rattle.std.specs.Prelude.{◌≡◌, ◌∷◌, [], length, codes, true, IfOk};

use gob_plan::{BranchCounts, CommitPolicy, Counts, List, NoMemory, Text, Unit, UnitResult};
use gob_state::{State, empty_state, next_state};
use std::alloc::Global;
use std::process::Abort;
use std::test::Fail;

fn same_number(rt: &impl Abort, found: u64, wanted: u64) {
    assert_eq!(rt; found, wanted);
}

/// A fresh unit of one partition.
fn one_unit(alloc: Global) -> Result<List<Unit>, NoMemory>
    ensures { IfOk result (λ us.
        us ≡ record { part = codes "a"; lo = 0; hi = 2; fresh = true; listed = true } ∷ []) }
{
    let part = Text::from_str(alloc, "a")?;
    let mut units = List::new(alloc);
    units.push(Unit {
        part,
        lo: 0,
        hi: 2,
        fresh: true,
        listed: true,
    })?;
    Ok(units)
}

/// A result of two records.
fn one_result(alloc: Global) -> Result<List<UnitResult>, NoMemory>
    ensures { IfOk result (λ rs. length rs ≡ 1) }
{
    let mut branches = List::new(alloc);
    branches.push(BranchCounts {
        written: 2,
        errors: 0,
        optional: 0,
    })?;
    let mut results = List::new(alloc);
    results.push(UnitResult::Good {
        counts: Counts {
            records: 2,
            bad: 0,
            rows: 2,
            unrouted: 0,
            branches,
        },
        warnings: List::new(alloc),
        staged: List::new(alloc),
    })?;
    Ok(results)
}

/// The state after the first commit.
fn first_commit(alloc: Global, policy: CommitPolicy) -> Result<State, NoMemory> {
    let before = empty_state(alloc, 1)?;
    let units = one_unit(alloc)?;
    let results = one_result(alloc)?;
    let after = next_state(
        &before,
        "x=1\n",
        units.as_slice(),
        results.as_slice(),
        policy,
    )?;
    Ok(after)
}

#[test]
fn a_commit_counts(rt: HostRuntime) -> Result<(), Fail> {
    let after = first_commit(rt.alloc(), CommitPolicy::Full)?;
    same_number(&rt, after.run, 1);
    same_number(&rt, after.pipelines.len() as u64, 1);
    same_number(&rt, after.totals.records, 2);
    same_number(&rt, after.marks.range_count(), 1);
    Ok(())
}
