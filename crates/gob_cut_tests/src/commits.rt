//! Runs over a source in memory: what is cut behind a state, and the state after what was made of it.

ghost use Rattle.std.specs.Prelude.{IfOk};
ghost use Rattle.gob_ledger.specs.Spelling.{Proper};
ghost use Rattle.gob_ledger.specs.Units.{UnitsFit};

use crate::helpers::{Given, limits, push_number, same_text, source};
use gob_cut::{Cut, units};
use gob_marks::Marks;
use gob_plan::{BranchCounts, Cause, CommitPolicy, Counts, List, NoMemory, Text, Unit, UnitResult};
use gob_state::{State, next_state, read_state};
use std::alloc::Global;
use std::process::Abort;
use std::test::Fail;

/// The state before, what the source holds, how many rows each branch wrote of each good unit (none: the unit
/// failed), the pipeline, the policy, and the state after.
struct Case {
    before: &'static [u8],
    parts: &'static [Given],
    made: &'static [&'static [u64]],
    pipeline: &'static str,
    policy: CommitPolicy,
    after: &'static str,
}

const NOTHING: &[u8] =
    b"gobblin-state 2\nrun 0\npipelines 0\ntotals 0 0 0 0\nbranch 0 0 0 0\nend\n";

/// The line between two others is owed.
const ONE_OWED: &[u8] =
    b"gobblin-state 2\nrun 1\npipelines 1\npipeline 1\nx=1\ntotals 2 0 2 0\nbranch 0 2 0 0\npartition a.log 6\n\
        done 0 2 0\nopen 2 4\ndone 4 6 0\nend\n";

/// The same at the end of the run number, where the totals are at theirs, with two branches.
const AT_THE_END: &[u8] =
    b"gobblin-state 2\nrun 18446744073709551615\npipelines 1\npipeline 1\nx=1\ntotals 18446744073709551615 0 2 0\n\
        branch 0 2 0 0\nbranch 1 7 0 0\npartition a.log 6\ndone 0 2 0\nopen 2 4\ndone 4 6 0\nend\n";

const THREE_LINES: &[Given] = &[("a.log", "a\nK\nb\n")];

/// No row at all, one row of one branch, and of two branches.
const FAILED: &[u64] = &[];

const GOOD: &[u64] = &[1];

const OF_TWO: &[u64] = &[1, 3];

const OWED_STAYS: &str =
    "run 1 pipelines 1 records 2 written 2; a.log 6 done 0-2 by 0, 4-6 by 0 open 2-4;";

const CASES: [Case; 12] = [
    // The line K fails its unit, and the others are committed beside it.
    Case {
        before: NOTHING,
        parts: THREE_LINES,
        made: &[GOOD, FAILED, GOOD],
        pipeline: "x=1\n",
        policy: CommitPolicy::Successful,
        after: OWED_STAYS,
    },
    // Or they are not.
    Case {
        before: NOTHING,
        parts: THREE_LINES,
        made: &[GOOD, FAILED, GOOD],
        pipeline: "x=1\n",
        policy: CommitPolicy::Full,
        after: "run 0 pipelines 0 records 0 written 0;",
    },
    // The next run has K alone, which fails again.
    Case {
        before: ONE_OWED,
        parts: THREE_LINES,
        made: &[FAILED],
        pipeline: "x=1\n",
        policy: CommitPolicy::Successful,
        after: OWED_STAYS,
    },
    // The partition is gone.
    Case {
        before: ONE_OWED,
        parts: &[],
        made: &[FAILED],
        pipeline: "x=2\n",
        policy: CommitPolicy::Successful,
        after: OWED_STAYS,
    },
    // K passes now.
    Case {
        before: ONE_OWED,
        parts: THREE_LINES,
        made: &[GOOD],
        pipeline: "x=1\n",
        policy: CommitPolicy::Full,
        after: "run 2 pipelines 1 records 3 written 3; a.log 6 done 0-2 by 0, 2-4 by 0, 4-6 by 0;",
    },
    // It passes by another pipeline.
    Case {
        before: ONE_OWED,
        parts: THREE_LINES,
        made: &[GOOD],
        pipeline: "x=2\n",
        policy: CommitPolicy::Successful,
        after: "run 2 pipelines 2 records 3 written 3; a.log 6 done 0-2 by 0, 2-4 by 1, 4-6 by 0;",
    },
    // A new line is committed beside it, and one of another partition failed.
    Case {
        before: ONE_OWED,
        parts: &[("a.log", "a\nK\nb\nc\n"), ("b", "1\n")],
        made: &[FAILED, GOOD, FAILED],
        pipeline: "x=1\n",
        policy: CommitPolicy::Successful,
        after: "run 2 pipelines 1 records 3 written 3; a.log 8 done 0-2 by 0, 4-6 by 0, 6-8 by 0 open 2-4; b 2 open \
            0-2;",
    },
    // The last of three fails: what was taken goes on behind it, and it is owed.
    Case {
        before: NOTHING,
        parts: THREE_LINES,
        made: &[GOOD, GOOD, FAILED],
        pipeline: "x=1\n",
        policy: CommitPolicy::Successful,
        after: "run 1 pipelines 1 records 2 written 2; a.log 6 done 0-2 by 0, 2-4 by 0 open 4-6;",
    },
    // A branch that the state lacks, and then one that the unit lacks.
    Case {
        before: ONE_OWED,
        parts: THREE_LINES,
        made: &[OF_TWO],
        pipeline: "x=1\n",
        policy: CommitPolicy::Full,
        after: "run 2 pipelines 1 records 3 written 3 3; a.log 6 done 0-2 by 0, 2-4 by 0, 4-6 by 0;",
    },
    Case {
        before: AT_THE_END,
        parts: THREE_LINES,
        made: &[GOOD],
        pipeline: "x=1\n",
        policy: CommitPolicy::Full,
        after: "run 18446744073709551615 pipelines 1 records 18446744073709551615 written 3 7; a.log 6 done 0-2 by \
            0, 2-4 by 0, 4-6 by 0;",
    },
    // Half a line waits, and is taken once it is whole.
    Case {
        before: NOTHING,
        parts: &[("a.log", "x\nyy")],
        made: &[GOOD],
        pipeline: "x=1\n",
        policy: CommitPolicy::Full,
        after: "run 1 pipelines 1 records 1 written 1; a.log 2 done 0-2 by 0;",
    },
    // A line longer than a unit may be is whole.
    Case {
        before: NOTHING,
        parts: &[("a.log", "ab\nabcdefgh\nz\n")],
        made: &[GOOD, GOOD, GOOD],
        pipeline: "x=1\n",
        policy: CommitPolicy::Full,
        after: "run 1 pipelines 1 records 3 written 3; a.log 14 done 0-3 by 0, 3-12 by 0, 12-14 by 0;",
    },
];

fn branches_of(alloc: Global, written: &[u64]) -> Result<List<BranchCounts>, NoMemory> {
    let mut branches = List::new(alloc);
    for rows in written {
        branches.push(BranchCounts {
            written: *rows,
            errors: 0,
            optional: 0,
        })?;
    }
    Ok(branches)
}

/// One record of which each branch wrote so many rows, or a failure.
fn result_of(alloc: Global, written: &[u64]) -> Result<UnitResult, NoMemory> {
    if written.is_empty() {
        return Ok(UnitResult::Failed { cause: Cause::Gone });
    }
    let branches = branches_of(alloc, written)?;
    Ok(UnitResult::Good {
        counts: Counts {
            records: 1,
            bad: 0,
            rows: 1,
            unrouted: 0,
            branches,
        },
        warnings: List::new(alloc),
        staged: List::new(alloc),
    })
}

fn results_of(alloc: Global, made: &[&[u64]]) -> Result<List<UnitResult>, NoMemory> {
    let mut results = List::new(alloc);
    for written in made {
        results.push(result_of(alloc, written)?)?;
    }
    Ok(results)
}

/// The units behind a state.
fn cut(alloc: Global, parts: &[Given], before: &State) -> Result<Cut, Fail>
    ensures fits { IfOk result (λ c. UnitsFit before.now.parts c.units) }
{
    let mut source = source(alloc, parts, &[], &[])?;
    let limits = limits(alloc, "", 2, 100)?;
    let cut = units(alloc, &mut source, &before.marks, &limits)?;
    Ok(cut)
}

/// The state after a run with these results, told in short.
fn after_results(
    alloc: Global,
    case: &Case,
    before: &State,
    units: &[Unit],
    results: &[UnitResult],
) -> Result<Text, Fail>
    requires proper { Proper before.now }
    requires fits { UnitsFit before.now.parts units.now }
{
    if results.len() != units.len() {
        return Err(Fail::from("other units are cut"));
    }
    let after = next_state(before, case.pipeline, units, results, case.policy)?;
    let told = told(alloc, &after)?;
    Ok(told)
}

/// The same after a run over these units.
fn after_units(alloc: Global, case: &Case, before: &State, units: &[Unit]) -> Result<Text, Fail>
    requires proper { Proper before.now }
    requires fits { UnitsFit before.now.parts units.now }
{
    let results = results_of(alloc, case.made)?;
    after_results(alloc, case, before, units, results.as_slice())
}

/// The same after a run behind this state.
fn after_state(alloc: Global, case: &Case, before: &State) -> Result<Text, Fail>
    requires proper { Proper before.now }
{
    let cut = cut(alloc, case.parts, before)?;
    after_units(alloc, case, before, cut.units.as_slice())
}

/// The state after a run, told in short.
fn after(alloc: Global, case: &Case) -> Result<Text, Fail> {
    let Some(before) = read_state(alloc, case.before)? else {
        return Err(Fail::from("there is no state"));
    };
    after_state(alloc, case, &before)
}

fn told(alloc: Global, state: &State) -> Result<Text, NoMemory> {
    let mut text = Text::new(alloc);
    push_number(&mut text, alloc, "run ", state.run)?;
    push_number(
        &mut text,
        alloc,
        " pipelines ",
        state.pipelines.len() as u64,
    )?;
    push_number(&mut text, alloc, " records ", state.totals.records)?;
    text.push(" written")?;
    for branch in state.totals.branches.as_slice() {
        push_number(&mut text, alloc, " ", branch.written)?;
    }
    text.push(";")?;
    push_parts(&mut text, alloc, state)?;
    Ok(text)
}

fn push_parts(text: &mut Text, alloc: Global, state: &State) -> Result<(), NoMemory> {
    for place in 0..state.marks.len() {
        if let Some((part, marks)) = state.marks.at(place) {
            text.push(" ")?;
            text.push(part)?;
            push_marks(text, alloc, marks)?;
        }
    }
    Ok(())
}

fn push_marks(text: &mut Text, alloc: Global, marks: &Marks) -> Result<(), NoMemory> {
    push_number(text, alloc, " ", marks.next())?;
    let mut before = " done ";
    for done in marks.done() {
        let range = done.range;
        push_number(text, alloc, before, range.lo)?;
        push_number(text, alloc, "-", range.hi)?;
        push_number(text, alloc, " by ", done.pipeline)?;
        before = ", ";
    }
    let mut before = " open ";
    for range in marks.open_ranges() {
        push_number(text, alloc, before, range.lo)?;
        push_number(text, alloc, "-", range.hi)?;
        before = ", ";
    }
    text.push(";")?;
    Ok(())
}

fn check(rt: &impl Abort, alloc: Global, case: &Case) -> Result<(), Fail> {
    let found = after(alloc, case)?;
    same_text(rt, found.as_str(), case.after);
    Ok(())
}

#[test]
fn a_state_goes_on_by_what_was_made_of_its_units(rt: HostRuntime) -> Result<(), Fail> {
    for case in &CASES {
        check(&rt, rt.alloc(), case)?;
    }
    Ok(())
}
