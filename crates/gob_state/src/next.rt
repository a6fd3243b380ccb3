//! The first state, and the state after a commit.
ghost use Rattle.std.specs.Prelude.{◌≡◌, ◌+◌, ◌<◌, ◌≤◌, ◌^◌, ◌∷◌, drop, length, IfOk, OnOk};
ghost use Rattle.std.specs.List.{IsDistinct, filter, list_all, list_any, position_or_len};
ghost use Rattle.std.specs.Str.{bytes_eq};
ghost use Rattle.gob_ledger.specs.Next as next;
ghost use Rattle.gob_ledger.specs.Spelling.{IsKeptPipeline, Proper};
ghost use Rattle.gob_ledger.specs.State as states;
ghost use Rattle.gob_ledger.specs.Units.{UnitsFit, same_unit};
ghost use Rattle.gob_meaning.specs.Fold.{saturate_u64};
ghost use Rattle.gob_meaning.specs.Sums.{both_branches, branch_sums, sum_of};
ghost use Rattle.gob_state.specs.Committed.{FreshUnitsFollow, AllOwed, AreKept, committed_units, judged_by, may_commit};
ghost use Rattle.gob_state.specs.Committed.{parts_added, parts_finished, pipelines_with, totals_sum, verdict_in};
ghost use Rattle.gob_state.specs.Committed.{verdicts_in};

use crate::State;
use gob_marks::{MarkTable, Range};
use gob_plan::{BranchCounts, CommitPolicy, Counts, List, NoMemory, Text, Unit, UnitResult};
use std::alloc::Global;

/// What a run did.
#[derive(Drop)]
pub struct Outcome {
    pub units: List<Unit>,
    /// Of each unit, in the same order.
    pub results: List<UnitResult>,
    /// The partitions that are left alone for their names.
    pub too_long: List<Text>,
    pub after: State,
    /// Of each unit, whether the commit policy let it be committed.
    pub committed: List<bool>,
}

/// Nothing is committed yet, of so many branches.
pub fn empty_state(alloc: Global, branches: u32) -> Result<State, NoMemory>
    ensures empty { IfOk result (λ s. s ≡ states.empty_state branches) }
    ensures proper { IfOk result (λ s. 1 ≤ branches → branches ≤ 8 → Proper s) }
{
    let mut counts = List::new(alloc);
    for _ in 0..branches {
        counts.push(BranchCounts {
            written: 0,
            errors: 0,
            optional: 0,
        })?;
    }
    Ok(State {
        run: 0,
        pipelines: List::new(alloc),
        totals: Counts {
            records: 0,
            bad: 0,
            rows: 0,
            unrouted: 0,
            branches: counts,
        },
        marks: MarkTable::new(alloc),
    })
}

/// Whether a unit made something that can be committed.
pub fn is_good(made: &UnitResult) -> bool
    ensures { result ≡ next.is_good (verdict_in made.now) }
{
    match made {
        UnitResult::Good { .. } => true,
        UnitResult::Failed { .. } => false,
    }
}

/// Whether all units are good.
pub fn are_good(results: &[UnitResult]) -> bool
    ensures { result ≡ list_all next.is_good (verdicts_in results.now) }
{
    for made in results {
        if !is_good(made) {
            return false;
        }
    }
    true
}

/// Whether the policy lets a unit be committed, where `all` says whether all of its group are good.
pub fn is_allowed(policy: CommitPolicy, all: bool, made: &UnitResult) -> bool
    ensures { result ≡ may_commit policy all (verdict_in made.now) }
{
    match policy {
        CommitPolicy::Full => all,
        CommitPolicy::Successful => is_good(made),
    }
}

/// Whether the policy lets one of these units be committed, where `all` says whether all are good.
pub fn is_any_allowed(policy: CommitPolicy, all: bool, results: &[UnitResult]) -> bool
    ensures { result ≡ list_any (may_commit policy all) (verdicts_in results.now) }
{
    for made in results {
        if is_allowed(policy, all, made) {
            return true;
        }
    }
    false
}

// The place of a pipeline, or their number where it isn't there.
fn place_of(pipelines: &[Text], pipeline: &str) -> usize
    ensures { result ≡ position_or_len (bytes_eq pipeline.now) pipelines.now }
{
    for i in 0..pipelines.len() {
        if pipeline == pipelines[i].as_str() {
            return i;
        }
    }
    pipelines.len()
}

fn copy_texts(texts: &List<Text>) -> Result<List<Text>, NoMemory>
    ensures { IfOk result (λ ts. ts ≡ texts.now) }
{
    let copied = texts.clone()?;
    Ok(copied)
}

// The pipelines with this one, at their end where it is new.
fn pipelines_with(pipelines: &List<Text>, pipeline: &str) -> Result<List<Text>, NoMemory>
    ensures { IfOk result (λ ps. ps ≡ pipelines_with pipeline.now pipelines.now) }
{
    let mut all = copy_texts(pipelines)?;
    if place_of(all.as_slice(), pipeline) < all.len() {
        return Ok(all);
    }
    let text = Text::from_str(pipelines.allocator(), pipeline)?;
    all.push(text)?;
    Ok(all)
}

// A fresh unit's range goes on where its partition ends, and is owed.
fn add_units(marks: &mut MarkTable, units: &[Unit]) -> Result<(), NoMemory>
    requires { FreshUnitsFollow marks.old units.now }
    ensures { OnOk result (marks.new ≡ parts_added marks.old units.now) }
{
    for unit in units {
        if unit.fresh {
            marks.add_open(unit.part.as_str(), unit.hi)?;
        }
    }
    Ok(())
}

fn finish_units(
    marks: &mut MarkTable,
    units: &[Unit],
    results: &[UnitResult],
    policy: CommitPolicy,
    all: bool,
    pipeline: u64,
) -> Result<(), NoMemory>
    requires counted { length results.now ≡ length units.now }
    requires once { IsDistinct same_unit units.now }
    requires owed { AllOwed marks.old units.now }
    ensures { OnOk result
        (marks.new ≡ parts_finished pipeline marks.old (committed_units policy all (judged_by units.now results.now))) }
{
    for i in 0..units.len() {
        if is_allowed(policy, all, &results[i]) {
            let unit = &units[i];
            let range = Range {
                lo: unit.lo,
                hi: unit.hi,
            };
            marks.commit(unit.part.as_str(), range, pipeline)?;
        }
    }
    Ok(())
}

fn both(a: BranchCounts, b: BranchCounts) -> BranchCounts
    ensures { result ≡ both_branches a b }
{
    BranchCounts {
        written: a.written.saturating_add(b.written),
        errors: a.errors.saturating_add(b.errors),
        optional: a.optional.saturating_add(b.optional),
    }
}

// What both have of the branch at this place, which the second may lack.
fn sum_at(a: &[BranchCounts], b: &[BranchCounts], i: usize) -> BranchCounts
    requires { i < length a.now }
    ensures { branch_sums (drop i a.now) (drop i b.now)
        ≡ result ∷ branch_sums (drop (i + 1) a.now) (drop (i + 1) b.now) }
{
    if i < b.len() {
        return both(a[i], b[i]);
    }
    a[i]
}

fn sum_branches(
    alloc: Global,
    a: &[BranchCounts],
    b: &[BranchCounts],
) -> Result<List<BranchCounts>, NoMemory>
    ensures { IfOk result (λ s. s ≡ branch_sums a.now b.now) }
{
    let mut sums = List::new(alloc);
    for i in 0..a.len() {
        sums.push(sum_at(a, b, i))?;
    }
    for i in a.len()..b.len() {
        sums.push(b[i])?;
    }
    Ok(sums)
}

#[tactic(auto, unfolding(gob_meaning::specs::Sums::sum_of))]
fn sum_counts(a: &Counts, b: &Counts) -> Result<Counts, NoMemory>
    ensures { IfOk result (λ s. s ≡ sum_of a.now b.now) }
{
    let branches = sum_branches(
        a.branches.allocator(),
        a.branches.as_slice(),
        b.branches.as_slice(),
    )?;
    Ok(Counts {
        records: a.records.saturating_add(b.records),
        bad: a.bad.saturating_add(b.bad),
        rows: a.rows.saturating_add(b.rows),
        unrouted: a.unrouted.saturating_add(b.unrouted),
        branches,
    })
}

// What the units that are committed counted, added up.
fn totals_with(
    totals: &Counts,
    results: &[UnitResult],
    policy: CommitPolicy,
    all: bool,
) -> Result<Counts, NoMemory>
    ensures { IfOk result (λ c. c ≡ totals_sum totals.now (filter (may_commit policy all) (verdicts_in results.now))) }
{
    let mut sum = totals.copy()?;
    for made in results {
        if is_allowed(policy, all, made) {
            sum = with_result(sum, made)?;
        }
    }
    Ok(sum)
}

// The counts with those of a good unit.
fn with_result(sum: Counts, made: &UnitResult) -> Result<Counts, NoMemory>
    ensures { IfOk result (λ c. c ≡ next.plus sum (next.counts_in (verdict_in made.now))) }
{
    match made {
        UnitResult::Good { counts, .. } => {
            let added = sum_counts(&sum, counts)?;
            Ok(added)
        }
        UnitResult::Failed { .. } => Ok(sum),
    }
}

fn next_run(run: u64) -> u64
    ensures { result ≡ saturate_u64 (run + 1) }
{
    run.saturating_add(1)
}

fn copy_state(state: &State) -> Result<State, NoMemory>
    ensures { IfOk result (λ s. s ≡ state.now) }
{
    Ok(State {
        run: state.run,
        pipelines: copy_texts(&state.pipelines)?,
        totals: state.totals.copy()?,
        marks: state.marks.copy()?,
    })
}

/// The state after a run over these units with these results: the fresh ones are owed, and those that the policy lets
/// be committed are done by this pipeline. Where it lets none, the state stays. It costs the units of the run, and one
/// copy of the state.
pub fn next_state(
    before: &State,
    pipeline: &str,
    units: &[Unit],
    results: &[UnitResult],
    policy: CommitPolicy,
) -> Result<State, NoMemory>
    requires proper { Proper before.now }
    requires counted { length results.now ≡ length units.now }
    requires fits { UnitsFit before.now.parts units.now }
    ensures next { IfOk result (λ s.
        s ≡ next.next_state before.now pipeline.now units.now (verdicts_in results.now) policy) }
    ensures proper { IfOk result (λ s. IsKeptPipeline pipeline.now → AreKept units.now results.now
        → length s.pipelines < 2 ^ 64 → Proper s) }
{
    let all = are_good(results);
    if !is_any_allowed(policy, all, results) {
        let same = copy_state(before)?;
        return Ok(same);
    }
    let place = place_of(before.pipelines.as_slice(), pipeline) as u64;
    let pipelines = pipelines_with(&before.pipelines, pipeline)?;
    let totals = totals_with(&before.totals, results, policy, all)?;
    let mut marks = before.marks.copy()?;
    add_units(&mut marks, units)?;
    finish_units(&mut marks, units, results, policy, all, place)?;
    Ok(State {
        run: next_run(before.run),
        pipelines,
        totals,
        marks,
    })
}
