//! The commit of one group.

ghost use Rattle.std.specs.Prelude.{◌≡◌, ◌≤◌, [], false, true, IfErr, IfOk, IfSome, OnOk};
ghost use Rattle.gob_bytes.specs.Paths.{under};
ghost use Rattle.gob_device.specs.Disk.{AddsMaps, Along};
ghost use Rattle.gob_ledger.specs.Delta.{StateFollows, change_of, wants_whole};
ghost use Rattle.gob_ledger.specs.Next as next;
ghost use Rattle.gob_ledger.specs.Spelling.{Proper};
ghost use Rattle.gob_recovery.specs.Commits.{OnlyBelow};
ghost use Rattle.gob_recovery.specs.Sequence.{is_file_name};
ghost use Rattle.gob_seq.specs.Faults.{RoseIfFailed};
ghost use Rattle.gob_state.specs.Committed.{verdicts_in};
ghost use Rattle.gob_commit.specs.Going.{GroupEnds, GroupRises, LeadsToNext, LeavesStaging, StepsEnd, StepsRise};
ghost use Rattle.gob_segments.specs.Loading.{LoadedFits};
ghost use Rattle.gob_commit.specs.Staged.{AreReadyToMove, CanCommit, NamesFit, UnitsCanCommit, all_pairs, state_or};

use crate::CommitRules;
use crate::sequence::{sequence_of, staged_state_name};
use gob_plan::{NoMemory, Unit, UnitResult};
use gob_segments::{Loaded, state_change};
use gob_seq::{CommitFault, commit_part, write_file};
use gob_state::{State, are_good, empty_state, is_any_allowed, next_state};
use gob_volume::Volume;
use std::alloc::Global;

/// Commits these units together, where the policy lets one of them be committed, and answers what is then kept. What
/// other units have staged stays.
pub(crate) fn commit_group<V: Volume>(
    alloc: Global,
    rules: &CommitRules<'_>,
    volume: &mut V,
    loaded: Loaded,
    units: &[Unit],
    results: &[UnitResult],
) -> Result<Loaded, CommitFault>
    requires can { CanCommit rules.now loaded units.now results.now }
    requires there { IfSome (V.disk volume.old) (λ d. AreReadyToMove rules.now.job.now
        (all_pairs results.now) d.files) }
    ensures value { IfOk result (LeadsToNext rules.now loaded units.now results.now) }
    ensures rises { AddsMaps (GroupRises rules.now loaded units.now results.now)
        (V.disk volume.old) (V.disk volume.new) }
    ensures ok { IfOk result (λ after. AddsMaps (GroupEnds rules.now loaded units.now results.now after)
        (V.disk volume.old) (V.disk volume.new)) }
    ensures rest { OnOk result (AddsMaps (LeavesStaging rules.now.job.now (all_pairs results.now))
        (V.disk volume.old) (V.disk volume.new)) }
    ensures below { Along (OnlyBelow (under rules.now.job.now [])) (V.disk volume.old) (V.disk volume.new) }
    ensures err { IfErr result (RoseIfFailed (V.faults volume.old) (V.faults volume.new)) }
    ensures goes_on { V.faults volume.old ≤ V.faults volume.new }
{
    if !is_any_allowed(rules.policy, are_good(results), results) {
        return Ok(loaded);
    }
    let next = next_of(alloc, rules, &loaded, units, results)?;
    let deltas = commit_change(alloc, volume, rules.job, &loaded, &next, results)?;
    Ok(Loaded {
        state: Some(next),
        deltas,
        version: 2,
    })
}

// The state behind the commit of these units.
fn next_of(
    alloc: Global,
    rules: &CommitRules<'_>,
    loaded: &Loaded,
    units: &[Unit],
    results: &[UnitResult],
) -> Result<State, NoMemory>
    requires { CanCommit rules.now loaded.now units.now results.now }
    ensures next { IfOk result (λ s. s ≡ next.next_state (state_or rules.now.branches loaded.now.state)
        rules.now.pipeline.now units.now (verdicts_in results.now) rules.now.policy) }
    ensures proper { IfOk result (λ s. Proper s) }
{
    match &loaded.state {
        Some(state) => {
            let next = proper_next(state, rules, units, results)?;
            Ok(next)
        }
        None => {
            let empty = empty_state(alloc, rules.branches)?;
            let next = proper_next(&empty, rules, units, results)?;
            Ok(next)
        }
    }
}

// The state can be kept: it has no more pipelines than a list can hold.
fn proper_next(
    before: &State,
    rules: &CommitRules<'_>,
    units: &[Unit],
    results: &[UnitResult],
) -> Result<State, NoMemory>
    requires before { Proper before.now }
    requires can { UnitsCanCommit rules.now before.now units.now results.now }
    ensures next { IfOk result (λ s. s ≡ next.next_state before.now rules.now.pipeline.now units.now
        (verdicts_in results.now) rules.now.policy) }
    ensures proper { IfOk result (λ s. Proper s) }
{
    let next = next_state(before, rules.pipeline, units, results, rules.policy)?;
    let _pipelines = next.pipelines.len();
    Ok(next)
}

// Stages the state and does the commit's sequence, and answers how many changes are kept then.
fn commit_change<V: Volume>(
    alloc: Global,
    volume: &mut V,
    job: &str,
    before: &Loaded,
    after: &State,
    results: &[UnitResult],
) -> Result<u64, CommitFault>
    requires job { is_file_name job.now ≡ true }
    requires before { LoadedFits before.now }
    requires after { Proper after.now }
    requires follows { IfSome before.now.state (λ s.
        wants_whole before.now.version before.now.deltas after.now ≡ false → StateFollows s after.now) }
    requires names { NamesFit job.now (all_pairs results.now) }
    requires there { IfSome (V.disk volume.old) (λ d. AreReadyToMove job.now (all_pairs results.now) d.files) }
    ensures deltas { IfOk result (λ deltas. deltas
        ≡ (change_of job.now before.now.state before.now.deltas before.now.version after.now).changes) }
    ensures rises { AddsMaps (StepsRise job.now
        (change_of job.now before.now.state before.now.deltas before.now.version after.now) (all_pairs results.now))
        (V.disk volume.old) (V.disk volume.new) }
    ensures ok { OnOk result (AddsMaps (StepsEnd job.now
        (change_of job.now before.now.state before.now.deltas before.now.version after.now) (all_pairs results.now))
        (V.disk volume.old) (V.disk volume.new)) }
    ensures below { Along (OnlyBelow (under job.now [])) (V.disk volume.old) (V.disk volume.new) }
    ensures err { IfErr result (RoseIfFailed (V.faults volume.old) (V.faults volume.new)) }
    ensures goes_on { V.faults volume.old ≤ V.faults volume.new }
{
    let change = state_change(job, before, after)?;
    let sequence = sequence_of(alloc, job, &change, results)?;
    let staged = staged_state_name(alloc, job)?;
    write_file(volume, staged.as_str(), change.bytes.as_slice())?;
    commit_part(alloc, volume, job, &sequence)?;
    Ok(change.deltas)
}
