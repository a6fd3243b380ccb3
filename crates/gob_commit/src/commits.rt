//! The commits of a run.

ghost use Rattle.std.specs.Prelude.{◌≡◌, ◌<◌, ◌≤◌, [], All, IfErr, IfOk, IfSome, OnOk, length};
ghost use Rattle.gob_bytes.specs.Paths.{under};
ghost use Rattle.gob_device.specs.Disk.{AddsMaps, Along};
ghost use Rattle.gob_ledger.specs.Spelling.{Proper};
ghost use Rattle.gob_recovery.specs.Commits.{OnlyBelow};
ghost use Rattle.gob_seq.specs.Faults.{RoseIfFailed};
ghost use Rattle.gob_commit.specs.Going.{CommitsAre, CommitsAlong, GoesOverAll, GoesToEnd, GroupEnds, GroupRises};
ghost use Rattle.gob_commit.specs.Going.{LeadsToLast, LeadsToNext, LeavesStaging};
ghost use Rattle.gob_commit.specs.Groups.{picked_items};
ghost use Rattle.gob_segments.specs.Loading.{LoadedFits};
ghost use Rattle.gob_commit.specs.Staged.{AreReadyToMove, CanCommit, all_pairs, state_or};

use crate::flags::committed;
use crate::group::commit_group;
use crate::places::{places_by_dataset, results_at, units_at};
use crate::{CommitRules, Committed};
use gob_plan::{CommitScope, NoMemory, Unit, UnitResult};
use gob_segments::Loaded;
use gob_seq::{CommitFault, clean_staging};
use gob_state::{State, empty_state};
use gob_volume::Volume;
use std::alloc::Global;

/// Commits the units of a run, group by group: of each group of which the policy lets a unit be committed, its staged
/// files and the state behind it, all of them or none, wherever it is stopped and then settled. Then it takes away what
/// is left of the staging.
pub fn commit_groups<V: Volume>(
    alloc: Global,
    rules: &CommitRules<'_>,
    volume: &mut V,
    loaded: Loaded,
    units: &[Unit],
    results: &[UnitResult],
) -> Result<Committed, CommitFault>
    requires can { CanCommit rules.now loaded units.now results.now }
    requires there { IfSome (V.disk volume.old) (λ d. AreReadyToMove rules.now.job.now
        (all_pairs results.now) d.files) }
    ensures value { IfOk result (CommitsAre rules.now loaded units.now results.now) }
    ensures proper { IfOk result (λ c. Proper c.after) }
    ensures along { AddsMaps (CommitsAlong rules.now loaded units.now results.now)
        (V.disk volume.old) (V.disk volume.new) }
    ensures ok { OnOk result (AddsMaps (GoesToEnd rules.now loaded units.now results.now)
        (V.disk volume.old) (V.disk volume.new)) }
    ensures below { Along (OnlyBelow (under rules.now.job.now [])) (V.disk volume.old) (V.disk volume.new) }
    ensures err { IfErr result (RoseIfFailed (V.faults volume.old) (V.faults volume.new)) }
    ensures goes_on { V.faults volume.old ≤ V.faults volume.new }
{
    let committed = committed(alloc, rules, units, results)?;
    let last = commit_each(alloc, rules, volume, loaded, units, results)?;
    clean_staging(alloc, volume, rules.job)?;
    let after = state_or_empty(alloc, rules.branches, last)?;
    Ok(Committed { after, committed })
}

/// The state that was loaded; where there is none it counts as the empty one.
pub fn state_or_empty(alloc: Global, branches: u32, loaded: Loaded) -> Result<State, NoMemory>
    requires branches { (1 ≤ branches) × (branches ≤ 8) }
    requires loaded { LoadedFits loaded }
    ensures state { IfOk result (λ s. s ≡ state_or branches loaded.state) }
    ensures proper { IfOk result (λ s. Proper s) }
{
    match loaded.state {
        Some(state) => Ok(state),
        None => {
            let empty = empty_state(alloc, branches)?;
            Ok(empty)
        }
    }
}

// Commits each group, and leaves the staging.
fn commit_each<V: Volume>(
    alloc: Global,
    rules: &CommitRules<'_>,
    volume: &mut V,
    loaded: Loaded,
    units: &[Unit],
    results: &[UnitResult],
) -> Result<Loaded, CommitFault>
    requires can { CanCommit rules.now loaded units.now results.now }
    requires there { IfSome (V.disk volume.old) (λ d. AreReadyToMove rules.now.job.now
        (all_pairs results.now) d.files) }
    ensures value { IfOk result (LeadsToLast rules.now loaded units.now results.now) }
    ensures along { AddsMaps (CommitsAlong rules.now loaded units.now results.now)
        (V.disk volume.old) (V.disk volume.new) }
    ensures ok { OnOk result (AddsMaps (GoesOverAll rules.now loaded units.now results.now)
        (V.disk volume.old) (V.disk volume.new)) }
    ensures below { Along (OnlyBelow (under rules.now.job.now [])) (V.disk volume.old) (V.disk volume.new) }
    ensures err { IfErr result (RoseIfFailed (V.faults volume.old) (V.faults volume.new)) }
    ensures goes_on { V.faults volume.old ≤ V.faults volume.new }
{
    match rules.scope {
        CommitScope::Job => {
            let last = commit_group(alloc, rules, volume, loaded, units, results)?;
            Ok(last)
        }
        CommitScope::Dataset => {
            let last = commit_datasets(alloc, rules, volume, loaded, units, results)?;
            Ok(last)
        }
    }
}

// The same, where each dataset has its own commit. It costs a copy of a dataset's units and results at a time.
fn commit_datasets<V: Volume>(
    alloc: Global,
    rules: &CommitRules<'_>,
    volume: &mut V,
    loaded: Loaded,
    units: &[Unit],
    results: &[UnitResult],
) -> Result<Loaded, CommitFault>
    requires scope { rules.now.scope ≡ CommitScope.Dataset }
    requires can { CanCommit rules.now loaded units.now results.now }
    requires there { IfSome (V.disk volume.old) (λ d. AreReadyToMove rules.now.job.now
        (all_pairs results.now) d.files) }
    ensures value { IfOk result (LeadsToLast rules.now loaded units.now results.now) }
    ensures along { AddsMaps (CommitsAlong rules.now loaded units.now results.now)
        (V.disk volume.old) (V.disk volume.new) }
    ensures ok { OnOk result (AddsMaps (GoesOverAll rules.now loaded units.now results.now)
        (V.disk volume.old) (V.disk volume.new)) }
    ensures below { Along (OnlyBelow (under rules.now.job.now [])) (V.disk volume.old) (V.disk volume.new) }
    ensures err { IfErr result (RoseIfFailed (V.faults volume.old) (V.faults volume.new)) }
    ensures goes_on { V.faults volume.old ≤ V.faults volume.new }
{
    let groups = places_by_dataset(alloc, units)?;
    let mut last = loaded;
    for places in groups.as_slice() {
        last = commit_places(
            alloc,
            rules,
            volume,
            last,
            units,
            results,
            places.as_slice(),
        )?;
    }
    Ok(last)
}

// Commits the units at these places.
fn commit_places<V: Volume>(
    alloc: Global,
    rules: &CommitRules<'_>,
    volume: &mut V,
    loaded: Loaded,
    units: &[Unit],
    results: &[UnitResult],
    places: &[usize],
) -> Result<Loaded, CommitFault>
    requires counted { length results.now ≡ length units.now }
    requires within { All (λ p. p < length units.now) places.now }
    requires can { CanCommit rules.now loaded (picked_items units.now places.now)
        (picked_items results.now places.now) }
    requires there { IfSome (V.disk volume.old)
        (λ d. AreReadyToMove rules.now.job.now (all_pairs (picked_items results.now places.now)) d.files) }
    ensures value { IfOk result
        (LeadsToNext rules.now loaded (picked_items units.now places.now) (picked_items results.now places.now)) }
    ensures rises { AddsMaps (GroupRises rules.now loaded (picked_items units.now places.now)
        (picked_items results.now places.now))
        (V.disk volume.old) (V.disk volume.new) }
    ensures ok { IfOk result (λ after. AddsMaps (GroupEnds rules.now loaded (picked_items units.now places.now)
        (picked_items results.now places.now) after) (V.disk volume.old) (V.disk volume.new)) }
    ensures rest { OnOk result (AddsMaps (LeavesStaging rules.now.job.now
        (all_pairs (picked_items results.now places.now)))
        (V.disk volume.old) (V.disk volume.new)) }
    ensures below { Along (OnlyBelow (under rules.now.job.now [])) (V.disk volume.old) (V.disk volume.new) }
    ensures err { IfErr result (RoseIfFailed (V.faults volume.old) (V.faults volume.new)) }
    ensures goes_on { V.faults volume.old ≤ V.faults volume.new }
{
    let group = units_at(alloc, units, places)?;
    let made = results_at(alloc, results, places)?;
    let after = commit_group(
        alloc,
        rules,
        volume,
        loaded,
        group.as_slice(),
        made.as_slice(),
    )?;
    Ok(after)
}
