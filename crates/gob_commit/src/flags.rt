//! Which units are committed.

ghost use Rattle.std.specs.Prelude.{◌≡◌, length, map, IfOk};
ghost use Rattle.std.specs.List.{list_all};
ghost use Rattle.gob_plan.specs.declared.plan.CommitScope.TheVariants as scope;
ghost use Rattle.gob_ledger.specs.Next as next;
ghost use Rattle.gob_ledger.specs.Groups.{is_committed};
ghost use Rattle.gob_state.specs.Committed.{judged_by, may_commit, verdict_in, verdicts_in};
ghost use Rattle.gob_commit.specs.Groups.{BadAre};

use crate::CommitRules;
use gob_judge::dataset_of;
use gob_plan::{CommitScope, List, NoMemory, Unit, UnitResult};
use gob_state::{are_good, is_allowed, is_good};
use std::alloc::Global;
use std::collections::HashSet;

/// Of each unit, whether the policy lets it be committed, as it judges the unit's group.
pub(crate) fn committed(
    alloc: Global,
    rules: &CommitRules<'_>,
    units: &[Unit],
    results: &[UnitResult],
) -> Result<List<bool>, NoMemory>
    requires { length results.now ≡ length units.now }
    ensures { IfOk result (λ flags. flags ≡ map (is_committed rules.now.scope rules.now.policy
        (judged_by units.now results.now)) (judged_by units.now results.now)) }
{
    match rules.scope {
        CommitScope::Job => {
            let flags = in_job(alloc, rules, results)?;
            Ok(flags)
        }
        CommitScope::Dataset => {
            let flags = in_datasets(alloc, rules, units, results)?;
            Ok(flags)
        }
    }
}

fn in_job(
    alloc: Global,
    rules: &CommitRules<'_>,
    results: &[UnitResult],
) -> Result<List<bool>, NoMemory>
    ensures { IfOk result (λ flags. flags ≡ map (λ made. may_commit rules.now.policy
        (list_all next.is_good (verdicts_in results.now)) (verdict_in made)) results.now) }
{
    let all = are_good(results);
    let mut flags = List::new(alloc);
    for made in results {
        flags.push(is_allowed(rules.policy, all, made))?;
    }
    Ok(flags)
}

fn in_datasets(
    alloc: Global,
    rules: &CommitRules<'_>,
    units: &[Unit],
    results: &[UnitResult],
) -> Result<List<bool>, NoMemory>
    requires { length results.now ≡ length units.now }
    ensures { IfOk result (λ flags. flags ≡ map (is_committed scope.Dataset rules.now.policy
        (judged_by units.now results.now)) (judged_by units.now results.now)) }
{
    let bad = bad_datasets(alloc, units, results)?;
    let mut flags = List::new(alloc);
    for i in 0..units.len() {
        let dataset = dataset_of(units[i].part.as_str());
        let all = !bad.contains(&dataset);
        flags.push(is_allowed(rules.policy, all, &results[i]))?;
    }
    Ok(flags)
}

// The datasets with a unit that isn't good.
fn bad_datasets<'a>(
    alloc: Global,
    units: &'a [Unit],
    results: &[UnitResult],
) -> Result<HashSet<&'a str>, NoMemory>
    requires { length results.now ≡ length units.now }
    ensures { IfOk result (BadAre (judged_by units.now results.now)) }
{
    let mut bad = HashSet::new(alloc);
    for i in 0..units.len() {
        if is_good(&results[i]) {
            continue;
        }
        let dataset = dataset_of(units[i].part.as_str());
        bad.insert(dataset)?;
    }
    Ok(bad)
}
