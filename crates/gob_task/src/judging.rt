//! How a unit stands with the bytes that it was fed.
ghost use Rattle.std.specs.Prelude.{◌≡◌, ◌<◌, ◌^◌, ◌++◌, ◌∷◌, ℕ, true, [], length, IfOk, OnOk};
ghost use Rattle.std.specs.Prelude.{List as Items};
ghost use Rattle.gob_meaning.specs.Results.{warnings_of};
ghost use Rattle.gob_pipeline.specs.Machine.{WasFed};
ghost use Rattle.gob_task.specs.Judging.{warning_places};
ghost use Rattle.gob_task.specs.Turn.{TellsTurn, end_of_bytes};

use crate::Turn;
use gob_judge::{TaskVerdict, judge_task, warns};
use gob_pipeline::Machine;
use gob_plan::{Cause, Counts, List, NoMemory, Plan, TaskPolicy, Unit};
use std::alloc::Global;

/// How a turn ends, by what the machine of the unit knows.
pub fn judge(plan: &Plan, unit: &Unit, machine: &Machine) -> Turn
    requires few { length plan.now.task_policies < 2 ^ 32 }
    requires listed { unit.now.listed ≡ true }
    requires bytes { unit.now.lo < unit.now.hi }
    requires lo { machine.now.lo ≡ unit.now.lo }
    ensures { (fed : Items ℕ) → WasFed plan.now machine.now fed → TellsTurn result
        (end_of_bytes plan.now unit.now fed) }
{
    if let Some(cause) = machine.stopped() {
        return Turn::Failed(cause);
    }
    if machine.seen() < unit.hi - unit.lo {
        return Turn::Going;
    }
    if machine.torn() {
        return Turn::Failed(Cause::Torn);
    }
    match judge_task(plan.task_policies.as_slice(), machine.counts()) {
        TaskVerdict::Bad(index) => Turn::Failed(Cause::Policy { index }),
        TaskVerdict::Good => Turn::Whole,
    }
}

/// The places of the policies that only warn and that don't hold.
pub fn warnings(
    alloc: Global,
    policies: &[TaskPolicy],
    counts: &Counts,
) -> Result<List<u32>, NoMemory>
    requires few { length policies.now < 2 ^ 32 }
    ensures { IfOk result (λ list. list ≡ warnings_of policies.now counts.now) }
{
    let mut list = List::new(alloc);
    let mut index = 0;
    for policy in policies {
        add_warning(&mut list, policy, counts, index)?;
        index += 1;
    }
    Ok(list)
}

// Adds a policy's place where it only warns and doesn't hold.
fn add_warning(
    list: &mut List<u32>,
    policy: &TaskPolicy,
    counts: &Counts,
    index: u32,
) -> Result<(), NoMemory>
    ensures { OnOk result (list.new ≡ list.old ++ warning_places index (policy.now ∷ []) counts.now) }
{
    if warns(policy, counts) {
        list.push(index)?;
        return Ok(());
    }
    Ok(())
}
