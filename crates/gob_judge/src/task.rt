//! What the policies of a task say of a unit's counts.
ghost use Rattle.std.specs.Prelude.{◌≡◌, ◌<◌, ◌^◌, length};
ghost use Rattle.std.specs.List.{enumerate_from};
ghost use Rattle.gob_meaning.specs.Results.{count_of, first_failing, rule_holds, warns_task};
ghost use Rattle.gob_judge.specs.Verdicts.{branch_counted, failed_policy};

use gob_plan::{BranchCounts, Counter, Counts, TaskPolicy, TaskRule};

/// What a unit's counts are by the policies of its task.
#[derive(Clone, Copy, Debug, PartialEq, Eq)]
pub enum TaskVerdict {
    Good,
    /// The first policy that fails the unit, by its place.
    Bad(u32),
}

/// Judges a unit by its counts: the first policy that isn't optional and doesn't hold fails it.
pub fn judge_task(policies: &[TaskPolicy], counts: &Counts) -> TaskVerdict
    requires few { length policies.now < 2 ^ 32 }
    ensures verdict { failed_policy result ≡ first_failing (enumerate_from 0 policies.now) counts.now }
{
    let mut index = 0;
    for policy in policies {
        if policy.fails && !holds(policy.rule, counts) {
            return TaskVerdict::Bad(index);
        }
        index += 1;
    }
    TaskVerdict::Good
}

/// An optional policy that doesn't hold warns.
pub fn warns(policy: &TaskPolicy, counts: &Counts) -> bool
    ensures { result ≡ warns_task policy.now counts.now }
{
    !policy.fails && !holds(policy.rule, counts)
}

// Products of two `u64` are exact in a `u128`.
fn holds(rule: TaskRule, counts: &Counts) -> bool
    ensures { result ≡ rule_holds rule counts.now }
{
    match rule {
        TaskRule::Range { counter, low, high } => {
            let count = count_of(counter, counts);
            low <= count && count <= high
        }
        TaskRule::Share {
            counter,
            of,
            permille,
        } => {
            let part = u128::from(count_of(counter, counts));
            let whole = u128::from(count_of(of, counts));
            part * 1000 <= whole * u128::from(permille)
        }
    }
}

fn count_of(counter: Counter, counts: &Counts) -> u64
    ensures { result ≡ count_of counter counts.now }
{
    match counter {
        Counter::Records => counts.records,
        Counter::Bad => counts.bad,
        Counter::Rows => counts.rows,
        Counter::Unrouted => counts.unrouted,
        Counter::Written(branch) => branch_of(counts, branch).written,
        Counter::Errors(branch) => branch_of(counts, branch).errors,
        Counter::Optional(branch) => branch_of(counts, branch).optional,
    }
}

// A branch that isn't there made nothing.
fn branch_of(counts: &Counts, branch: u32) -> BranchCounts
    ensures { result ≡ branch_counted branch counts.now }
{
    match counts.branches.as_slice().get(branch as usize) {
        Some(found) => *found,
        None => BranchCounts {
            written: 0,
            errors: 0,
            optional: 0,
        },
    }
}
