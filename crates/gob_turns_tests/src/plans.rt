//! Plans of one branch, which takes every row and writes it as it was read.

ghost use Rattle.std.specs.Prelude.{◌≡◌, true, IfOk};
ghost use Rattle.gob_meaning.specs.Plans.{is_fitting};
ghost use Rattle.gob_turns_tests.specs.Plans.{branches_for, only_column, format_for, kind_for};
ghost use Rattle.gob_turns_tests.specs.Plans.{plan_for, policies_for, rules_for};

use crate::kinds::Lines;
use gob_plan::{
    BranchSpec, Check, Column, Columns, Counter, ForkHow, ForkSpec, Format, Kind, List, Mode,
    NoMemory, PlaceSpec, Plan, PolicySpec, TaskPolicy, TaskRule, TestSpec, Text,
};
use std::alloc::Global;

#[tactic(auto, using(crate::proofs::Fitting::fits))]
pub(crate) fn plan_of(alloc: Global, lines: Lines) -> Result<Plan, NoMemory>
    ensures plan { IfOk result (λ plan. plan ≡ plan_for lines) }
    ensures fits { IfOk result (λ plan. is_fitting plan ≡ true) }
{
    let columns = columns(alloc, kind_of(lines))?;
    let branches = branches(alloc, lines)?;
    let task_policies = task_policies(alloc, lines)?;
    Ok(Plan {
        format: format_of(lines),
        columns,
        skip_header: false,
        steps: List::new(alloc),
        skip_errors: 1,
        fork: ForkSpec {
            how: ForkHow::All,
            branches: 1,
            tests: List::new(alloc),
        },
        branches,
        task_policies,
    })
}

fn kind_of(lines: Lines) -> Kind
    ensures { result ≡ kind_for lines }
{
    match lines {
        Lines::Numbers => Kind::Int,
        _ => Kind::Text,
    }
}

fn format_of(lines: Lines) -> Format
    ensures { result ≡ format_for lines }
{
    match lines {
        Lines::Numbers => Format::Csv,
        _ => Format::Lines,
    }
}

fn columns(alloc: Global, kind: Kind) -> Result<Columns, NoMemory>
    ensures { IfOk result (λ columns. columns ≡ only_column kind) }
{
    let name = Text::from_str(alloc, "line")?;
    let mut list = List::new(alloc);
    list.push(Column { name, kind })?;
    match Columns::new(list) {
        Ok(columns) => Ok(columns),
        Err(_) => Err(NoMemory),
    }
}

fn branches(alloc: Global, lines: Lines) -> Result<List<BranchSpec>, NoMemory>
    ensures { IfOk result (λ branches. branches ≡ branches_for lines) }
{
    let policies = policies(alloc, lines)?;
    let mut branches = List::new(alloc);
    branches.push(BranchSpec {
        steps: List::new(alloc),
        policies,
        format: format_of(lines),
        place: PlaceSpec::Plain,
    })?;
    Ok(branches)
}

fn policies(alloc: Global, lines: Lines) -> Result<List<PolicySpec>, NoMemory>
    ensures { IfOk result (λ policies. policies ≡ policies_for lines) }
{
    let mut policies = List::new(alloc);
    if let Lines::Short = lines {
        let column = Text::from_str(alloc, "line")?;
        let test = TestSpec {
            negated: false,
            column,
            check: Check::Bytes { low: 0, high: 3 },
        };
        policies.push(PolicySpec {
            test,
            mode: Mode::Fail,
        })?;
    }
    Ok(policies)
}

fn task_policies(alloc: Global, lines: Lines) -> Result<List<TaskPolicy>, NoMemory>
    ensures { IfOk result (λ policies. policies ≡ rules_for lines) }
{
    let mut policies = List::new(alloc);
    if let Lines::Single = lines {
        policies.push(TaskPolicy {
            rule: TaskRule::Range {
                counter: Counter::Records,
                low: 1,
                high: 1,
            },
            fails: true,
        })?;
    }
    Ok(policies)
}
