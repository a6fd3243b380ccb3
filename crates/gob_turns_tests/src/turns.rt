//! Which pulls a run makes, and which units it gives up.

ghost use Rattle.std.specs.Prelude.{◌≡◌, true, IfOk};
ghost use Rattle.gob_meaning.specs.Plans.{is_fitting};
ghost use Rattle.gob_turns.specs.Asked.{MayHaveTurns};
ghost use Rattle.gob_turns_tests.specs.Given.{rules_with, turns_given, given_units};
ghost use Rattle.gob_turns_tests.specs.Plans.{plan_for};

use crate::compare::{same_number, same_pull, same_truth};
use crate::given::{rules_of, source_of, unit_of};
use crate::kinds::Lines;
use crate::plans::plan_of;
use gob_io::{MemSource, Pulled};
use gob_plan::{Cause, List, NoMemory, Plan, TurnRules, Unit, UnitResult};
use gob_task::TaskRules;
use gob_turns::{TurnsFault, take_turns};
use gob_volume::MemVolume;
use std::alloc::Global;
use std::process::Abort;
use std::test::Fail;

/// A pull: its partition, its offset, and how many bytes it asks for.
type Pull = (&'static str, u64, u64);

const A0: Pull = ("a.log", 0, 3);

const A3: Pull = ("a.log", 3, 3);

const A6: Pull = ("a.log", 6, 2);

const B0: Pull = ("b.log", 0, 3);

const B3: Pull = ("b.log", 3, 2);

/// The turns that fail, the pulls that are answered, and how many records the first unit and the second have, which is
/// none where it is given up.
#[derive(Clone, Copy)]
struct Case {
    fails: &'static [u64],
    pulls: &'static [Pull],
    first: Option<u64>,
    second: Option<u64>,
}

const BOTH: Case = Case {
    fails: &[],
    pulls: &[B0, A0, B3, A3, A6],
    first: Some(2),
    second: Some(2),
};

/// Each list of turns that fail among the first four.
const CASES: [Case; 16] = [
    BOTH,
    Case {
        fails: &[0],
        pulls: &[A0, B0, A3, B3, A6],
        ..BOTH
    },
    Case {
        fails: &[1],
        pulls: &[B0, B3, A0, A3, A6],
        ..BOTH
    },
    Case {
        fails: &[0, 1],
        ..BOTH
    },
    Case {
        fails: &[2],
        pulls: &[B0, A0, A3, B0, A6, B3],
        ..BOTH
    },
    Case {
        fails: &[0, 2],
        pulls: &[A0, A3, A6],
        second: None,
        ..BOTH
    },
    Case {
        fails: &[1, 2],
        pulls: &[B0, A0, B0, A3, B3, A6],
        ..BOTH
    },
    Case {
        fails: &[0, 1, 2],
        pulls: &[A0, A3, A6],
        second: None,
        ..BOTH
    },
    Case {
        fails: &[3],
        pulls: &[B0, A0, B3, A0, A3, A6],
        ..BOTH
    },
    Case {
        fails: &[0, 3],
        pulls: &[A0, B0, B3, A0, A3, A6],
        ..BOTH
    },
    Case {
        fails: &[1, 3],
        pulls: &[B0, B3],
        first: None,
        ..BOTH
    },
    Case {
        fails: &[0, 1, 3],
        pulls: &[B0, B3],
        first: None,
        ..BOTH
    },
    Case {
        fails: &[2, 3],
        pulls: &[B0, A0, B0, A0, B3, A3, A6],
        ..BOTH
    },
    Case {
        fails: &[0, 2, 3],
        pulls: &[A0, A0, A3, A6],
        second: None,
        ..BOTH
    },
    Case {
        fails: &[1, 2, 3],
        pulls: &[B0, B0, B3],
        first: None,
        ..BOTH
    },
    Case {
        fails: &[0, 1, 2, 3],
        pulls: &[],
        first: None,
        second: None,
    },
];

/// What a run left.
#[derive(Drop)]
struct Ran {
    source: MemSource,
    results: List<UnitResult>,
    failed: List<u128>,
}

/// The turns of two units; the pulls with these numbers fail.
fn run(alloc: Global, fails: &[u64]) -> Result<Ran, TurnsFault> {
    let plan = plan_of(alloc, Lines::Plain)?;
    run_plan(alloc, &plan, fails)
}

fn run_plan(alloc: Global, plan: &Plan, fails: &[u64]) -> Result<Ran, TurnsFault>
    requires plain { plan.now ≡ plan_for Lines.Plain }
    requires fits { is_fitting plan.now ≡ true }
{
    let rules = rules_of(alloc, plan, 3)?;
    run_rules(alloc, &rules, fails)
}

fn run_rules(alloc: Global, rules: &TaskRules, fails: &[u64]) -> Result<Ran, TurnsFault>
    requires { rules.now ≡ rules_with (plan_for Lines.Plain) 3 }
{
    let turns = turns(alloc)?;
    let units = units(alloc)?;
    run_units(alloc, rules, &turns, units.as_slice(), fails)
}

fn run_units(
    alloc: Global,
    rules: &TaskRules,
    turns: &TurnRules,
    units: &[Unit],
    fails: &[u64],
) -> Result<Ran, TurnsFault>
    requires { MayHaveTurns rules.now turns.now units.now }
{
    let mut source = source_of(alloc, b"abc\ndef\n", b"gh\ni\n", fails)?;
    let mut volume = MemVolume::new(alloc, Vec::new(alloc));
    let mut failed = List::new(alloc);
    let results = take_turns(
        alloc,
        rules,
        turns,
        units,
        &mut source,
        &mut volume,
        &mut failed,
    )?;
    Ok(Ran {
        source,
        results,
        failed,
    })
}

fn turns(alloc: Global) -> Result<TurnRules, NoMemory>
    ensures { IfOk result (λ r. r ≡ turns_given) }
{
    let mut schedule = List::new(alloc);
    schedule.push(1)?;
    schedule.push(0)?;
    Ok(TurnRules {
        slots: 2,
        piece: 3,
        schedule,
    })
}

fn units(alloc: Global) -> Result<Vec<Unit>, NoMemory>
    ensures { IfOk result (λ v. v.items ≡ given_units) }
{
    let mut units = Vec::new(alloc);
    units.push(unit_of(alloc, "a.log", 8)?)?;
    units.push(unit_of(alloc, "b.log", 5)?)?;
    Ok(units)
}

/// How many records a unit has, which is none where it is given up.
fn records(of_unit: &UnitResult) -> Option<u64> {
    match of_unit {
        UnitResult::Good { counts, .. } => Some(counts.records),
        UnitResult::Failed { cause } => {
            if *cause == Cause::Fault {
                None
            } else {
                Some(0)
            }
        }
    }
}

fn check_pull(rt: &impl Abort, found: &Pulled, wanted: Pull) {
    let (part, at, len) = wanted;
    same_pull(rt, found, part, at, len);
}

fn check_pulls(rt: &impl Abort, found: &[Pulled], wanted: &[Pull]) {
    for i in 0..found.len() {
        if i < wanted.len() {
            check_pull(rt, &found[i], wanted[i]);
        }
    }
    same_number(rt, found.len() as u64, wanted.len() as u64);
}

fn check_failed(rt: &impl Abort, found: &[u128], wanted: &[u64]) {
    for i in 0..found.len() {
        if i < wanted.len() {
            same_truth(rt, found[i] == u128::from(wanted[i]), true);
        }
    }
    same_number(rt, found.len() as u64, wanted.len() as u64);
}

fn check_results(rt: &impl Abort, found: &[UnitResult], first: Option<u64>, second: Option<u64>) {
    match found {
        [a, b] => same_truth(rt, records(a) == first && records(b) == second, true),
        _ => same_truth(rt, false, true),
    }
}

fn check(rt: &impl Abort, alloc: Global, case: &Case) -> Result<(), Fail> {
    let ran = run(alloc, case.fails)?;
    check_pulls(rt, ran.source.pull_list(), case.pulls);
    check_failed(rt, ran.failed.as_slice(), case.fails);
    check_results(rt, ran.results.as_slice(), case.first, case.second);
    Ok(())
}

/// Units are pulled by the schedule; one whose turn failed begins anew, and is given up where it fails twice.
#[test]
fn units_take_turns_whichever_fail(rt: HostRuntime) -> Result<(), Fail> {
    for case in &CASES {
        check(&rt, rt.alloc(), case)?;
    }
    Ok(())
}
