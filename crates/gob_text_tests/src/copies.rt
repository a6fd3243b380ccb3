//! A whole plan, and all else that can be copied, of gob_plan: what is copied comes back.

use crate::compare::{same_bytes, same_text};
use gob_plan::{
    BranchCounts, BranchSpec, Bytes, Cause, Check, Column, Columns, Counter, Counts, ForkHow,
    ForkSpec, Format, How, Kind, Limits, List, Mode, NoMemory, PlaceSpec, Plan, PolicySpec,
    Refusal, Row, StagedFile, StepFault, StepSpec, TaskPolicy, TaskRule, TestSpec, Text, TurnRules,
    Unit, UnitResult, Value,
};
use std::alloc::Global;
use std::process::Abort;
use std::test::Fail;

pub(crate) fn text(alloc: Global, text: &str) -> Result<Text, NoMemory> {
    let mut copy = Text::new(alloc);
    copy.push(text)?;
    copy.copy()
}

fn texts(alloc: Global, first: &str, second: &str) -> Result<List<Text>, NoMemory> {
    let mut list = List::new(alloc);
    list.push(text(alloc, first)?)?;
    list.push(text(alloc, second)?)?;
    Ok(list)
}

pub(crate) fn one<T: Drop>(alloc: Global, item: T) -> Result<List<T>, NoMemory> {
    let mut list = List::with_capacity(alloc, 1)?;
    list.push(item)?;
    Ok(list)
}

fn column(alloc: Global, name: &str, kind: Kind) -> Result<Column, NoMemory> {
    let column = Column {
        name: text(alloc, name)?,
        kind,
    };
    column.copy()
}

/// The columns `b` of truth values, `n` of integers and `t` of texts.
pub(crate) fn columns(alloc: Global) -> Result<List<Column>, NoMemory> {
    let mut list = List::new(alloc);
    list.push(column(alloc, "b", Kind::Bool)?)?;
    list.push(column(alloc, "n", Kind::Int)?)?;
    list.push(column(alloc, "t", Kind::Text)?)?;
    Ok(list)
}

fn test_of(alloc: Global, name: &str, check: Check) -> Result<TestSpec, NoMemory> {
    Ok(TestSpec {
        negated: true,
        column: text(alloc, name)?,
        check,
    })
}

fn like(alloc: Global, pattern: &str) -> Result<Check, NoMemory> {
    Ok(Check::Like {
        pattern: text(alloc, pattern)?,
    })
}

fn at_least(value: i64) -> Check {
    Check::Compare {
        how: How::Ge,
        value: Value::Int(value),
    }
}

fn steps(alloc: Global) -> Result<List<StepSpec>, NoMemory> {
    let mut steps = List::new(alloc);
    steps.push(StepSpec::Keep {
        columns: texts(alloc, "b", "n")?,
    })?;
    steps.push(StepSpec::Rename {
        from: text(alloc, "n")?,
        to: text(alloc, "m")?,
    })?;
    steps.push(StepSpec::Where {
        test: test_of(alloc, "m", Check::Null)?,
    })?;
    Ok(steps)
}

fn branch(alloc: Global) -> Result<BranchSpec, NoMemory> {
    let policy = PolicySpec {
        test: test_of(alloc, "m", at_least(7))?,
        mode: Mode::ErrFile,
    };
    Ok(BranchSpec {
        policies: one(alloc, policy)?,
        place: PlaceSpec::Day {
            column: text(alloc, "m")?,
        },
        format: Format::Json,
        steps: steps(alloc)?,
    })
}

fn fork(alloc: Global) -> Result<ForkSpec, NoMemory> {
    Ok(ForkSpec {
        how: ForkHow::First,
        branches: 1,
        tests: one(alloc, test_of(alloc, "t", like(alloc, "a*")?)?)?,
    })
}

const RULE: TaskPolicy = TaskPolicy {
    rule: TaskRule::Range {
        counter: Counter::Written(0),
        low: 1,
        high: 9,
    },
    fails: true,
};

fn plan(alloc: Global, columns: Columns) -> Result<Plan, NoMemory> {
    Ok(Plan {
        format: Format::Csv,
        columns,
        skip_header: true,
        skip_errors: u64::MAX,
        task_policies: one(alloc, RULE)?,
        fork: fork(alloc)?,
        steps: steps(alloc)?,
        branches: one(alloc, branch(alloc)?)?,
    })
}

// A copy of a whole plan.
fn copied_plan(alloc: Global) -> Result<Plan, Fail> {
    let plan = plan(alloc, proper(columns(alloc)?)?)?;
    Ok(plan.copy()?)
}

fn step_in_words(alloc: Global, step: &StepSpec) -> Result<Text, NoMemory> {
    let mut words = Text::new(alloc);
    match step {
        StepSpec::Keep { columns } => {
            words.push("keep")?;
            for column in columns.as_slice() {
                words.push(" ")?;
                words.push(column.as_str())?;
            }
        }
        StepSpec::Rename { from, to } => {
            words.push("rename ")?;
            words.push(from.as_str())?;
            words.push(" ")?;
            words.push(to.as_str())?;
        }
        StepSpec::Where { test } => {
            words.push("where ")?;
            words.push(test.column.as_str())?;
        }
        _ => words.push("other")?,
    }
    Ok(words)
}

fn steps_in_words(alloc: Global, steps: &[StepSpec]) -> Result<Text, NoMemory> {
    let mut words = Text::new(alloc);
    for step in steps {
        words.push(step_in_words(alloc, step)?.as_str())?;
        words.push("; ")?;
    }
    Ok(words)
}

const STEPS: &str = "keep b n; rename n m; where m; ";

fn proper(list: List<Column>) -> Result<Columns, Fail> {
    Ok(Columns::new(list).ok().ok_or("columns")?)
}

fn place_column(place: &PlaceSpec) -> &str {
    match place {
        PlaceSpec::Plain => "",
        PlaceSpec::Day { column } => column.as_str(),
    }
}

fn check_steps(rt: &impl Abort, alloc: Global, steps: &[StepSpec]) -> Result<(), Fail> {
    same_text(rt, steps_in_words(alloc, steps)?.as_str(), STEPS);
    Ok(())
}

fn check_branch(rt: &impl Abort, alloc: Global, branch: &BranchSpec) -> Result<(), Fail> {
    check_steps(rt, alloc, branch.steps.as_slice())?;
    same_text(rt, place_column(&branch.place), "m");
    let policy = branch.policies.as_slice().first().ok_or("a policy")?;
    assert!(rt; policy.mode == Mode::ErrFile && policy.test.negated);
    same_text(rt, policy.test.column.as_str(), "m");
    Ok(())
}

fn check_fork(rt: &impl Abort, fork: &ForkSpec) {
    assert!(rt; fork.how == ForkHow::First && fork.branches == 1 && fork.tests.len() == 1);
}

fn check_plan(rt: &impl Abort, alloc: Global, plan: &Plan) -> Result<(), Fail> {
    assert_eq!(rt; plan.columns.find("t"), Some(2));
    assert!(rt; plan.format == Format::Csv && plan.skip_header && plan.skip_errors == u64::MAX);
    check_fork(rt, &plan.fork);
    assert!(rt; plan.task_policies.len() == 1);
    check_steps(rt, alloc, plan.steps.as_slice())?;
    let branch = plan.branches.as_slice().first().ok_or("a branch")?;
    check_branch(rt, alloc, branch)?;
    Ok(())
}

#[test]
fn a_plan_is_copied_whole(rt: HostRuntime) -> Result<(), Fail> {
    let plan = copied_plan(rt.alloc())?;
    check_plan(&rt, rt.alloc(), &plan)?;
    Ok(())
}

fn every_step(alloc: Global) -> Result<List<StepSpec>, NoMemory> {
    let mut steps = List::new(alloc);
    steps.push(StepSpec::Drop {
        columns: texts(alloc, "b", "n")?,
    })?;
    steps.push(StepSpec::Cast {
        column: text(alloc, "n")?,
        kind: Kind::Text,
    })?;
    steps.push(StepSpec::Set {
        column: text(alloc, "n")?,
        kind: Kind::Text,
        value: Value::Text(text(alloc, "v")?).copy()?,
    })?;
    steps.push(StepSpec::Explode {
        column: text(alloc, "t")?,
        separator: text(alloc, ",")?,
    })?;
    steps.push(StepSpec::Upper {
        column: text(alloc, "t")?,
    })?;
    Ok(steps)
}

fn copied_in_words(alloc: Global, step: &StepSpec) -> Result<Text, NoMemory> {
    let copy = step.copy()?;
    step_in_words(alloc, &copy)
}

fn check_copies(rt: &impl Abort, alloc: Global, steps: &[StepSpec]) -> Result<(), Fail> {
    for step in steps {
        let words = step_in_words(alloc, step)?;
        same_text(rt, copied_in_words(alloc, step)?.as_str(), words.as_str());
    }
    Ok(())
}

#[test]
fn each_step_is_copied(rt: HostRuntime) -> Result<(), Fail> {
    check_copies(&rt, rt.alloc(), every_step(rt.alloc())?.as_slice())?;
    check_copies(&rt, rt.alloc(), steps(rt.alloc())?.as_slice())?;
    Ok(())
}

#[test]
fn texts_bytes_and_rows_are_copied(rt: HostRuntime) -> Result<(), Fail> {
    let alloc = rt.alloc();
    let lent = Text::from_str(alloc, "a\u{e9}")?;
    same_text(&rt, lent.copy()?.into_string().as_str(), "a\u{e9}");
    let mut bytes = Bytes::from_slice(alloc, b"ab")?;
    bytes.push(b"c")?;
    same_bytes(&rt, &bytes.copy()?.into_vec(), b"abc");
    let row = Row {
        values: one(alloc, Value::Text(lent))?,
    };
    let copy = row.copy()?;
    match copy.values.as_slice() {
        [Value::Text(text)] => same_text(&rt, text.as_str(), "a\u{e9}"),
        _ => assert!(rt; false),
    }
    Ok(())
}

#[test]
fn rules_of_turns_are_copied(rt: HostRuntime) -> Result<(), Fail> {
    let rules = TurnRules {
        slots: 2,
        piece: 64,
        schedule: one(rt.alloc(), 1u32)?,
    };
    let rules = rules.copy()?;
    assert!(rt;
        rules.slots == 2 && rules.piece == 64 && rules.schedule.as_slice() == [1u32].as_slice()
    );
    Ok(())
}

#[test]
fn limits_are_copied(rt: HostRuntime) -> Result<(), Fail> {
    let limits = Limits {
        prefix: text(rt.alloc(), "web")?,
        max_bytes: 5,
        max_new_units: 6,
    };
    let limits = limits.copy()?;
    same_text(&rt, limits.prefix.as_str(), "web");
    assert!(rt; limits.max_bytes == 5 && limits.max_new_units == 6);
    Ok(())
}

fn counts(alloc: Global) -> Result<Counts, NoMemory> {
    let branch = BranchCounts {
        written: 1,
        errors: 2,
        optional: 3,
    };
    Ok(Counts {
        records: 4,
        bad: 5,
        rows: 6,
        unrouted: 7,
        branches: one(alloc, branch)?,
    })
}

fn staged(alloc: Global) -> Result<StagedFile, NoMemory> {
    Ok(StagedFile {
        from: text(alloc, "j/stage/0")?,
        to: text(alloc, "j/out/0")?,
    })
}

// A copy of the result of a good unit.
fn good(alloc: Global) -> Result<UnitResult, NoMemory> {
    let result = UnitResult::Good {
        warnings: one(alloc, 8u32)?,
        counts: counts(alloc)?,
        staged: one(alloc, staged(alloc)?)?,
    };
    result.copy()
}

fn same_counts(rt: &impl Abort, counts: &Counts) {
    assert!(rt; counts.records == 4 && counts.unrouted == 7 && counts.branches.len() == 1);
}

fn check_good(rt: &impl Abort, found: &UnitResult) -> Result<(), Fail> {
    let UnitResult::Good {
        counts,
        warnings,
        staged,
    } = found
    else {
        return Err(Fail::from("a good unit"));
    };
    same_counts(rt, counts);
    assert!(rt; warnings.as_slice() == [8u32].as_slice());
    let file = staged.as_slice().first().ok_or("a file")?;
    same_text(rt, file.from.as_str(), "j/stage/0");
    same_text(rt, file.to.as_str(), "j/out/0");
    Ok(())
}

fn is_bad_record(found: &UnitResult) -> bool {
    matches!(
        found,
        UnitResult::Failed {
            cause: Cause::BadRecords { at: 9 }
        }
    )
}

#[test]
fn results_of_units_are_copied(rt: HostRuntime) -> Result<(), Fail> {
    let good = good(rt.alloc())?;
    check_good(&rt, &good)?;
    let failed = UnitResult::Failed {
        cause: Cause::BadRecords { at: 9 },
    };
    assert!(rt; is_bad_record(&failed.copy()?));
    Ok(())
}

#[test]
fn units_are_copied(rt: HostRuntime) -> Result<(), Fail> {
    let unit = Unit {
        part: text(rt.alloc(), "p")?,
        lo: 1,
        hi: 2,
        fresh: true,
        listed: false,
    };
    let unit = unit.copy()?;
    same_text(&rt, unit.part.as_str(), "p");
    assert!(rt; unit.lo == 1 && unit.hi == 2 && unit.fresh && !unit.listed);
    Ok(())
}

fn copied_fault(alloc: Global) -> Result<StepFault, NoMemory> {
    let refusal = Refusal::BadKind {
        column: text(alloc, "n")?,
    };
    StepFault::Refused(refusal.copy()?).copy()
}

#[test]
fn faults_are_copied(rt: HostRuntime) -> Result<(), Fail> {
    let fault = copied_fault(rt.alloc())?;
    let told = format!(in rt.alloc(); "{fault}")?;
    same_text(
        &rt,
        told.as_str(),
        "the step is refused: the column n has another kind",
    );
    Ok(())
}
