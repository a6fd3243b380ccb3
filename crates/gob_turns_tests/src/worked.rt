//! Units that are worked on to their end.

ghost use Rattle.std.specs.Prelude.{◌≡◌, ◌<◌, true, IfOk};
ghost use Rattle.gob_meaning.specs.Plans.{is_fitting};
ghost use Rattle.gob_stage.specs.Attempt.{AreThere};
ghost use Rattle.gob_task.specs.Bench.{FitsBench};
ghost use Rattle.gob_task.specs.Task.{IsPullable};
ghost use Rattle.gob_task.specs.Turn.{StandsAfter};
ghost use Rattle.gob_turns_tests.specs.Turns.{is_last_turn};
ghost use Rattle.gob_volume.specs.MemVolume.{told_by};

use crate::given::{first_bytes, rules_of, source_of};
use crate::kinds::Lines;
use crate::plans::plan_of;
use gob_io::MemSource;
use gob_plan::{Plan, Unit, UnitResult};
use gob_task::{Bench, Task, TaskRules, Turn, TurnFault};
use gob_volume::MemVolume;
use std::alloc::Global;

/// A unit: what is done with its lines, its bytes, of which it has so many and one at least, the numbers of the pulls
/// that fail, and after how many changing calls each one of the volume fails.
#[derive(Clone, Copy)]
pub(crate) struct Work {
    pub lines: Lines,
    pub bytes: &'static [u8],
    pub hi: u64,
    pub fails: &'static [u64],
    pub calls: u64,
}

/// What a unit came to, which is nothing behind more than 64 turns, and its devices.
#[derive(Drop)]
pub(crate) struct Ran {
    pub result: Option<UnitResult>,
    pub source: MemSource,
    pub volume: MemVolume,
}

/// A unit is worked on as unit 7, in pieces of this length and with one retry.
pub(crate) fn run(alloc: Global, work: &Work, piece: u32) -> Result<Ran, TurnFault>
    requires { 0 < piece }
{
    let plan = plan_of(alloc, work.lines)?;
    run_plan(alloc, &plan, work, piece)
}

fn run_plan(alloc: Global, plan: &Plan, work: &Work, piece: u32) -> Result<Ran, TurnFault>
    requires fits { is_fitting plan.now ≡ true }
    requires piece { 0 < piece }
{
    let rules = rules_of(alloc, plan, piece)?;
    run_rules(alloc, &rules, work)
}

fn run_rules(alloc: Global, rules: &TaskRules, work: &Work) -> Result<Ran, TurnFault> {
    let unit = first_bytes(alloc, work.hi)?;
    let mut source = source_of(alloc, work.bytes, b"", work.fails)?;
    let mut volume = MemVolume::new(alloc, Vec::new(alloc));
    volume.fuse(work.calls);
    let result = worked(alloc, rules, &unit, &mut source, &mut volume)?;
    Ok(Ran {
        result,
        source,
        volume,
    })
}

// What comes of the unit.
fn worked(
    alloc: Global,
    rules: &TaskRules,
    unit: &Unit,
    source: &mut MemSource,
    volume: &mut MemVolume,
) -> Result<Option<UnitResult>, TurnFault>
    requires { IsPullable unit.now }
{
    let mut bench = Bench::new(alloc, rules)?;
    by_turns(alloc, rules, unit, &mut bench, source, volume)
}

// The same, turn by turn.
fn by_turns(
    alloc: Global,
    rules: &TaskRules,
    unit: &Unit,
    bench: &mut Bench,
    source: &mut MemSource,
    volume: &mut MemVolume,
) -> Result<Option<UnitResult>, TurnFault>
    requires pullable { IsPullable unit.now }
    requires bench { FitsBench rules.now bench.old }
{
    let mut task = Task::start(alloc, rules, unit, 7)?;
    let turn = last_turn(alloc, rules, &mut task, bench, source, volume)?;
    ended(alloc, rules, turn, task, volume)
}

// The turn that ends the task.
fn last_turn(
    alloc: Global,
    rules: &TaskRules,
    task: &mut Task,
    bench: &mut Bench,
    source: &mut MemSource,
    volume: &mut MemVolume,
) -> Result<Turn, TurnFault>
    requires stands { StandsAfter rules.now task.old Turn.Going }
    requires there { AreThere task.old.staged (told_by volume.old).files }
    requires bench { FitsBench rules.now bench.old }
    ensures stands { IfOk result (StandsAfter rules.now task.new) }
    ensures there { IfOk result (λ turn. AreThere task.new.staged (told_by volume.new).files) }
{
    for _ in 0..64 {
        let turn = task.turn(alloc, rules, bench, source, volume)?;
        if is_last(turn) {
            return Ok(turn);
        }
    }
    Ok(Turn::Going)
}

fn is_last(turn: Turn) -> bool
    ensures { result ≡ is_last_turn turn }
{
    match turn {
        Turn::Going => false,
        Turn::Retry => false,
        Turn::Failed(_) => true,
        Turn::Whole => true,
    }
}

// What the task comes to behind this turn.
fn ended(
    alloc: Global,
    rules: &TaskRules,
    turn: Turn,
    task: Task,
    volume: &mut MemVolume,
) -> Result<Option<UnitResult>, TurnFault>
    requires stands { StandsAfter rules.now task turn }
    requires there { AreThere task.staged (told_by volume.old).files }
{
    if let Turn::Whole = turn {
        let result = task.finish(alloc, rules, volume)?;
        return Ok(Some(result));
    }
    Ok(failed(turn))
}

fn failed(turn: Turn) -> Option<UnitResult> {
    match turn {
        Turn::Failed(cause) => Some(UnitResult::Failed { cause }),
        _ => None,
    }
}
