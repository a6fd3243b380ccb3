//! One turn of one unit.
ghost use Rattle.std.specs.Prelude.{◌≡◌, ◌<◌, ℕ, List, true, not, IfOk, IfSome, OnErr};
ghost use Rattle.gob_device.specs.Causes.{HasCause, Rose};
ghost use Rattle.gob_device.specs.Disk.{Along};
ghost use Rattle.gob_recovery.specs.Commits.{OnlyBelow};
ghost use Rattle.gob_stage.specs.Attempt.{AreThere};
ghost use Rattle.gob_task.specs.Bench.{FitsBench};
ghost use Rattle.gob_task.specs.Task.{IsPullable, IsWhole};
ghost use Rattle.gob_turns.specs.OneTurn.{IsNextTask, StandsThen, StaysStill, devices, fails_in};
ghost use Rattle.gob_turns.specs.Standing.{StandsAs, is_open};
ghost use Rattle.gob_turns.specs.Underway.{HasTurned, KeepsOthers, StoppedIsTold};

use crate::TurnsFault;
use crate::progress::{Progress, Step};
use gob_io::Source;
use gob_plan::{Cause, NoMemory, Unit, UnitResult};
use gob_task::{Bench, Task, TaskRules, Turn, TurnFault};
use gob_volume::Volume;
use std::alloc::Global;
use std::mem;

/// Gives a unit its turn, the first of which starts its task.
pub fn turn_of<S: Source, V: Volume>(
    alloc: Global,
    rules: &TaskRules,
    unit: &Unit,
    place: u32,
    progress: &mut Progress,
    bench: &mut Bench,
    source: &mut S,
    volume: &mut V,
) -> Result<Step, TurnsFault>
    requires stands { StandsAs rules.now unit.now place (S.supply source.old) (V.disk volume.old) progress.old }
    requires may { is_open progress.old ≡ true }
    requires pullable { IsPullable unit.now }
    requires some { 0 < rules.now.piece }
    requires bench { FitsBench rules.now bench.old }
    ensures bench { FitsBench rules.now bench.new }
    ensures turned { IfOk result (λ step. HasTurned rules.now place unit.now progress.old progress.new step
        (devices (S.supply source.old) (S.faults source.old) (S.plan_faults source.old)
        (V.disk volume.old) (V.faults volume.old))
        (devices (S.supply source.new) (S.faults source.new) (S.plan_faults source.new)
        (V.disk volume.new) (V.faults volume.new))) }
    ensures stopped { OnErr result (StoppedIsTold rules.now place unit.now progress.old
        (devices (S.supply source.old) (S.faults source.old) (S.plan_faults source.old)
        (V.disk volume.old) (V.faults volume.old))
        (devices (S.supply source.new) (S.faults source.new) (S.plan_faults source.new)
        (V.disk volume.new) (V.faults volume.new))) }
    ensures keeps { KeepsOthers rules.now place
        (devices (S.supply source.old) (S.faults source.old) (S.plan_faults source.old)
        (V.disk volume.old) (V.faults volume.old))
        (devices (S.supply source.new) (S.faults source.new) (S.plan_faults source.new)
        (V.disk volume.new) (V.faults volume.new)) }
    ensures cause { result ≡ Err TurnsFault.Failed → Rose (V.faults volume.old) (V.faults volume.new) }
{
    let was = mem::replace(progress, Progress::Waits);
    let mut task = next_task(alloc, rules, unit, place, was)?;
    let turn = task.turn(alloc, rules, bench, source, volume)?;
    *progress = progress_after(alloc, rules, turn, task, volume)?;
    Ok(Step {
        failed: has_failed(turn),
        ended: has_ended(progress),
    })
}

// The unit's task; before the first turn it is a new one.
fn next_task(
    alloc: Global,
    rules: &TaskRules,
    unit: &Unit,
    place: u32,
    progress: Progress,
) -> Result<Box<Task>, NoMemory>
    requires may { is_open progress ≡ true }
    requires pullable { IsPullable unit.now }
    ensures { IfOk result (λ t. IsNextTask rules.now unit.now place progress t.value) }
{
    match progress {
        Progress::Waits => {
            let task = Task::start(alloc, rules, unit, place)?;
            match Box::new(alloc, task) {
                Ok(task) => Ok(task),
                Err(_) => Err(NoMemory),
            }
        }
        Progress::Runs(task) => Ok(task),
        Progress::Ended(_) => unreachable!(),
    }
}

// Where the unit stands behind its task's turn.
fn progress_after<V: Volume>(
    alloc: Global,
    rules: &TaskRules,
    turn: Turn,
    task: Box<Task>,
    volume: &mut V,
) -> Result<Progress, TurnFault>
    requires whole { turn ≡ Turn.Whole → (fed : List ℕ) × IsWhole rules.now.job rules.now.plan task.value fed }
    requires there { IfSome (V.disk volume.old) (λ d. AreThere task.value.staged d.files) }
    ensures stands { IfOk result (StandsThen rules.now turn task.value (V.disk volume.old) (V.disk volume.new)) }
    ensures still { StaysStill turn (V.disk volume.old) (V.disk volume.new) }
    ensures below { Along (OnlyBelow task.value.staged.folder) (V.disk volume.old) (V.disk volume.new) }
    ensures cause { HasCause (V.faults volume.old) (V.faults volume.new) (result ≡ Err TurnFault.Failed) }
{
    match turn {
        Turn::Going => Ok(Progress::Runs(task)),
        Turn::Retry => Ok(Progress::Runs(task)),
        Turn::Failed(cause) => Ok(Progress::Ended(UnitResult::Failed { cause })),
        Turn::Whole => {
            let task = Box::into_inner(task);
            let result = task.finish(alloc, rules, volume)?;
            Ok(Progress::Ended(result))
        }
    }
}

// Whether the pull of the turn failed.
fn has_failed(turn: Turn) -> bool
    ensures { result ≡ fails_in turn }
{
    match turn {
        Turn::Going => false,
        Turn::Retry => true,
        Turn::Failed(cause) => cause == Cause::Fault,
        Turn::Whole => false,
    }
}

fn has_ended(progress: &Progress) -> bool
    ensures { result ≡ not (is_open progress.now) }
{
    match progress {
        Progress::Waits => false,
        Progress::Runs(_) => false,
        Progress::Ended(_) => true,
    }
}
