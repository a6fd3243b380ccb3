//! One unit's task, and its turns.
ghost use Rattle.std.specs.Prelude.{◌≡◌, ◌≢◌, ◌<◌, ◌≤◌, ◌+◌, ◌*◌, true, ℕ, List, [], length, take, option_map, IfOk};
ghost use Rattle.std.specs.Prelude.{IfSome, IsErr, OnErr, OnOk};
ghost use Rattle.gob_bytes.specs.Escapes.{AreBytes};
ghost use Rattle.gob_stage.specs.Attempt.{AreThere};
ghost use Rattle.gob_recovery.specs.Sequence.{is_file_name};
ghost use Rattle.gob_device.specs.Causes.{CountsFailure, HasCause};
ghost use Rattle.gob_device.specs.Supply.{Pull, bytes_from, with_pull};
ghost use Rattle.gob_device.specs.Disk.{Along, Files};
ghost use Rattle.gob_recovery.specs.Commits.{OnlyBelow};
ghost use Rattle.gob_task.specs.Finish.{IsFinished};
ghost use Rattle.gob_task.specs.Task.{HasBegun, IsPullable, IsWhole, StandsBehind, unit_length};
ghost use Rattle.gob_task.specs.Turn.{BytesTaken, StandsAfter, TellsTurn, TurnDone, end_of_failure};
ghost use Rattle.gob_task.specs.Bench.{FitsBench};

use crate::TurnFault;
use crate::judging::{judge, warnings};
use crate::names::TargetNames;
use crate::staging::stage;
use gob_io::Source;
use gob_pipeline::{Machine, Pipeline, TargetBuffers, Workspace};
use gob_plan::{Cause, Failed, NoMemory, Text, Unit, UnitResult};
use gob_stage::Attempt;
use gob_volume::Volume;
use std::alloc::Global;
use std::marker::Model;

/// What a turn came to.
#[derive(Clone, Copy, PartialEq, Eq)]
pub enum Turn {
    /// Bytes of the unit are left, for a later turn.
    Going,
    /// The source failed, and the unit begins anew with its next turn.
    Retry,
    /// The unit has ended, for this cause.
    Failed(Cause),
    /// All bytes of the unit were pulled, and it is good: `finish` tells what it made.
    Whole,
}

/// What all tasks of a run share, and no turn changes.
#[derive(Drop)]
pub struct TaskRules {
    job: Text,
    pipeline: Pipeline,
    piece: u32,
    max_retries: u32,
    ghost named: { is_file_name job ≡ true },
    ghost pulls: { 0 < piece },
}

impl Model for TaskRules {
    ghost use Rattle.gob_task.specs.Turn.{TurnRulesValue};

    ghost Value = { TurnRulesValue };

    ghost view = { λ r. record { job = r.job; plan = r.pipeline; piece = r.piece; max_retries = r.max_retries } };
}

impl TaskRules {
    /// A job's name, its pipeline, the most bytes of one pull, and how often a unit is tried anew.
    pub fn new(job: Text, pipeline: Pipeline, piece: u32, max_retries: u32) -> TaskRules
        requires named { is_file_name job ≡ true }
        requires pulls { 0 < piece }
        ensures { result ≡ record { job = job; plan = pipeline; piece = piece; max_retries = max_retries } }
    {
        TaskRules {
            job,
            pipeline,
            piece,
            max_retries,
        }
    }
}

/// What turns work with, lent from turn to turn: one serves all tasks of a run.
#[derive(Drop)]
pub struct Bench {
    piece: Vec<u8>,
    workspace: Workspace,
    buffers: TargetBuffers,
}

impl Model for Bench {
    ghost use Rattle.std.specs.Prelude.{length};
    ghost use Rattle.gob_task.specs.Bench.{BenchValue};

    ghost Value = { BenchValue };

    ghost view = { λ b. record { piece = length b.piece.items; slots = length b.buffers } };
}

impl Bench {
    pub fn new(alloc: Global, rules: &TaskRules) -> Result<Bench, NoMemory>
        ensures { IfOk result (FitsBench rules.now) }
    {
        let branches = rules.pipeline.plan().branches.len() as u32;
        let buffers = TargetBuffers::new(alloc, branches)?;
        let piece = vec![in alloc; 0u8; rules.piece as usize]?;
        let workspace = Workspace::new(alloc);
        Ok(Bench {
            piece,
            workspace,
            buffers,
        })
    }
}

/// The work on one unit: it pulls the unit's bytes turn by turn, feeds them, and stages what they make. Where a pull
/// fails the unit is tried anew from its beginning, by another attempt with files of its own.
#[derive(Drop)]
pub struct Task {
    unit: Unit,
    index: u32,
    failures: u32,
    machine: Machine,
    names: TargetNames,
    staged: Attempt,
}

impl Model for Task {
    ghost use Rattle.gob_task.specs.Task.{TaskValue};

    ghost Value = { TaskValue };

    ghost view = { λ t. record {
      unit = t.unit;
      index = t.index;
      failures = t.failures;
      machine = t.machine;
      names = t.names;
      staged = t.staged;
    } };
}

impl Task {
    /// The first attempt at a unit with this number, before its first turn.
    pub fn start(
        alloc: Global,
        rules: &TaskRules,
        unit: &Unit,
        index: u32,
    ) -> Result<Task, NoMemory>
        requires { IsPullable unit.now }
        ensures { IfOk result (HasBegun rules.now.job rules.now.plan unit.now index 0) }
    {
        let task = Task::begin(alloc, rules, unit, index, 0)?;
        Ok(task)
    }

    // An attempt behind so many that failed.
    fn begin(
        alloc: Global,
        rules: &TaskRules,
        unit: &Unit,
        index: u32,
        failures: u32,
    ) -> Result<Task, NoMemory>
        requires { IsPullable unit.now }
        ensures { IfOk result (HasBegun rules.now.job rules.now.plan unit.now index failures) }
    {
        let unit = unit.copy()?;
        let machine = Machine::new(alloc, &rules.pipeline, unit.lo)?;
        let names = TargetNames::new(alloc);
        let staged = Attempt::new(alloc, rules.job.as_str(), index, failures)?;
        Ok(Task {
            unit,
            index,
            failures,
            machine,
            names,
            staged,
        })
    }

    /// One turn: one pull of a piece or of what is left, and one append to each target that the piece made bytes for.
    /// After an error the task has no further turn.
    pub fn turn<S: Source, V: Volume>(
        &mut self,
        alloc: Global,
        rules: &TaskRules,
        bench: &mut Bench,
        source: &mut S,
        volume: &mut V,
    ) -> Result<Turn, TurnFault>
        requires stands { (fed : List ℕ) × StandsBehind rules.now.job rules.now.plan self.old fed }
        requires there { IfSome (V.disk volume.old) (λ d. AreThere self.old.staged d.files) }
        requires bench { FitsBench rules.now bench.old }
        ensures bench { FitsBench rules.now bench.new }
        ensures turn { TurnDone rules.now self.old self.new result
            (record {
              supply = S.supply source.old;
              source_faults = S.faults source.old;
              plan_faults = S.plan_faults source.old;
              disk = V.disk volume.old;
              volume_faults = V.faults volume.old;
            })
            (record {
              supply = S.supply source.new;
              source_faults = S.faults source.new;
              plan_faults = S.plan_faults source.new;
              disk = V.disk volume.new;
              volume_faults = V.faults volume.new;
            }) }
        ensures there { IfOk result (λ r. IfSome (V.disk volume.new) (λ d. AreThere self.new.staged d.files)) }
        ensures stands { IfOk result (StandsAfter rules.now self.new) }
    {
        let left = self.unit.hi - self.unit.lo - self.machine.seen();
        let asked = left.min(u64::from(rules.piece)) as usize;
        let at = self.unit.lo + self.machine.seen();
        match pull(source, &self.unit, at, asked, bench.piece.as_mut_slice()) {
            Ok(given) if given < asked => Ok(Turn::Failed(Cause::Gone)),
            Ok(_) => {
                let turn = self.take(
                    rules,
                    &bench.piece[..asked],
                    alloc,
                    &mut bench.workspace,
                    &mut bench.buffers,
                    volume,
                )?;
                Ok(turn)
            }
            Err(_) => {
                let turn = self.begin_anew(alloc, rules)?;
                Ok(turn)
            }
        }
    }

    // Feeds one more piece, and stages what it makes.
    fn take<V: Volume>(
        &mut self,
        rules: &TaskRules,
        piece: &[u8],
        alloc: Global,
        workspace: &mut Workspace,
        buffers: &mut TargetBuffers,
        volume: &mut V,
    ) -> Result<Turn, TurnFault>
        requires stands { (fed : List ℕ) × StandsBehind rules.now.job rules.now.plan self.old fed }
        requires bytes { AreBytes self.old.unit.part }
        requires few { self.old.machine.seen + length piece.now ≤ unit_length self.old.unit }
        requires there { IfSome (V.disk volume.old) (λ d. AreThere self.old.staged d.files) }
        requires slots { length buffers.old ≡ 2 * length rules.now.plan.branches + 1 }
        ensures slots { length buffers.new ≡ length buffers.old }
        ensures taken { IfOk result (λ r. (fed : List ℕ) → StandsBehind rules.now.job rules.now.plan self.old fed
            → BytesTaken rules.now self.old self.new fed piece.now r (V.disk volume.old) (V.disk volume.new)) }
        ensures there { IfOk result (λ r. IfSome (V.disk volume.new) (λ d. AreThere self.new.staged d.files)) }
        ensures below { Along (OnlyBelow self.old.staged.folder) (V.disk volume.old) (V.disk volume.new) }
        ensures cause { HasCause (V.faults volume.old) (V.faults volume.new) (result ≡ Err TurnFault.Failed) }
    {
        buffers.clear();
        self.machine
            .feed(&rules.pipeline, workspace, piece, buffers)?;
        let plan = rules.pipeline.plan();
        stage(
            alloc,
            plan,
            &self.unit,
            buffers,
            &mut self.names,
            &mut self.staged,
            volume,
        )?;
        Ok(judge(plan, &self.unit, &self.machine))
    }

    // A pull failed: the unit begins anew with the next attempt, or has failed too often.
    fn begin_anew(&mut self, alloc: Global, rules: &TaskRules) -> Result<Turn, NoMemory>
        requires unit { IsPullable self.old.unit }
        ensures ends { IfOk result (λ r. TellsTurn r (end_of_failure rules.now.max_retries self.old.failures)) }
        ensures anew { IfOk result (λ r. r ≡ Turn.Retry → HasBegun rules.now.job rules.now.plan self.old.unit
            self.old.index (self.old.failures + 1) self.new) }
        ensures there { IfOk result (λ r. (m : Files) → AreThere self.old.staged m → AreThere self.new.staged m) }
    {
        if self.failures >= rules.max_retries {
            return Ok(Turn::Failed(Cause::Fault));
        }
        let next = Task::begin(alloc, rules, &self.unit, self.index, self.failures + 1)?;
        *self = next;
        Ok(Turn::Retry)
    }

    /// Ends the task of a good unit: syncs its files, and tells what it made and where that is staged.
    pub fn finish<V: Volume>(
        self,
        alloc: Global,
        rules: &TaskRules,
        volume: &mut V,
    ) -> Result<UnitResult, TurnFault>
        requires whole { (fed : List ℕ) × IsWhole rules.now.job rules.now.plan self fed }
        requires there { IfSome (V.disk volume.old) (λ d. AreThere self.staged d.files) }
        ensures finished { IfOk result (λ r. (fed : List ℕ) → IsWhole rules.now.job rules.now.plan self fed
            → IsFinished rules.now self fed r (V.disk volume.old) (V.disk volume.new)) }
        ensures below { Along (OnlyBelow self.staged.folder) (V.disk volume.old) (V.disk volume.new) }
        ensures cause { HasCause (V.faults volume.old) (V.faults volume.new) (result ≡ Err TurnFault.Failed) }
    {
        let policies = rules.pipeline.plan().task_policies.as_slice();
        let warnings = warnings(alloc, policies, self.machine.counts())?;
        let counts = self.machine.counts().copy()?;
        let staged = self.staged.finish(volume)?;
        Ok(UnitResult::Good {
            counts,
            warnings,
            staged,
        })
    }
}

// Pulls so many bytes of a unit from an offset on into the front of a buffer.
fn pull<S: Source>(
    source: &mut S,
    unit: &Unit,
    at: u64,
    asked: usize,
    piece: &mut [u8],
) -> Result<usize, Failed>
    requires named { unit.now.part ≢ [] }
    requires room { asked ≤ length piece.old }
    ensures room { length piece.new ≡ length piece.old }
    ensures bytes { AreBytes unit.now.part }
    ensures within { IfOk result (λ n. n ≤ asked) }
    ensures front { IfOk result (λ n. IfSome (S.supply source.old)
        (λ s. take n piece.new ≡ bytes_from s.held unit.now.part at asked)) }
    ensures counted { let pull : Pull = record { part = unit.now.part; at = at; len = asked } in
        OnOk result (S.supply source.new ≡ option_map (with_pull pull) (S.supply source.old)) }
    ensures uncounted { OnErr result (S.supply source.new ≡ S.supply source.old) }
    ensures cause { CountsFailure (S.faults source.old) (S.faults source.new) (IsErr result) }
    ensures planned { S.plan_faults source.new ≡ S.plan_faults source.old }
{
    let given = source.pull(unit.part.as_str(), at, &mut piece[..asked])?;
    Ok(given)
}
