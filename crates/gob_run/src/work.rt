//! The turns of a run's units, and the commits behind them.
ghost use Rattle.std.specs.Prelude.{◌≡◌, true, [], IfOk, IfSome, None};
ghost use Rattle.gob_bytes.specs.Paths.{sequence_name};
ghost use Rattle.gob_commit.specs.Staged.{HasRules};
ghost use Rattle.gob_job.specs.Jobs.{job_from};
ghost use Rattle.gob_jobs.specs.Laws.{IsJob};
ghost use Rattle.gob_ledger.specs.Spelling.{IsKeptPipeline};
ghost use Rattle.gob_recovery.specs.Sequence.{is_file_name};
ghost use Rattle.gob_segments.specs.Loading.{LoadedFits};
ghost use Rattle.gob_run.specs.Cutting.{CutFits, parts_of};
ghost use Rattle.gob_run.specs.Working.{HasNothing, Worked};

use crate::RunFault;
use gob_commit::{CommitRules, commit_groups, state_or_empty};
use gob_cut::Cut;
use gob_io::Source;
use gob_job::Job;
use gob_pipeline::Pipeline;
use gob_plan::{List, NoMemory, Text};
use gob_segments::Loaded;
use gob_state::Outcome;
use gob_task::TaskRules;
use gob_turns::take_turns;
use gob_volume::Volume;
use std::alloc::Global;

/// Gives the units their turns, and commits what the policy allows, group by group. Where there is no unit nothing is
/// changed.
pub(crate) fn work_on<S: Source, V: Volume>(
    alloc: Global,
    job: &Job,
    source: &mut S,
    volume: &mut V,
    failed: &mut List<u128>,
    loaded: Loaded,
    cut: Cut,
) -> Result<Outcome, RunFault>
    requires right { IsJob job.now.name (job_from job.now) }
    requires named { is_file_name job.now.name ≡ true }
    requires none { failed.old ≡ [] }
    requires loaded { LoadedFits loaded }
    requires cut { CutFits (parts_of loaded.state) job.now.limits (S.supply source.old) cut }
    requires closed { IfSome (V.disk volume.old) (λ d. d.files (sequence_name job.now.name) ≡ None) }
    ensures worked { Worked (job_from job.now) failed.new loaded cut result
        (record {
          supply = S.supply source.old;
          source_faults = S.faults source.old;
          plan_faults = S.plan_faults source.old;
          disk = V.disk volume.old;
          volume_faults = V.faults volume.old;
        })
        (record {
          supply = S.supply source.new;
          source_faults = S.faults source.new;
          plan_faults = S.plan_faults source.new;
          disk = V.disk volume.new;
          volume_faults = V.faults volume.new;
        }) }
    ensures idle { cut.units ≡ [] → V.disk volume.new ≡ V.disk volume.old }
{
    if cut.units.is_empty() {
        let outcome = nothing_to_do(alloc, job, loaded, cut.too_long)?;
        return Ok(outcome);
    }
    let outcome = turn_and_commit(alloc, job, source, volume, failed, loaded, cut)?;
    Ok(outcome)
}

// What a run without a unit has done.
fn nothing_to_do(
    alloc: Global,
    job: &Job,
    loaded: Loaded,
    too_long: List<Text>,
) -> Result<Outcome, NoMemory>
    requires right { IsJob job.now.name (job_from job.now) }
    requires loaded { LoadedFits loaded }
    ensures { IfOk result (HasNothing (job_from job.now) loaded too_long) }
{
    let after = state_or_empty(alloc, job.plan.branches.len() as u32, loaded)?;
    Ok(Outcome {
        units: List::new(alloc),
        results: List::new(alloc),
        too_long,
        after,
        committed: List::new(alloc),
    })
}

// The same of any units.
fn turn_and_commit<S: Source, V: Volume>(
    alloc: Global,
    job: &Job,
    source: &mut S,
    volume: &mut V,
    failed: &mut List<u128>,
    loaded: Loaded,
    cut: Cut,
) -> Result<Outcome, RunFault>
    requires right { IsJob job.now.name (job_from job.now) }
    requires named { is_file_name job.now.name ≡ true }
    requires none { failed.old ≡ [] }
    requires loaded { LoadedFits loaded }
    requires cut { CutFits (parts_of loaded.state) job.now.limits (S.supply source.old) cut }
    requires closed { IfSome (V.disk volume.old) (λ d. d.files (sequence_name job.now.name) ≡ None) }
    ensures { Worked (job_from job.now) failed.new loaded cut result
        (record {
          supply = S.supply source.old;
          source_faults = S.faults source.old;
          plan_faults = S.plan_faults source.old;
          disk = V.disk volume.old;
          volume_faults = V.faults volume.old;
        })
        (record {
          supply = S.supply source.new;
          source_faults = S.faults source.new;
          plan_faults = S.plan_faults source.new;
          disk = V.disk volume.new;
          volume_faults = V.faults volume.new;
        }) }
{
    let Cut { units, too_long } = cut;
    let rules = task_rules(alloc, job)?;
    let results = take_turns(
        alloc,
        &rules,
        &job.turns,
        units.as_slice(),
        source,
        volume,
        failed,
    )?;
    let by = commit_rules(job);
    let committed = commit_groups(
        alloc,
        &by,
        volume,
        loaded,
        units.as_slice(),
        results.as_slice(),
    )?;
    Ok(Outcome {
        units,
        results,
        too_long,
        after: committed.after,
        committed: committed.committed,
    })
}

// By what the tasks of a job work.
fn task_rules(alloc: Global, job: &Job) -> Result<TaskRules, NoMemory>
    requires right { IsJob job.now.name (job_from job.now) }
    requires named { is_file_name job.now.name ≡ true }
    ensures { IfOk result (λ rules. rules ≡ record {
      job = job.now.name;
      plan = job.now.plan;
      piece = job.now.turns.piece;
      max_retries = job.now.max_retries;
    }) }
{
    let pipeline = Pipeline::new(alloc, &job.plan)?;
    let name = job.name.copy()?;
    Ok(TaskRules::new(name, pipeline, job.turns.piece, job.max_retries))
}

// By what the units of a job are committed.
fn commit_rules(job: &Job) -> CommitRules<'_>
    requires right { IsJob job.now.name (job_from job.now) }
    ensures rules { HasRules (job_from job.now) result }
    ensures kept { IsKeptPipeline result.pipeline.now }
{
    // What is in memory is short enough for a file to tell its length.
    let _length = job.pipeline.len();
    CommitRules {
        job: job.name.as_str(),
        pipeline: job.pipeline.as_str(),
        branches: job.plan.branches.len() as u32,
        policy: job.policy,
        scope: job.scope,
    }
}
