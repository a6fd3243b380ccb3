//! One run of a job.
ghost use Rattle.std.specs.Prelude.{◌≡◌, true, []};
ghost use Rattle.gob_job.specs.Jobs.{job_from};
ghost use Rattle.gob_jobs.specs.Laws.{IsJob};
ghost use Rattle.gob_recovery.specs.Sequence.{is_file_name};
ghost use Rattle.gob_run.specs.Answers.{RunAnswered};

use crate::RunFault;
use crate::cutting::cut_over;
use crate::entry::settle_and_load;
use crate::work::work_on;
use gob_io::Source;
use gob_job::Job;
use gob_plan::List;
use gob_state::Outcome;
use gob_volume::Volume;
use std::alloc::Global;

/// One run of a job: settles what a stopped run left, loads what is kept, cuts the units, gives them their turns, and
/// commits what the policy allows, group by group. Beside its answer it tells the number of each turn whose pull
/// failed, from 0 on; where it answers want of memory the last of these may be missing.
pub fn run_job<S: Source, V: Volume>(
    alloc: Global,
    job: &Job,
    source: &mut S,
    volume: &mut V,
    failed: &mut List<u128>,
) -> Result<Outcome, RunFault>
    requires right { IsJob job.now.name (job_from job.now) }
    requires named { is_file_name job.now.name ≡ true }
    requires none { failed.old ≡ [] }
    ensures { RunAnswered (job_from job.now) failed.new result
        (record {
          supply = S.supply source.old;
          source_faults = S.faults source.old;
          plan_faults = S.plan_faults source.old;
          disk = V.disk volume.old;
          volume_faults = V.faults volume.old;
        })
        (record {
          supply = S.supply source.new;
          source_faults = S.faults source.new;
          plan_faults = S.plan_faults source.new;
          disk = V.disk volume.new;
          volume_faults = V.faults volume.new;
        }) }
{
    let loaded = settle_and_load(alloc, volume, job.name.as_str())?;
    let cut = cut_over(alloc, source, &loaded, &job.limits)?;
    let outcome = work_on(alloc, job, source, volume, failed, loaded, cut)?;
    Ok(outcome)
}
