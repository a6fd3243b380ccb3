//! `run JOB`: one run of the job that the job's file gives.
ghost use Rattle.std.specs.Prelude.{◌≡◌, ℕ, true, length, IfOk, List};
ghost use Rattle.gob_job.specs.Jobs.{job_from};
ghost use Rattle.gob_jobs.specs.Laws.{IsJob};
ghost use Rattle.gob_recovery.specs.Sequence.{is_file_name};
ghost use Rattle.gob_run.specs.Answers.{Answer, RunAnswered};
ghost use Rattle.gob_top.specs.Answers.{Tells};
ghost use Rattle.gob_top.specs.Made.{told_when_done};
ghost use Rattle.gob_top.specs.Runs.{RunTold, run_told};

use crate::Report;
use crate::job::read_job_file;
use crate::stopped::Stopped;
use gob_io::Source;
use gob_job::Job;
use gob_plan::List;
use gob_report::{report_text, run_status};
use gob_run::run_job;
use gob_volume::Volume;
use std::alloc::Global;

/// Reads the job's file, runs the job, and tells what the run did.
#[tactic(auto, using(gob_recovery::proofs::Names::file_pathname))]
pub(crate) fn run<S: Source, V: Volume>(
    alloc: Global,
    job: &str,
    source: &mut S,
    volume: &mut V,
) -> Result<Report, Stopped>
    requires named { is_file_name job.now ≡ true }
    ensures { RunTold job.now
        (record {
          supply = S.supply source.old;
          source_faults = S.faults source.old;
          plan_faults = S.plan_faults source.old;
          disk = V.disk volume.old;
          volume_faults = V.faults volume.old;
        })
        (record {
          supply = S.supply source.new;
          source_faults = S.faults source.new;
          plan_faults = S.plan_faults source.new;
          disk = V.disk volume.new;
          volume_faults = V.faults volume.new;
        })
        (told_when_done result) }
{
    let file = read_job_file(alloc, volume, job)?;
    run_and_tell(alloc, &file.job, source, volume)
}

// Runs the job, and tells what the run did.
fn run_and_tell<S: Source, V: Volume>(
    alloc: Global,
    job: &Job,
    source: &mut S,
    volume: &mut V,
) -> Result<Report, Stopped>
    requires right { IsJob job.now.name (job_from job.now) }
    requires named { is_file_name job.now.name ≡ true }
    ensures { (failing : List ℕ) × (answer : Answer) × RunAnswered (job_from job.now) failing answer
        (record {
          supply = S.supply source.old;
          source_faults = S.faults source.old;
          plan_faults = S.plan_faults source.old;
          disk = V.disk volume.old;
          volume_faults = V.faults volume.old;
        })
        (record {
          supply = S.supply source.new;
          source_faults = S.faults source.new;
          plan_faults = S.plan_faults source.new;
          disk = V.disk volume.new;
          volume_faults = V.faults volume.new;
        })
        × Tells (run_told (job_from job.now) answer) (told_when_done result) }
{
    let mut failed = List::new(alloc);
    let outcome = run_job(alloc, job, source, volume, &mut failed)?;
    let text = report_text(alloc, job, &outcome)?;
    let status = run_status(outcome.results.as_slice());
    Ok(Report { status, text })
}
