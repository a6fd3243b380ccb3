//! `check JOB`: whether the job's file gives a job, and what the job's branches write.
ghost use Rattle.std.specs.Prelude.{◌≡◌, IfOk};
ghost use Rattle.gob_device.specs.Names.{IsPathname};
ghost use Rattle.gob_jobs.specs.Reading.{unknown_keys};
ghost use Rattle.gob_run.specs.World.{World};
ghost use Rattle.gob_texts.specs.Commands.{check_report};
ghost use Rattle.gob_top.specs.Checks.{CheckAnswered};
ghost use Rattle.gob_top.specs.Made.{told_when_done};

use crate::Report;
use crate::job::{JobFile, read_job_file};
use crate::stopped::Stopped;
use gob_job::unknown_keys;
use gob_plan::{Bytes, NoMemory};
use gob_report::check_text;
use gob_volume::Volume;
use std::alloc::Global;

/// Reads the job's file, and tells the job's branches and the keys that aren't known, or the file's first fault.
pub(crate) fn check<V: Volume>(alloc: Global, job: &str, volume: &mut V) -> Result<Report, Stopped>
    requires named { IsPathname job.now }
    ensures { (w : World) → CheckAnswered job.now
        (record w { disk = V.disk volume.old; volume_faults = V.faults volume.old })
        (record w { disk = V.disk volume.new; volume_faults = V.faults volume.new })
        (told_when_done result) }
{
    let file = read_job_file(alloc, volume, job)?;
    let text = text_of(alloc, job, &file)?;
    Ok(Report { status: 0, text })
}

fn text_of(alloc: Global, job: &str, file: &JobFile) -> Result<Bytes, NoMemory>
    ensures { IfOk result (λ text. text
        ≡ check_report job.now file.now.job.plan (unknown_keys file.now.props)) }
{
    let unknown = unknown_keys(alloc, &file.props)?;
    let text = check_text(alloc, job, &file.job.plan, &unknown)?;
    Ok(text)
}
