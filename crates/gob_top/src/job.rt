//! What the file of a job gives.
ghost use Rattle.std.specs.Prelude.{◌≡◌, ◌≤◌, ◌⊎◌, ◌++◌, Some, Ok, Err, IfErr, IfOk, IfSome, OnOk};
ghost use Rattle.gob_bytes.specs.Paths.{job_file};
ghost use Rattle.gob_device.specs.Disk.{contents_at};
ghost use Rattle.gob_device.specs.Names.{IsPathname};
ghost use Rattle.gob_job.specs.Jobs.{job_from};
ghost use Rattle.gob_jobs.specs.Laws.{IsJob};
ghost use Rattle.gob_report.specs.Refusals.{told_as};
ghost use Rattle.gob_texts.specs.Refusals as texts;
ghost use Rattle.gob_top.specs.Found.{NotFound, found_in};
ghost use Rattle.gob_top.specs.Jobs.{FileGives, read_of_file};

use crate::stopped::Stopped;
use gob_job::{Job, read_job};
use gob_plan::{NoMemory, Text};
use gob_props::{Props, read_props};
use gob_report::Refusal;
use gob_volume::Volume;
use std::alloc::Global;

/// The keys and values of a job's file, and the job that they give.
#[derive(Drop)]
pub(crate) struct JobFile {
    pub(crate) props: Props,
    pub(crate) job: Job,
}

/// Reads the file of the job with this name.
pub(crate) fn read_job_file<V: Volume>(
    alloc: Global,
    volume: &mut V,
    job: &str,
) -> Result<JobFile, Stopped>
    requires named { IsPathname job.now }
    ensures found { IfOk result (λ file. FileGives job.now (V.disk volume.old) (Ok (found_in file))) }
    ensures right { IfOk result (λ file. IsJob job.now (job_from file.job)) }
    ensures stopped { IfErr result (λ s. NotFound job.now (V.disk volume.old) (V.faults volume.old)
        (V.faults volume.new) (told_as s.refusal)) }
    ensures unfailed { OnOk result (V.faults volume.new ≡ V.faults volume.old) }
    ensures disk { V.disk volume.new ≡ V.disk volume.old }
    ensures goes_on { V.faults volume.old ≤ V.faults volume.new }
{
    let bytes = read_bytes(alloc, volume, job)?;
    let file = job_in_bytes(alloc, job, bytes.as_slice())?;
    Ok(file)
}

// What the job's file holds.
fn read_bytes<V: Volume>(alloc: Global, volume: &mut V, job: &str) -> Result<Vec<u8>, Stopped>
    requires named { IsPathname job.now }
    ensures found { IfOk result (λ v. IfSome (V.disk volume.old)
        (λ d. contents_at d.files (job_file job.now) ≡ Some v.items)) }
    ensures stopped { IfErr result (λ s. NotFound job.now (V.disk volume.old) (V.faults volume.old)
        (V.faults volume.new) (told_as s.refusal)) }
    ensures unfailed { OnOk result (V.faults volume.new ≡ V.faults volume.old) }
    ensures disk { V.disk volume.new ≡ V.disk volume.old }
    ensures goes_on { V.faults volume.old ≤ V.faults volume.new }
{
    let name = job_file_name(alloc, job)?;
    let Some(bytes) = volume.read(alloc, name.as_str())? else {
        return Err(Stopped {
            refusal: Refusal::NoJob,
        });
    };
    Ok(bytes)
}

// The job that the bytes of its file give.
fn job_in_bytes(alloc: Global, job: &str, bytes: &[u8]) -> Result<JobFile, Stopped>
    ensures found { IfOk result (λ file. read_of_file job.now (Some bytes.now) ≡ Ok (found_in file)) }
    ensures right { IfOk result (λ file. IsJob job.now (job_from file.job)) }
    ensures stopped { IfErr result (λ s. (told_as s.refusal ≡ texts.memory)
        ⊎ (read_of_file job.now (Some bytes.now) ≡ Err (told_as s.refusal))) }
{
    let props = read_props(alloc, bytes)?;
    let found = read_job(alloc, job, &props)?;
    Ok(JobFile { props, job: found })
}

// Where the job is described.
#[tactic(auto, using(crate::proofs::Called::job_file_named))]
fn job_file_name(alloc: Global, job: &str) -> Result<Text, NoMemory>
    requires { IsPathname job.now }
    ensures name { IfOk result (λ name. name ≡ job_file job.now) }
    ensures path { IfOk result (λ name. IsPathname name) }
{
    let mut name = Text::from_str(alloc, "jobs/")?;
    name.push(job)?;
    name.push(".pull")?;
    Ok(name)
}
