//! Where a job's sequence and its staged files stand.

ghost use Rattle.std.specs.Prelude.{◌≡◌, IfOk};
ghost use Rattle.gob_bytes.specs.Paths.{under};
ghost use Rattle.gob_seq.specs.Steps.{job_place};

use gob_plan::{NoMemory, Text};
use std::alloc::Global;

/// The names that a job's sequences are done by.
#[derive(Drop)]
pub(crate) struct Place {
    /// The job's folder, with a slash at its end.
    pub folder: Text,
    /// The folder of staged files, with a slash at its end.
    pub staging: Text,
    /// The staged sequence.
    pub staged: Text,
    /// The open sequence.
    pub sequence: Text,
}

impl Place {
    pub fn new(alloc: Global, job: &str) -> Result<Place, NoMemory>
        ensures { IfOk result (λ p. p ≡ job_place job.now) }
    {
        let folder = path(alloc, job, "")?;
        let staging = path(alloc, job, "stage/")?;
        let staged = path(alloc, job, "stage/seq")?;
        let sequence = path(alloc, job, "seq")?;
        Ok(Place {
            folder,
            staging,
            staged,
            sequence,
        })
    }
}

fn path(alloc: Global, job: &str, below: &str) -> Result<Text, NoMemory>
    ensures { IfOk result (λ t. t ≡ under job.now below.now) }
{
    let mut path = Text::from_str(alloc, job)?;
    path.push("/")?;
    path.push(below)?;
    Ok(path)
}
