//! Why a job file gives no job, and why a value is refused.
ghost use Rattle.std.specs.Prelude.{◌≡◌};
ghost use Rattle.gob_plan.specs.declared.steps.Refusal.TheVariants.{BadValue};
ghost use Rattle.gob_job.specs.declared.faults.ValueFault.TheVariants.{Refused};
ghost use Rattle.gob_job.specs.Faults.{at_key, is_memory};

use gob_plan::{NoMemory, Refusal, StepFault, Text};
use std::alloc::AllocError;
use thiserror::Error;

/// Why a job file gives no job: what is wrong with a key's value, for the first key in the order of the table that has
/// a fault. The key is the one that counts: that of all branches only where the branch has none of its own.
#[derive(Debug, Drop, Error)]
pub enum JobFault {
    #[error("the key {key} is missing")]
    Missing { key: Text },
    #[error("the value of {key} is bad")]
    BadValue { key: Text },
    /// Other than one type for each policy.
    #[error("{key} has another number of types than there are policies")]
    BadPolicyCount { key: Text },
    /// The value names a column that isn't there.
    #[error("{key} names no column {column}")]
    NoColumn { key: Text, column: Text },
    /// The value names a column of another kind.
    #[error("{key} needs another kind of column than {column}")]
    BadKind { key: Text, column: Text },
    /// The value holds `${`.
    #[error("{key} holds an interpolation")]
    Interpolation { key: Text },
    #[error("no memory is left")]
    Memory,
}

impl JobFault {
    /// Whether it is no fault of the file: no memory was left.
    pub fn is_memory(&self) -> bool
        ensures { result ≡ is_memory self.now }
    {
        matches!(self, JobFault::Memory)
    }
}

impl From<NoMemory> for JobFault {
    ghost use Rattle.gob_job.specs.declared.faults.JobFault.TheVariants.{Memory};

    ghost from_gives = { λ _ fault. fault ≡ Memory };

    fn from(_: NoMemory) -> Self {
        JobFault::Memory
    }
}

impl From<AllocError> for JobFault {
    ghost use Rattle.gob_job.specs.declared.faults.JobFault.TheVariants.{Memory};

    ghost from_gives = { λ _ fault. fault ≡ Memory };

    fn from(_: AllocError) -> Self {
        JobFault::Memory
    }
}

/// Why a value is refused: for itself, or for the number of its words.
#[derive(Drop)]
pub(crate) enum ValueFault {
    Refused(Refusal),
    BadCount,
    Memory,
}

impl ValueFault {
    /// The value is none of those that the key takes.
    pub(crate) fn bad_value() -> Self
        ensures { result ≡ Refused BadValue }
    {
        ValueFault::Refused(Refusal::BadValue)
    }

    /// The fault at its key.
    pub(crate) fn at(self, key: Text) -> JobFault
        ensures { result ≡ at_key key self }
    {
        match self {
            ValueFault::Refused(Refusal::NoColumn { column }) => JobFault::NoColumn { key, column },
            ValueFault::Refused(Refusal::BadKind { column }) => JobFault::BadKind { key, column },
            ValueFault::Refused(Refusal::BadValue) => JobFault::BadValue { key },
            ValueFault::BadCount => JobFault::BadPolicyCount { key },
            ValueFault::Memory => JobFault::Memory,
        }
    }
}

impl From<StepFault> for ValueFault {
    ghost use Rattle.std.specs.Prelude.{◌≡◌};
    ghost use Rattle.gob_job.specs.Faults.{value_fault};

    ghost from_gives = { λ step fault. fault ≡ value_fault step };

    fn from(fault: StepFault) -> Self {
        match fault {
            StepFault::Refused(refusal) => ValueFault::Refused(refusal),
            StepFault::Memory => ValueFault::Memory,
        }
    }
}

impl From<NoMemory> for ValueFault {
    ghost use Rattle.gob_job.specs.declared.faults.ValueFault.TheVariants.{Memory};

    ghost from_gives = { λ _ fault. fault ≡ Memory };

    fn from(_: NoMemory) -> Self {
        ValueFault::Memory
    }
}

impl From<AllocError> for ValueFault {
    ghost use Rattle.gob_job.specs.declared.faults.ValueFault.TheVariants.{Memory};

    ghost from_gives = { λ _ fault. fault ≡ Memory };

    fn from(_: AllocError) -> Self {
        ValueFault::Memory
    }
}
