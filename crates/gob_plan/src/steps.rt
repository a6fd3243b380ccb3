//! Conversion steps, and why one is refused.

ghost use Rattle.std.specs.Prelude.{◌≡◌, IfOk};

use crate::{Kind, List, NoMemory, TestSpec, Text, Value};
use std::alloc::{AllocError, AllocFailed};
use thiserror::Error;

#[derive(Clone, Drop)]
pub enum StepSpec {
    Keep {
        columns: List<Text>,
    },
    Drop {
        columns: List<Text>,
    },
    Rename {
        from: Text,
        to: Text,
    },
    Cast {
        column: Text,
        kind: Kind,
    },
    Set {
        column: Text,
        kind: Kind,
        value: Value,
    },
    Copy {
        from: Text,
        to: Text,
    },
    Explode {
        column: Text,
        separator: Text,
    },
    Where {
        test: TestSpec,
    },
    Upper {
        column: Text,
    },
    Lower {
        column: Text,
    },
}

impl StepSpec {
    pub fn copy(&self) -> Result<Self, NoMemory>
        ensures { IfOk result (λ c. c ≡ self.now) }
    {
        Ok(self.clone()?)
    }
}

/// Why a step, a test or a format doesn't go with its columns.
#[derive(Clone, Debug, Drop, Error)]
pub enum Refusal {
    /// The column isn't there.
    #[error("there is no column {column}")]
    NoColumn { column: Text },
    /// The column is there and has another kind.
    #[error("the column {column} has another kind")]
    BadKind { column: Text },
    #[error("a value is bad")]
    BadValue,
}

impl Refusal {
    pub fn copy(&self) -> Result<Self, NoMemory>
        ensures { IfOk result (λ c. c ≡ self.now) }
    {
        Ok(self.clone()?)
    }
}

/// Why a step can't be set up on its columns.
#[derive(Clone, Debug, Drop, Error)]
pub enum StepFault {
    #[error("the step is refused: {0}")]
    Refused(Refusal),
    #[error("no memory is left")]
    Memory,
}

impl From<NoMemory> for StepFault {
    ghost use Rattle.gob_plan.specs.declared.steps.StepFault.TheVariants.{Memory};

    ghost from_gives = { λ _ fault. fault ≡ Memory };

    fn from(_: NoMemory) -> Self {
        StepFault::Memory
    }
}

impl From<AllocError> for StepFault {
    ghost use Rattle.gob_plan.specs.declared.steps.StepFault.TheVariants.{Memory};

    ghost from_gives = { λ _ fault. fault ≡ Memory };

    fn from(_: AllocError) -> Self {
        StepFault::Memory
    }
}

impl<T: Drop> From<AllocFailed<T>> for StepFault {
    ghost use Rattle.gob_plan.specs.declared.steps.StepFault.TheVariants.{Memory};

    ghost from_gives = { λ _ fault. fault ≡ Memory };

    fn from(_: AllocFailed<T>) -> Self {
        StepFault::Memory
    }
}

impl StepFault {
    pub fn copy(&self) -> Result<Self, NoMemory>
        ensures { IfOk result (λ c. c ≡ self.now) }
    {
        Ok(self.clone()?)
    }
}
