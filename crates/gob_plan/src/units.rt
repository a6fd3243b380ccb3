//! Units of work, and what became of them.

ghost use Rattle.std.specs.Prelude.{◌≡◌, IfOk};

use crate::{List, NoMemory, Text};

/// What a unit sent to one branch. Each count stops at the end of a `u64`.
#[derive(Clone, Copy, PartialEq, Eq)]
pub struct BranchCounts {
    pub written: u64,
    pub errors: u64,
    /// The optional policies that failed.
    pub optional: u64,
}

/// What a unit made. Each count stops at the end of a `u64`.
#[derive(Clone, Drop)]
pub struct Counts {
    pub records: u64,
    pub bad: u64,
    /// The rows before the fork.
    pub rows: u64,
    /// Those of them that no branch took.
    pub unrouted: u64,
    pub branches: List<BranchCounts>,
}

impl Counts {
    pub fn copy(&self) -> Result<Self, NoMemory>
        ensures { IfOk result (λ c. c ≡ self.now) }
    {
        Ok(self.clone()?)
    }
}

/// A range of a partition that is pulled as a whole.
#[derive(Clone, Drop)]
pub struct Unit {
    pub part: Text,
    pub lo: u64,
    pub hi: u64,
    /// No earlier run had it.
    pub fresh: bool,
    /// The source lists its partition.
    pub listed: bool,
}

impl Unit {
    pub fn copy(&self) -> Result<Self, NoMemory>
        ensures { IfOk result (λ c. c ≡ self.now) }
    {
        Ok(self.clone()?)
    }
}

/// Why a unit failed.
#[derive(Clone, Copy, PartialEq, Eq)]
pub enum Cause {
    /// A row policy of a branch killed a row of the line at this offset.
    Kill { branch: u32, policy: u32, at: u64 },
    /// The line at this offset was one bad record too many.
    BadRecords { at: u64 },
    /// The task policy with this index failed.
    Policy { index: u32 },
    /// Its bytes weren't there.
    Gone,
    /// Its bytes didn't end in a line feed.
    Torn,
    /// The source failed too often.
    Fault,
}

/// Where a file was staged, and where it is to be published.
#[derive(Clone, Drop)]
pub struct StagedFile {
    pub from: Text,
    pub to: Text,
}

impl StagedFile {
    pub fn copy(&self) -> Result<Self, NoMemory>
        ensures { IfOk result (λ c. c ≡ self.now) }
    {
        Ok(self.clone()?)
    }
}

#[derive(Clone, Drop)]
pub enum UnitResult {
    Good {
        counts: Counts,
        /// The indices of the task policies that only warn and that failed.
        warnings: List<u32>,
        staged: List<StagedFile>,
    },
    Failed {
        cause: Cause,
    },
}

impl UnitResult {
    pub fn copy(&self) -> Result<Self, NoMemory>
        ensures { IfOk result (λ c. c ≡ self.now) }
    {
        Ok(self.clone()?)
    }
}
