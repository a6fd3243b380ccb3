//! What a job does with each line, and by which rules its units are judged and run.

ghost use Rattle.std.specs.Prelude.{◌≡◌, IfOk};

use crate::{Columns, List, NoMemory, StepSpec, TestSpec, Text};

/// How records are spelled in bytes.
#[derive(Clone, Copy, PartialEq, Eq)]
pub enum Format {
    Lines,
    Csv,
    Json,
}

/// What a failing policy does with a row.
#[derive(Clone, Copy, PartialEq, Eq)]
pub enum Mode {
    /// It fails the unit.
    Fail,
    /// It sends the row to the branch's error file.
    ErrFile,
    /// It is counted, and the row goes on.
    Optional,
}

#[derive(Clone, Drop)]
pub struct PolicySpec {
    pub test: TestSpec,
    pub mode: Mode,
}

impl PolicySpec {
    pub fn copy(&self) -> Result<Self, NoMemory>
        ensures { IfOk result (λ c. c ≡ self.now) }
    {
        Ok(self.clone()?)
    }
}

/// To which branches a row goes.
#[derive(Clone, Copy, PartialEq, Eq)]
pub enum ForkHow {
    All,
    /// To each branch whose test holds.
    Each,
    /// To the first branch whose test holds.
    First,
}

#[derive(Clone, Drop)]
pub struct ForkSpec {
    pub how: ForkHow,
    pub branches: u32,
    pub tests: List<TestSpec>,
}

impl ForkSpec {
    pub fn copy(&self) -> Result<Self, NoMemory>
        ensures { IfOk result (λ c. c ≡ self.now) }
    {
        Ok(self.clone()?)
    }
}

/// In which folder of its branch a row is placed.
#[derive(Clone, Drop)]
pub enum PlaceSpec {
    /// In none.
    Plain,
    /// In that of the day of the column's value, seconds since 1970-01-01.
    Day { column: Text },
}

impl PlaceSpec {
    pub fn copy(&self) -> Result<Self, NoMemory>
        ensures { IfOk result (λ c. c ≡ self.now) }
    {
        Ok(self.clone()?)
    }
}

#[derive(Clone, Drop)]
pub struct BranchSpec {
    pub steps: List<StepSpec>,
    pub policies: List<PolicySpec>,
    pub format: Format,
    pub place: PlaceSpec,
}

impl BranchSpec {
    pub fn copy(&self) -> Result<Self, NoMemory>
        ensures { IfOk result (λ c. c ≡ self.now) }
    {
        Ok(self.clone()?)
    }
}

/// One of a unit's counts, the last three of a branch.
#[derive(Clone, Copy, PartialEq, Eq)]
pub enum Counter {
    Records,
    Bad,
    Rows,
    Unrouted,
    Written(u32),
    Errors(u32),
    Optional(u32),
}

#[derive(Clone, Copy, PartialEq, Eq)]
pub enum TaskRule {
    /// The counter is from `low` to `high`.
    Range {
        counter: Counter,
        low: u64,
        high: u64,
    },
    /// The counter is at most so many thousandths of the other.
    Share {
        counter: Counter,
        of: Counter,
        permille: u64,
    },
}

/// A rule for a unit's counts. Where it fails, the unit does too, or is warned of.
#[derive(Clone, Copy, PartialEq, Eq)]
pub struct TaskPolicy {
    pub rule: TaskRule,
    pub fails: bool,
}

#[derive(Clone, Drop)]
pub struct Plan {
    pub format: Format,
    pub columns: Columns,
    pub skip_header: bool,
    pub steps: List<StepSpec>,
    pub skip_errors: u64,
    pub fork: ForkSpec,
    pub branches: List<BranchSpec>,
    pub task_policies: List<TaskPolicy>,
}

impl Plan {
    pub fn copy(&self) -> Result<Self, NoMemory>
        ensures { IfOk result (λ c. c ≡ self.now) }
    {
        Ok(self.clone()?)
    }
}

/// Which units of a run are committed.
#[derive(Clone, Copy, PartialEq, Eq)]
pub enum CommitPolicy {
    /// All of them, where all are good.
    Full,
    /// The good ones.
    Successful,
}

/// What a run commits at once.
#[derive(Clone, Copy, PartialEq, Eq)]
pub enum CommitScope {
    /// All of its units.
    Job,
    /// The units of one dataset, and then those of the next.
    Dataset,
}

/// How many units are active at once, how much one pull asks for, and whose turn it is.
#[derive(Clone, Drop)]
pub struct TurnRules {
    pub slots: u32,
    pub piece: u32,
    pub schedule: List<u32>,
}

impl TurnRules {
    pub fn copy(&self) -> Result<Self, NoMemory>
        ensures { IfOk result (λ c. c ≡ self.now) }
    {
        Ok(self.clone()?)
    }
}

/// Which partitions are kept, and how much of them one run takes.
#[derive(Clone, Drop)]
pub struct Limits {
    pub prefix: Text,
    pub max_bytes: u64,
    pub max_new_units: u32,
}

impl Limits {
    pub fn copy(&self) -> Result<Self, NoMemory>
        ensures { IfOk result (λ c. c ≡ self.now) }
    {
        Ok(self.clone()?)
    }
}
