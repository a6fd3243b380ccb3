//! The data that every layer shares: small types that contracts see as lists, and what a job is made of.
#![tactic(auto)]

mod checks;
mod columns;
mod faults;
mod like;
mod plan;
mod rows;
mod small;
mod steps;
mod units;

pub use checks::{Check, How, TestSpec, holds};
pub use columns::Columns;
pub use faults::{Failed, NoMemory};
pub use like::split_first;
pub use plan::{
    BranchSpec, CommitPolicy, CommitScope, Counter, ForkHow, ForkSpec, Format, Limits, Mode,
    PlaceSpec, Plan, PolicySpec, TaskPolicy, TaskRule, TurnRules,
};
pub use rows::{Column, Kind, Row, Value};
pub use small::{Bytes, List, Text};
pub use steps::{Refusal, StepFault, StepSpec};
pub use units::{BranchCounts, Cause, Counts, StagedFile, Unit, UnitResult};
