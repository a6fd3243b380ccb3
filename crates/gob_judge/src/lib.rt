//! Which units are good by their counts, and which of them a run commits.
#![tactic(auto)]

mod commit;
mod task;

pub use commit::{allowed, dataset_of, flags_decide_as_verdicts};
pub use task::{TaskVerdict, judge_task, warns};
