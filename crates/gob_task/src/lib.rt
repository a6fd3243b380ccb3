//! The task of one unit: pulls its bytes turn by turn, and stages what they make.
#![tactic(auto)]

mod fault;
mod judging;
mod laws;
mod names;
mod staging;
mod task;

pub use fault::TurnFault;
pub use laws::{first_bytes_decide, staged_are_published, tasks_keep_their_own};
pub use task::{Bench, Task, TaskRules, Turn};
