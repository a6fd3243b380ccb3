//! The texts that the commands write: what a run did, what a state tells, whether a sequence was open, what a job's
//! branches write, and why a command was refused. Each text is written into one buffer, from its front to its end.
#![tactic(auto)]

mod branches;
mod lines;
mod marks;
mod ranges;
mod refusal;
mod reports;
mod totals;
mod units;

pub use branches::check_text;
pub use refusal::{Refusal, memory_text, refusal_text};
pub use reports::{recovery_text, report_text, state_text};
pub use units::run_status;
