//! Job files read: the job that the keys and values of a properties text describe, or the first fault of it in the
//! order of the key table; the keys that no row of the table has; and the plan that a pipeline text stands for.
#![tactic(auto)]

mod checks;
mod columns;
mod cuts;
mod draft;
mod faults;
mod job;
mod lists;
mod pipeline;
mod reading;
mod rows;
mod rules;
mod run_rules;
mod steps;
mod tables;
mod unknown;
mod values;

pub use columns::columns_through;
pub use faults::JobFault;
pub use job::{Job, plan_of, read_job};
pub use unknown::unknown_keys;
