//! One run of a job: what a stopped run left is settled, what is kept is loaded, the units are cut, have their turns
//! and are committed.
#![tactic(auto)]

mod cutting;
mod entry;
mod fault;
mod run;
mod work;

pub use entry::settle_and_load;
pub use fault::RunFault;
pub use run::run_job;
