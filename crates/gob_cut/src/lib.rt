//! The units of a run, cut from what a source lists.
#![tactic(auto)]

mod ends;
mod fault;
mod listing;
mod owed;
mod rounds;
mod run_units;

pub use fault::CutFault;
pub use run_units::{Cut, units, units_through};
