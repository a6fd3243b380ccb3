//! The files that an attempt at a unit stages, in a folder of the attempt's own.
#![tactic(auto)]

mod attempt;
mod fault;
mod laws;

pub use attempt::Attempt;
pub use fault::StageFault;
pub use laws::{attempts_are_apart, attempts_are_staged, held_by_its_folder, new_holds_nothing};
