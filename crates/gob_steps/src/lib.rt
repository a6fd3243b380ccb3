//! The ten conversion steps, each set up once on the columns of the rows that it takes.
#![tactic(auto)]

mod chain;
mod columns;
mod names;
mod pieces;
mod places;
mod rows;
mod step;
mod values;

pub use chain::{StepsFault, steps_of};
pub use step::Step;
