//! What the rows of a line make in the branches of a job.
#![tactic(auto)]

mod branch;
mod chain;
mod items;
mod placing;

pub use branch::{Branch, RowScratch};
pub use chain::Chain;
pub use items::{Item, ItemEnd, LineItems};
