//! The ranges of each partition: which are done, and which are still owed.
#![tactic(auto)]

mod joining;
mod marks;
mod open_ranges;
mod range;
mod search;
mod table;

pub use marks::Marks;
pub use range::{Done, Range};
pub use table::MarkTable;
