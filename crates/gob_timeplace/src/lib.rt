//! Rows placed in the folder of a day.
#![tactic(auto)]

mod day;

pub use day::Day;
