//! The tests of the crate that keeps the ranges of partitions, over its public items: values worked out by hand.
#![tactic(auto)]

#[cfg(test)]
mod marks;
#[cfg(test)]
mod tables;
