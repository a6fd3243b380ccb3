//! The tests of the crate that reads, writes and goes on from states, over its public items: texts written by hand.
#![tactic(auto)]

#[cfg(test)]
mod commits;
#[cfg(test)]
mod texts;
