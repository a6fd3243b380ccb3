//! The tests of the crate that cuts units from a source, over its public items: values worked out by hand.
#![tactic(auto)]

#[cfg(test)]
mod commits;
#[cfg(test)]
mod cuts;
#[cfg(test)]
mod failures;
#[cfg(test)]
mod helpers;
#[cfg(test)]
mod history;
#[cfg(test)]
mod windows;
