//! The tests of what is kept of a job, over public items: changes, and states with changes on a volume in memory.
#![tactic(auto)]

#[cfg(test)]
mod changes;
#[cfg(test)]
mod loads;
