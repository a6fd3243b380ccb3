//! The tests of the crates that give turns and judge units, over their public items: values worked out by hand.
#![tactic(auto)]

#[cfg(test)]
mod turns;
#[cfg(test)]
mod verdicts;
