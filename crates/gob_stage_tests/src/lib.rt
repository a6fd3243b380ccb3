//! The tests of staged files, over public items: attempts on a volume in memory.
#![tactic(auto)]

#[cfg(test)]
mod attempts;
