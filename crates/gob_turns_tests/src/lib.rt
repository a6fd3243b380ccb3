//! The tests of tasks and of the turns of a run, over public items: units that are pulled from a source in memory, and
//! staged on a volume in memory.
#![tactic(auto)]

#[cfg(test)]
mod compare;
#[cfg(test)]
mod files;
#[cfg(test)]
mod given;
// The definitions of specs/ name it, so it is there without tests too.
pub mod kinds;
#[cfg(test)]
mod plans;
#[cfg(test)]
mod tasks;
#[cfg(test)]
mod turns;
#[cfg(test)]
mod worked;
