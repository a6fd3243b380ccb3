//! Tests of real folders: calls on a folder against the same calls in memory, the calls of the file system that each
//! call of a folder makes, and what a failure of each one gives.
#![tactic(auto)]

#[cfg(test)]
mod agreement;
#[cfg(test)]
mod calls;
mod names;
#[cfg(test)]
mod odd_files;
#[cfg(test)]
mod recorder;
#[cfg(test)]
mod room;
#[cfg(test)]
mod sources;
#[cfg(test)]
mod syncs;

pub use names::is_pathname;
