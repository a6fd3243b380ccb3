//! The tests of the devices in memory over their public items: each call once with the answer that it is to give, calls
//! that are planned to fail, and what a crash leaves.
#![tactic(auto)]

#[cfg(test)]
mod compare;
#[cfg(test)]
mod sinks;
#[cfg(test)]
mod sources;
#[cfg(test)]
mod tables;
#[cfg(test)]
mod volumes;
