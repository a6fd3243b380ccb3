//! The tests of the top call over devices in memory: each call of a device that fails, each stop of a run and what is
//! left of it, the turns of units, the refusals in their order, and that one text is written by one call.
#![tactic(auto)]

#[cfg(test)]
mod calls;
#[cfg(test)]
mod clicks;
#[cfg(test)]
mod compare;
#[cfg(test)]
mod faults;
#[cfg(test)]
mod files;
#[cfg(test)]
mod forked;
#[cfg(test)]
mod plain;
#[cfg(test)]
mod refusals;
#[cfg(test)]
mod stops;
#[cfg(test)]
mod turns;
