//! The tests of a unit's machine and of what a line makes, over public items: what the rules give for each unit, worked
//! out by hand, however its bytes are cut into pieces.
#![tactic(auto)]

#[cfg(test)]
mod bench;
#[cfg(test)]
mod branches;
#[cfg(test)]
mod clicks;
#[cfg(test)]
mod cuts;
#[cfg(test)]
mod files;
#[cfg(test)]
mod lines;
#[cfg(test)]
mod long;
#[cfg(test)]
mod records;
#[cfg(test)]
mod steps;
#[cfg(test)]
mod worked;
