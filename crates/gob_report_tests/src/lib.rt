//! The tests of the texts that commands write, over public items: texts written by hand, to the byte.
#![tactic(auto)]

#[cfg(test)]
mod commands;
#[cfg(test)]
mod compare;
#[cfg(test)]
mod made;
#[cfg(test)]
mod plans;
#[cfg(test)]
mod refusals;
#[cfg(test)]
mod runs;
