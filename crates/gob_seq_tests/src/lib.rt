//! The tests of commit sequences, over public items: which steps make a sequence, which texts are one, what a stopped
//! commit leaves once it is settled, and which damage is told.
#![tactic(auto)]

#[cfg(test)]
mod compare;
#[cfg(test)]
mod damaged;
#[cfg(test)]
mod files;
#[cfg(test)]
mod sequences;
#[cfg(test)]
mod stopped;
