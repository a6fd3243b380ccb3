//! The tests of formats and of folders, over their public items: lines, rows and days worked out by hand, and that each
//! call which may want memory answers where there is some.
#![tactic(auto)]

#[cfg(test)]
mod decoding;
#[cfg(test)]
mod encoding;
#[cfg(test)]
mod helpers;
#[cfg(test)]
mod long;
#[cfg(test)]
mod places;
