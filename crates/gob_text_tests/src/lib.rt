//! The tests of the crates that hold data, read and write texts and put converters together, over their public items:
//! values worked out by hand, and that each call which may want memory answers where there is some.
#![tactic(auto)]

#[cfg(test)]
mod compare;
#[cfg(test)]
mod conversions;
#[cfg(test)]
mod copies;
#[cfg(test)]
mod properties;
#[cfg(test)]
mod texts;
#[cfg(test)]
mod trials;
