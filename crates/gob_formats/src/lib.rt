//! From a line to its rows, and from a row to its record, for each format.
//!
//! The calls that add to lists and buffers of the caller's do the work; as converters the same decoder and encoder make
//! a list of their own.
#![tactic(auto)]

mod adding;
mod csv_read;
mod csv_write;
mod decoder;
mod encoder;
mod fields;
mod json_read;
mod json_write;
mod lines;

pub use decoder::{LineDecoder, LineScratch};
pub use encoder::RowEncoder;
