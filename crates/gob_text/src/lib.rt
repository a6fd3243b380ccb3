//! How numbers, names and lines are read and written, byte by byte.
//!
//! Reading takes no memory, but for an escaped name. What writes extends a vector that it is lent; after an
//! `AllocError` the vector holds what it held and a front of the addition.
#![tactic(auto)]

mod ends;
mod front;
mod names;
mod numbers;
mod words;

pub use ends::{first_line_end, last_line_end};
pub use names::{escaped_len, is_column_name, is_job_name, push_escaped, unescape};
pub use numbers::{push_i64, push_offset, push_u64, read_i64, read_u64};
pub use words::Words;
