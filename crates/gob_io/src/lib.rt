//! Where records come from and where texts go: sources of growing partitions, and sinks of bytes.
#![tactic(auto)]

mod by_name;
mod dir_source;
mod line_ends;
mod listing;
mod mem_sink;
mod mem_source;
mod sink;
mod source;
mod std_sink;

pub use dir_source::DirSource;
pub use mem_sink::MemSink;
pub use mem_source::{MemSource, Pulled};
pub use sink::Sink;
pub use source::{ListFault, Part, Source};
pub use std_sink::StdSink;
