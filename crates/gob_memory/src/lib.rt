//! What the devices in memory share: values by name, failures that are planned, and reads that fill a buffer.
#![tactic(auto)]

mod counts;
mod fill;
mod planned;
mod table;

pub use counts::Counts;
pub use fill::fill_from;
pub use planned::Planned;
pub use table::{find, get, set, take};
