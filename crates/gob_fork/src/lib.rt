//! To which branches a row goes, and where it is placed in no folder.
#![tactic(auto)]

mod fork;
mod placed;
mod plain;

pub use fork::picks;
pub use placed::picks_at;
pub use plain::Plain;
