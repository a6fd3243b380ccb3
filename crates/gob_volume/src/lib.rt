//! Named files that outlast a run: what a volume is, a volume in memory, and one in a folder.
#![tactic(auto)]

mod calls;
mod dir_volume;
mod failures;
mod file_table;
mod mem_volume;
mod store;
mod stored;
mod volume;

pub use dir_volume::DirVolume;
pub use mem_volume::MemVolume;
pub use volume::{ReadFault, Volume};
