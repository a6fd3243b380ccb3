//! Commit sequences: their text, how a sequence is committed, and how what a stopped run left is settled.
#![tactic(auto)]

mod commits;
mod faults;
mod place;
mod read;
mod sequence;
mod settling;
mod staging;
mod steps;
mod write;

pub use commits::{commit, commit_part, is_ready, write_file};
pub use faults::{CommitFault, SettleFault};
pub use read::read_sequence;
pub use sequence::{SeqStep, Sequence};
pub use settling::{Settled, settle};
pub use staging::clean_staging;
pub use write::write_sequence;
