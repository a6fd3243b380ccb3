//! The state of a job, and how it is read, written and gone on from.
#![tactic(auto)]

mod counts;
mod lines;
mod next;
mod parts;
mod pipelines;
mod push;
mod ranges;
mod read;
mod settings;
mod state;
mod version;
mod write;

pub use counts::take_totals;
pub use lines::take_numbered;
pub use next::{Outcome, are_good, empty_state, is_allowed, is_any_allowed, is_good, next_state};
pub use parts::take_head;
pub use pipelines::{has_pipeline, take_pipeline};
pub use push::{push_numbered, push_part, push_pipelines, push_totals};
pub use ranges::{RangeLine, take_range};
pub use read::{read_state, read_versioned};
pub use state::State;
pub use version::{Version, take_version};
pub use write::write_state;
