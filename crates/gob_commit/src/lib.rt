//! The commits of a run, group by group, and the laws of what they leave.
#![tactic(auto)]

mod commits;
mod flags;
mod group;
mod laws;
mod places;
mod rules;
mod sequence;

pub use commits::{commit_groups, state_or_empty};
pub use laws::{
    apart_units_publish_apart, nothing_is_done_at_first, one_more_is_done, parts_keep_the_rest,
    staged_maps_settle_alike, what_is_done_is_the_run,
};
pub use rules::{CommitRules, Committed};
