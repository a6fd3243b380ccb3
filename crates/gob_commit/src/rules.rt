//! By what units are committed, and what that came to.

use gob_plan::{CommitPolicy, CommitScope, List};
use gob_state::State;

/// By what a run's units are committed.
#[derive(Clone, Copy)]
pub struct CommitRules<'a> {
    pub job: &'a str,
    pub pipeline: &'a str,
    pub branches: u32,
    pub policy: CommitPolicy,
    pub scope: CommitScope,
}

/// What the commits of a run came to.
#[derive(Drop)]
pub struct Committed {
    /// The state behind the last commit.
    pub after: State,
    /// Of each unit, whether it was committed.
    pub committed: List<bool>,
}
