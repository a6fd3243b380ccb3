//! What a job has committed.

use gob_marks::MarkTable;
use gob_plan::{Counts, List, Text};
use std::marker::Model;

/// What a job has committed. Contracts see the ledger's state.
#[derive(Drop)]
pub struct State {
    /// How many commits were made. It stops at the end of a `u64`.
    pub run: u64,
    /// The texts of the pipelines that made them. A done range names one by its place.
    pub pipelines: List<Text>,
    pub totals: Counts,
    pub marks: MarkTable,
}

impl Model for State {
    ghost use Rattle.gob_ledger.specs.State as states;

    ghost Value = { states.State };

    ghost view = { λ s. record { run = s.run; pipelines = s.pipelines; totals = s.totals; parts = s.marks } };
}
