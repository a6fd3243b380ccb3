//! Where each unit of a run stands.

use gob_plan::UnitResult;
use gob_task::Task;

/// Where a unit stands: it has had no turn, or its task goes on, or it has ended.
#[derive(Drop)]
pub enum Progress {
    Waits,
    Runs(Box<Task>),
    Ended(UnitResult),
}

/// What a turn came to: whether its pull failed, and whether the unit has ended.
#[derive(Clone, Copy)]
pub struct Step {
    pub failed: bool,
    pub ended: bool,
}
