//! The laws of tasks. No function works here: each takes nothing and does nothing.
ghost use Rattle.gob_task.specs.Laws.{FirstBytesDecide, PulledAreFirst, StagedArePublished, TasksKeepTheirOwn};

/// The bytes that a task was fed are the first of its unit, and have the unit's verdict where they end it.
pub fn first_bytes_decide()
    ensures pulled { PulledAreFirst }
    ensures verdicts { FirstBytesDecide }
{}

/// What is staged of a good unit is what it has to publish.
pub fn staged_are_published()
    ensures { StagedArePublished }
{}

/// No other attempt changes what a task has staged.
pub fn tasks_keep_their_own()
    ensures { TasksKeepTheirOwn }
{}
