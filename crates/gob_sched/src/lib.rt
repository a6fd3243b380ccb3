//! The core of turns: which of the active units has the next one.
#![tactic(auto)]

ghost use Rattle.gob_sched.specs.Calls.{TurnsFollowTheSchedule};

mod turns;

pub use turns::Core;

/// After every list of calls the core picks by the schedule, among the first few units that haven't ended.
pub fn turns_follow_the_schedule()
    ensures { TurnsFollowTheSchedule }
{}
