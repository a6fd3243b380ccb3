//! The turns of a run: each listed unit has them by the schedule until it has ended.
#![tactic(auto)]

mod course;
mod fault;
mod laws;
mod progress;
mod turn;
mod turns;

pub use fault::TurnsFault;
pub use laws::turns_go_on;
pub use turns::take_turns;
