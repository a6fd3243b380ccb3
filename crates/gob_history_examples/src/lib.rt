//! Worked maps, and what they stand for: definitions and their laws. No function works here.
#![tactic(auto)]

ghost use Rattle.gob_history_examples.specs.HalfLine.{HalfLineHistory};
ghost use Rattle.gob_history_examples.specs.Unsynced.{UnsyncedStandsForNothing};

/// A state file that isn't synced stands for nothing, since a crash may leave any bytes of it.
pub fn an_unsynced_state_stands_for_nothing()
    ensures { UnsyncedStandsForNothing }
{}

/// Two runs over a partition whose second line is half there at first: the second run is stopped between the moves of
/// its commit, and a call that settles comes after it. Each map stands for its state.
pub fn two_runs_over_a_half_line()
    ensures { HalfLineHistory }
{}
