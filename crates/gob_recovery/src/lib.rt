//! Commit sequences and what settling makes of a map of files: definitions and their laws. No function works here.
#![tactic(auto)]

ghost use Rattle.gob_recovery.specs.Examples.{BetweenMoves, WorkedCommit, WorkedDamage};
ghost use Rattle.gob_recovery.specs.Laws.{DamageIsOne, ImagesSettleAlike, OneSpelling, OpenedSettles};
ghost use Rattle.gob_recovery.specs.Laws.{SettlesOrIsDamaged};
ghost use Rattle.gob_recovery.specs.Laws.{SettlesToOne, SettlesToSettled, SettlingCanBeRepeated, StagingIsFree};
ghost use Rattle.gob_recovery.specs.Laws.{StepsChangeOnce};

/// A sequence's text determines its steps.
pub fn one_spelling_a_sequence()
    ensures { OneSpelling }
{}

/// A map settles to at most one map.
pub fn a_map_settles_to_one()
    ensures { SettlesToOne }
{}

/// A sequence that was stopped after any number of its steps is settled as if it had not been begun.
pub fn settling_can_be_repeated()
    ensures { SettlingCanBeRepeated }
{}

/// Whatever a crash leaves of a map settles to what a crash might leave of the settled map.
pub fn images_settle_alike()
    ensures { ImagesSettleAlike }
{}

/// What a map settles to has no open sequence and nothing staged.
pub fn settling_settles()
    ensures { SettlesToSettled }
{}

/// Staged files change nothing of what a map without a sequence settles to, whatever a crash leaves of them.
pub fn staging_is_free()
    ensures { StagingIsFree }
{}

/// Where settling isn't defined there is exactly one name to blame.
pub fn damage_is_one()
    ensures { DamageIsOne }
{}

/// Every map settles, or has a name to blame.
pub fn a_map_settles_or_is_damaged()
    ensures { SettlesOrIsDamaged }
{}

/// Once a sequence is open, the map settles as if its steps had been done.
pub fn an_open_sequence_settles()
    ensures { OpenedSettles }
{}

/// On the way each name has the file that it had, or the one that it will have.
pub fn steps_change_once()
    ensures { StepsChangeOnce }
{}

/// A commit of three steps, with its staging, settles to one of two maps after any of its calls.
pub fn a_commit_is_stopped_anywhere()
    ensures { WorkedCommit }
{}

/// A sequence between its two moves.
pub fn a_commit_between_its_moves()
    ensures { BetweenMoves }
{}

/// A sequence that was cut, and one of which a source is lost.
pub fn two_damaged_maps()
    ensures { WorkedDamage }
{}
