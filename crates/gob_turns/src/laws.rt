//! The laws of turns.
ghost use Rattle.gob_turns.specs.TurnLaws.{LastTurn, NoTurnAtFirst, OneMoreFailure, OneMoreTurn};

/// The turns of a run, one after the other, whichever of them fail.
pub fn turns_go_on()
    ensures first { NoTurnAtFirst }
    ensures answered { OneMoreTurn }
    ensures failed { OneMoreFailure }
    ensures last { LastTurn }
{}
