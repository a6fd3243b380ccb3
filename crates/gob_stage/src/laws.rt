//! The laws of staged files.
ghost use Rattle.gob_stage.specs.Laws.{AttemptsAreApart, AttemptsAreStaged, HeldByItsFolder, NewHoldsNothing};

/// An attempt that has begun nothing holds nothing.
pub fn new_holds_nothing()
    ensures { NewHoldsNothing }
{}

/// What an attempt holds depends on its folder alone.
pub fn held_by_its_folder()
    ensures { HeldByItsFolder }
{}

/// No name is in the folders of two attempts, so what one of them stages changes nothing of the other's.
pub fn attempts_are_apart()
    ensures { AttemptsAreApart }
{}

/// What an attempt stages is among the job's staged files.
pub fn attempts_are_staged()
    ensures { AttemptsAreStaged }
{}
