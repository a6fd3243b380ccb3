//! What the commits of a run leave, group by group. Each function states a law; it takes nothing and does nothing.

ghost use Rattle.gob_commit.specs.Laws.{AllDoneIsTheRun, ApartUnitsPublishApart, DoneGoesAlong};
ghost use Rattle.gob_commit.specs.Laws.{NothingIsDoneAtFirst, OneMoreIsDone, PartsKeepTheRest};
ghost use Rattle.gob_commit.specs.Laws.{StagedMapsSettleAlike, UncommittedChangesNothing};

/// Before the first commit nothing is done.
pub fn nothing_is_done_at_first()
    ensures { NothingIsDoneAtFirst }
{}

/// The commit of one more group.
pub fn one_more_is_done()
    ensures committed { OneMoreIsDone }
    ensures uncommitted { UncommittedChangesNothing }
{}

/// Units of different partitions publish files of different names.
pub fn apart_units_publish_apart()
    ensures { ApartUnitsPublishApart }
{}

/// The commit of a group leaves what other groups have staged.
pub fn parts_keep_the_rest()
    ensures { PartsKeepTheRest }
{}

/// Maps that differ from a settled one in staged files alone settle as it does.
pub fn staged_maps_settle_alike()
    ensures { StagedMapsSettleAlike }
{}

/// Wherever a run is stopped between its commits, its maps go along its states; and what stands behind the last commit
/// is what the run leaves.
pub fn what_is_done_is_the_run()
    ensures stopped { DoneGoesAlong }
    ensures ended { AllDoneIsTheRun }
{}
