//! What a job owes and has done: ranges, states, units, turns and the state after a run: definitions and their laws.
//! No function works here.
#![tactic(auto)]

ghost use Rattle.gob_ledger.specs.Examples.{WorkedExamples};
ghost use Rattle.gob_ledger.specs.Laws.{ChangesAreNumbered, GroupsAreGrouping, GrownArchive, KeptNextIsProper};
ghost use Rattle.gob_ledger.specs.Laws.{NextExpects, NextFollows, NextInOrder, NextIsProper, NextTiles, NextTotals};
ghost use Rattle.gob_ledger.specs.Laws.{NextWithin, OthersStillFit, UnitsFitState, UnitsLieOnLines};
ghost use Rattle.gob_ledger.specs.TurnLaws.{BoundsSuffice, GivingUpTakesFailures, NoFailureNoFault};
ghost use Rattle.gob_ledger.specs.TurnLaws.{OnlyListedHaveTurns, OwnPullsArePieces, TurnsAreFew, TurnsAreScheduled};
ghost use Rattle.gob_ledger.specs.TurnLaws.{UnitsPullTheirOwn};
ghost use Rattle.gob_ledger.specs.UnitLaws.{EmptyIsProper, ListedUnitsAreHeld, NewUnitsReachTheEnd, NothingIsLost};
ghost use Rattle.gob_ledger.specs.UnitLaws.{UnitsAreOwedOrNew, UnitsAreProper, UnitsHaveBytes};
ghost use Rattle.gob_ledger.specs.WorkedRuns.{WorkedRuns};
ghost use Rattle.gob_ledger.specs.WorkedUnits.{WorkedUnits};
ghost use Rattle.gob_ledger.specs.WorkedTurns.{WorkedTurns};
ghost use Rattle.gob_ledger.specs.WorkedStates.{WorkedStates};
ghost use Rattle.gob_ledger.specs.Laws.{ChangesAreNumbered, GroupsAreGrouping, GrownArchive, KeepsOne};
ghost use Rattle.gob_ledger.specs.Laws.{KeptNextIsProper, NextExpects, NextFollows, NextInOrder, NextIsProper};
ghost use Rattle.gob_ledger.specs.Laws.{NextTiles, NextTotals, NextWithin, OneSpellingAChange, OneSpellingAState};
ghost use Rattle.gob_ledger.specs.Laws.{OthersStillFit, StateDamageIsOne, UnitsFitState, UnitsLieOnLines};
ghost use Rattle.gob_ledger.specs.SpellingLaws.{ChangeIsReadOrNot, ChangeKeepsNext, KeptOrDamaged, TextIsReadOrNot};
ghost use Rattle.gob_ledger.specs.SpellingLaws.{WrittenReadsBack};

/// How states and changes are spelled, and what is published, by computing.
pub fn worked_examples()
    ensures { WorkedExamples }
{}

/// The units of a run fit its state: each once, the old ones owed, the new ones of a partition behind each other.
pub fn units_fit_the_state()
    ensures { UnitsFitState }
{}

/// Each unit that is listed lies in its partition and holds whole lines.
pub fn units_lie_on_lines()
    ensures { UnitsLieOnLines }
{}

/// After a run each offset below a partition's `next` still lies in exactly one range.
pub fn next_state_is_tiled()
    ensures { NextTiles }
{}

/// A run keeps the partitions of the state in byte order.
pub fn next_state_is_in_order()
    ensures { NextInOrder }
{}

/// After a run the files of the state before are expected, and those of the committed units, and no others.
pub fn next_state_expects()
    ensures { NextExpects }
{}

/// Where partitions grow, what is expected of a state and what it counted stay as they were.
pub fn grown_archive_says_the_same()
    ensures { GrownArchive }
{}

/// Totals that are the sums of what the done ranges made stay so after a run.
pub fn next_state_totals()
    ensures { NextTotals }
{}

/// Ranges that lie in an archive on whole lines do so after a run whose new units lie in it.
pub fn next_state_lies_within()
    ensures { NextWithin }
{}

/// A state that can be kept is followed by one.
pub fn next_state_is_proper()
    ensures { NextIsProper }
{}

/// The groups of a run share no partition, and each has all units of its partitions.
pub fn groups_share_no_partition()
    ensures { GroupsAreGrouping }
{}

/// Units that fit a state still do after the commit of a group that has none of their partitions.
pub fn other_groups_still_fit()
    ensures { OthersStillFit }
{}

/// A commit that isn't the last leads to a state that follows the one before.
pub fn next_state_follows()
    ensures { NextFollows }
{}

/// What is kept after one more commit is proper, and keeps the next state.
pub fn what_is_kept_next_is_proper()
    ensures { KeptNextIsProper }
{}

/// The changes that a state stands on have the numbers up to its run.
pub fn changes_are_numbered()
    ensures { ChangesAreNumbered }
{}

/// The turns of a run are the schedule's, counted from the turns had so far, until no unit is left.
pub fn turns_come_by_the_schedule()
    ensures { TurnsAreScheduled }
{}

/// A run has no more turns than its units have pieces, once more for each retry.
pub fn turns_are_few()
    ensures { TurnsAreFew }
{}

/// No cut, round, pull or turn is missing for want of the bound by which it is computed.
pub fn bounds_suffice()
    ensures { BoundsSuffice }
{}

/// A unit's own pulls are its pieces in order, up to the first that stops it, else up to its end.
pub fn own_pulls_are_pieces()
    ensures { OwnPullsArePieces }
{}

/// What a unit pulls since it last began is a front of its own pulls, and in the end all of them, unless it is given
/// up.
pub fn units_pull_their_own()
    ensures { UnitsPullTheirOwn }
{}

/// A unit that isn't listed has no turn.
pub fn only_listed_units_have_turns()
    ensures { OnlyListedHaveTurns }
{}

/// A unit is given up after as many failed turns of it as it may have and one more, and at no other time.
pub fn giving_up_takes_failures()
    ensures { GivingUpTakesFailures }
{}

/// Where no turn fails, the verdicts are those of the units' bytes.
pub fn no_failure_no_fault()
    ensures { NoFailureNoFault }
{}

/// An offset that isn't done lies in a unit of each next run, or at its partition's `next` or above.
pub fn nothing_is_lost()
    ensures { NothingIsLost }
{}

/// A unit of a run is an owed range, or lies at its partition's `next` or above.
pub fn units_are_owed_or_new()
    ensures { UnitsAreOwedOrNew }
{}

/// Each listed unit of a run has bytes.
pub fn units_have_bytes()
    ensures { UnitsHaveBytes }
{}

/// A run takes as many new units as it may, or every line that is new.
pub fn new_units_reach_the_end()
    ensures { NewUnitsReachTheEnd }
{}

/// The state of a job that has committed nothing can be kept.
pub fn empty_state_is_proper()
    ensures { EmptyIsProper }
{}

/// The units of a run over a state that can be kept can be kept.
pub fn units_are_proper()
    ensures { UnitsAreProper }
{}

/// Each listed unit of a run ends within what is held, where no partition shrank.
pub fn listed_units_are_held()
    ensures { ListedUnitsAreHeld }
{}

/// What runs over small partitions make, by computing.
pub fn worked_runs()
    ensures { WorkedRuns }
{}

/// What the definitions make of ranges, cuts and names, by computing.
pub fn worked_units()
    ensures { WorkedUnits }
{}

/// Whose turn it is and what turns leave, by computing.
pub fn worked_turns()
    ensures { WorkedTurns }
{}

/// What commits make of states, and which units they have, by computing.
pub fn worked_states()
    ensures { WorkedStates }
{}

/// In each version a text is that of one state, and no text is of both versions.
pub fn a_text_is_of_one_state()
    ensures { OneSpellingAState }
{}

/// Behind a state a text is the change to one state.
pub fn a_text_leads_to_one_state()
    ensures { OneSpellingAChange }
{}

/// What is written of a state reads back: it has one text in the second version, and in the first at most one.
pub fn what_is_written_reads_back()
    ensures { WrittenReadsBack }
{}

/// Whether a text is a state's can be told.
pub fn a_text_is_read_or_not()
    ensures { TextIsReadOrNot }
{}

/// Whether a text leads from a state to another can be told.
pub fn a_change_is_read_or_not()
    ensures { ChangeIsReadOrNot }
{}

/// A map keeps one thing.
pub fn a_map_keeps_one_thing()
    ensures { KeepsOne }
{}

/// A damaged map keeps nothing that can be read, and one name is to blame.
pub fn state_damage_is_one()
    ensures { StateDamageIsOne }
{}

/// A map whose changes are listed keeps one thing, or has a name to blame.
pub fn a_map_keeps_or_is_damaged()
    ensures { KeptOrDamaged }
{}

/// What the change to the next state writes over what is kept keeps that state behind it.
pub fn a_change_keeps_the_next_state()
    ensures { ChangeKeepsNext }
{}
