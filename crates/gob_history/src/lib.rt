//! What maps of files stand for over lists of runs, wherever each run is stopped: definitions and their laws. No
//! function works here.
#![tactic(auto)]

ghost use Rattle.gob_history.specs.Examples.{PlainHistory};
ghost use Rattle.gob_history.specs.Laws.{CommittingAGroup, GroupsLeaveOneMore, GroupsStayDurable, HistoryRecovers};
ghost use Rattle.gob_history.specs.Laws.{RisingMapsRecover, RunGoesAlong, RunLeavesSound};
ghost use Rattle.gob_history.specs.Sound.{RecoveringIsDurable, RecoversToOne, DurableRecovers};

/// Whatever settles to a steady map stands for that map's state, whatever a crash leaves of it.
pub fn durable_maps_recover()
    ensures { DurableRecovers }
{}

/// Maps that settle as one steady map and then as another go from its state to the other's.
pub fn rising_maps_recover()
    ensures { RisingMapsRecover }
{}

/// What stands for a state settles to a steady map that stores it.
pub fn recovering_is_durable()
    ensures { RecoveringIsDurable }
{}

/// A run from a sound map leaves one that is sound for the state after it.
pub fn a_run_leaves_a_sound_map()
    ensures { RunLeavesSound }
{}

/// From a steady map the commits of a run's groups go along steady maps.
pub fn groups_stay_durable()
    ensures { GroupsStayDurable }
{}

/// Over runs of any number, each stopped anywhere: every map stands for a state, and what is done stays done with the
/// same files.
pub fn history_law()
    ensures { HistoryRecovers }
{}

/// What the commits of some groups and then of one more leave is what the commits of them all leave.
pub fn groups_leave_one_more()
    ensures { GroupsLeaveOneMore }
{}

/// The maps of a run that settle as its groups' maps do go along the run's states.
pub fn a_run_goes_along_its_states()
    ensures { RunGoesAlong }
{}

/// One plain run from an empty volume: its maps stand for their states, and it is a history.
pub fn a_plain_history()
    ensures { PlainHistory }
{}

/// The steps of a group's commit leave its files and its state, and nothing else of the job has changed.
pub fn committing_a_group()
    ensures { CommittingAGroup }
{}

/// A map recovers to one state.
pub fn a_map_recovers_to_one_state()
    ensures { RecoversToOne }
{}
