//! What a job file reads as: its keys, their values, and the plan that a pipeline text stands for. No function works
//! here.
//! Each function states a law about these definitions; it takes nothing and does nothing.
#![tactic(auto)]

ghost use Rattle.gob_jobs.specs.Laws.{JobsAreRight, PlansAreRight, SettingsAreRead, UnknownKeysAreTold};
ghost use Rattle.gob_jobs.specs.TablesOfElements.{ElementTables};
ghost use Rattle.gob_jobs.specs.TablesOfKeys.{KeyTables};
ghost use Rattle.gob_jobs.specs.TablesOfPlans.{PlanTables};

/// A job that is read has a fitting plan and numbers in their ranges, and its pipeline text tells its plan.
pub fn jobs_are_right()
    ensures { JobsAreRight }
{}

/// A plan that a text tells fits, and the text is a pipeline text.
pub fn plans_are_right()
    ensures { PlansAreRight }
{}

/// A pipeline text reads as its settings, and no other text reads as any.
pub fn settings_are_read()
    ensures { SettingsAreRead }
{}

/// The keys that aren't known are those that no row of the key table has.
pub fn unknown_keys_are_told()
    ensures { UnknownKeysAreTold }
{}

/// Tables of what elements of lists read as, computed.
pub fn elements_read()
    ensures { ElementTables }
{}

/// Tables of what job files read as, key by key, computed.
pub fn job_files_read()
    ensures { KeyTables }
{}

/// Tables of what pipeline texts read as, and the worked job files, computed.
pub fn pipeline_texts_read()
    ensures { PlanTables }
{}
