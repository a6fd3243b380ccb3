//! What a pipeline text doesn't tell: by which rules the job's runs go.
ghost use Rattle.std.specs.Prelude.{◌≡◌};
ghost use Rattle.gob_plan.specs.declared.plan.Plan.{Plan};
ghost use Rattle.gob_jobs.specs.KeyTable.{known_value};
ghost use Rattle.gob_jobs.specs.Words.{number_within};
ghost use Rattle.gob_job.specs.Drafts.{ReadsRule};
ghost use Rattle.gob_job.specs.Faults.{ReadsValue};
ghost use Rattle.gob_job.specs.declared.run_rules.RulesField.TheVariants as field;

use crate::cuts::number_within;
use crate::faults::ValueFault;
use crate::lists::{listed, read_schedule, with_task_modes};
use crate::rules::read_rules;
use crate::tables::{TASK_MODES, commit_policy_of, commit_scope_of, source_of};
use gob_plan::{CommitPolicy, CommitScope, List, TaskPolicy, Text};
use std::alloc::Global;

/// What a key that the pipeline text doesn't tell sets.
#[derive(Clone, Copy)]
pub(crate) enum RulesField {
    JobName,
    SourceClass,
    Prefix,
    MaxBytes,
    MaxNewUnits,
    SkipErrors,
    TaskRules,
    TaskModes,
    Policy,
    MaxRetries,
    Slots,
    Piece,
    Schedule,
    Scope,
}

/// The rules so far. Before they are read, nothing is limited, and a piece is past a `u32`.
#[derive(Drop)]
pub(crate) struct RunRules {
    pub(crate) prefix: Text,
    pub(crate) max_bytes: u64,
    pub(crate) max_new_units: u64,
    pub(crate) skip_errors: u64,
    pub(crate) task_policies: List<TaskPolicy>,
    pub(crate) policy: CommitPolicy,
    pub(crate) max_retries: u64,
    pub(crate) slots: u64,
    pub(crate) piece: u64,
    pub(crate) schedule: List<u32>,
    pub(crate) scope: CommitScope,
}

// A number in this range.
fn number(low: u64, high: u64, value: &str) -> Result<u64, ValueFault>
    ensures { ReadsValue (λ n. n) result (known_value (number_within low high value.now)) }
{
    match number_within(low, high, value.as_bytes()) {
        Some(n) => Ok(n),
        None => Err(ValueFault::bad_value()),
    }
}

impl RunRules {
    fn read_prefix(&mut self, alloc: Global, value: &str) -> Result<(), ValueFault>
        ensures { (plan : Plan) → ReadsRule field.Prefix plan self.old self.new value.now result }
    {
        self.prefix = Text::from_str(alloc, value)?;
        Ok(())
    }

    fn read_source(&self, value: &str) -> Result<(), ValueFault>
        ensures { (plan : Plan) → ReadsRule field.SourceClass plan self.now self.now value.now result }
    {
        match source_of(value.as_bytes()) {
            Some(()) => Ok(()),
            None => Err(ValueFault::bad_value()),
        }
    }

    fn read_rules(&mut self, alloc: Global, branches: u32, value: &str) -> Result<(), ValueFault>
        ensures { (plan : Plan) → plan.fork.branches ≡ branches
            → ReadsRule field.TaskRules plan self.old self.new value.now result }
    {
        let Some(policies) = read_rules(alloc, branches, value.as_bytes())? else {
            return Err(ValueFault::bad_value());
        };
        self.task_policies = policies;
        Ok(())
    }

    #[tactic(auto, unfolding(gob_jobs::specs::KeyTable::modes_listed))]
    fn read_modes(&mut self, alloc: Global, value: &str) -> Result<(), ValueFault>
        ensures { (plan : Plan) → ReadsRule field.TaskModes plan self.old self.new value.now result }
    {
        let Some(modes) = listed(alloc, &TASK_MODES, value.as_bytes())? else {
            return Err(ValueFault::bad_value());
        };
        if modes.len() != self.task_policies.len() {
            return Err(ValueFault::BadCount);
        }
        let policies = with_task_modes(alloc, self.task_policies.as_slice(), modes.as_slice())?;
        self.task_policies = policies;
        Ok(())
    }

    fn read_policy(&mut self, value: &str) -> Result<(), ValueFault>
        ensures { (plan : Plan) → ReadsRule field.Policy plan self.old self.new value.now result }
    {
        let Some(policy) = commit_policy_of(value.as_bytes()) else {
            return Err(ValueFault::bad_value());
        };
        self.policy = policy;
        Ok(())
    }

    fn read_schedule(&mut self, alloc: Global, value: &str) -> Result<(), ValueFault>
        ensures { (plan : Plan) → ReadsRule field.Schedule plan self.old self.new value.now result }
    {
        let Some(schedule) = read_schedule(alloc, value.as_bytes())? else {
            return Err(ValueFault::bad_value());
        };
        self.schedule = schedule;
        Ok(())
    }

    fn read_scope(&mut self, value: &str) -> Result<(), ValueFault>
        ensures { (plan : Plan) → ReadsRule field.Scope plan self.old self.new value.now result }
    {
        let Some(scope) = commit_scope_of(value.as_bytes()) else {
            return Err(ValueFault::bad_value());
        };
        self.scope = scope;
        Ok(())
    }

    fn read_max_bytes(&mut self, value: &str) -> Result<(), ValueFault>
        ensures { (plan : Plan) → ReadsRule field.MaxBytes plan self.old self.new value.now result }
    {
        self.max_bytes = number(1, 1_073_741_824, value)?;
        Ok(())
    }

    fn read_max_new_units(&mut self, value: &str) -> Result<(), ValueFault>
        ensures { (plan : Plan) → ReadsRule field.MaxNewUnits plan self.old self.new value.now result }
    {
        self.max_new_units = number(1, 10_000, value)?;
        Ok(())
    }

    fn read_skip_errors(&mut self, value: &str) -> Result<(), ValueFault>
        ensures { (plan : Plan) → ReadsRule field.SkipErrors plan self.old self.new value.now result }
    {
        self.skip_errors = number(0, 1_000_000_000, value)?;
        Ok(())
    }

    fn read_max_retries(&mut self, value: &str) -> Result<(), ValueFault>
        ensures { (plan : Plan) → ReadsRule field.MaxRetries plan self.old self.new value.now result }
    {
        self.max_retries = number(0, 100, value)?;
        Ok(())
    }

    fn read_slots(&mut self, value: &str) -> Result<(), ValueFault>
        ensures { (plan : Plan) → ReadsRule field.Slots plan self.old self.new value.now result }
    {
        self.slots = number(1, 64, value)?;
        Ok(())
    }

    fn read_piece(&mut self, value: &str) -> Result<(), ValueFault>
        ensures { (plan : Plan) → ReadsRule field.Piece plan self.old self.new value.now result }
    {
        self.piece = number(1, 1_048_576, value)?;
        Ok(())
    }

    /// Reads the value of a key that the pipeline text doesn't tell, where there are so many branches. After a fault
    /// the rules are not read on.
    pub(crate) fn read(
        &mut self,
        alloc: Global,
        branches: u32,
        field: RulesField,
        value: &str,
    ) -> Result<(), ValueFault>
        ensures { (plan : Plan) → plan.fork.branches ≡ branches
            → ReadsRule field plan self.old self.new value.now result }
    {
        match field {
            RulesField::JobName => Ok(()),
            RulesField::SourceClass => self.read_source(value),
            RulesField::Prefix => self.read_prefix(alloc, value),
            RulesField::MaxBytes => self.read_max_bytes(value),
            RulesField::MaxNewUnits => self.read_max_new_units(value),
            RulesField::SkipErrors => self.read_skip_errors(value),
            RulesField::TaskRules => self.read_rules(alloc, branches, value),
            RulesField::TaskModes => self.read_modes(alloc, value),
            RulesField::Policy => self.read_policy(value),
            RulesField::MaxRetries => self.read_max_retries(value),
            RulesField::Slots => self.read_slots(value),
            RulesField::Piece => self.read_piece(value),
            RulesField::Schedule => self.read_schedule(alloc, value),
            RulesField::Scope => self.read_scope(value),
        }
    }
}
