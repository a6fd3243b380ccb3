//! What a pipeline text tells: the plan so far, and the branch that is being read.
ghost use Rattle.std.specs.Prelude.{◌≡◌, IfOk};
ghost use Rattle.gob_jobs.specs.KeyTable as spec;
ghost use Rattle.gob_job.specs.Drafts.{ReadsField, draft_from};
ghost use Rattle.gob_job.specs.declared.draft.PlanField.TheVariants as field;

use crate::checks::read_test;
use crate::columns::columns_through;
use crate::cuts::number_within;
use crate::faults::ValueFault;
use crate::lists::{
    listed, policies_listed, read_columns, read_format, read_place, steps_listed, with_modes,
};
use crate::tables::{ROW_MODES, fork_of, format_of, truth_of};
use gob_plan::{BranchSpec, Column, ForkHow, List, NoMemory, Plan};
use std::alloc::Global;

/// What a key of the pipeline text sets.
#[derive(Clone, Copy)]
pub(crate) enum PlanField {
    Format,
    Columns,
    SkipHeader,
    Steps,
    ForkHow,
    Branches,
    ForkTest,
    BranchSteps,
    Policies,
    PolicyModes,
    BranchFormat,
    Place,
}

/// The plan so far, and the branch that is being read.
#[derive(Drop)]
pub(crate) struct Draft {
    pub(crate) plan: Plan,
    pub(crate) branch: BranchSpec,
}

impl Draft {
    // The columns behind the shared steps.
    fn shared_columns(&self, alloc: Global) -> Result<List<Column>, NoMemory>
        ensures { IfOk result (λ columns. columns ≡ spec.shared_columns self.now.plan) }
    {
        columns_through(
            alloc,
            self.plan.steps.as_slice(),
            self.plan.columns.as_slice(),
        )
    }

    // The columns behind the branch's steps.
    fn branch_columns(&self, alloc: Global) -> Result<List<Column>, NoMemory>
        ensures { IfOk result (λ columns. columns ≡ spec.branch_columns (draft_from self.now)) }
    {
        let shared = self.shared_columns(alloc)?;
        columns_through(alloc, self.branch.steps.as_slice(), shared.as_slice())
    }

    fn read_format(&mut self, value: &[u8]) -> Result<(), ValueFault>
        ensures { ReadsField field.Format self.old self.new value.now result }
    {
        let Some(format) = format_of(value) else {
            return Err(ValueFault::bad_value());
        };
        self.plan.format = format;
        Ok(())
    }

    fn read_columns(&mut self, alloc: Global, value: &[u8]) -> Result<(), ValueFault>
        ensures { ReadsField field.Columns self.old self.new value.now result }
    {
        let Some(columns) = read_columns(alloc, self.plan.format, value)? else {
            return Err(ValueFault::bad_value());
        };
        self.plan.columns = columns;
        Ok(())
    }

    fn read_header(&mut self, value: &[u8]) -> Result<(), ValueFault>
        ensures { ReadsField field.SkipHeader self.old self.new value.now result }
    {
        let Some(skip) = truth_of(value) else {
            return Err(ValueFault::bad_value());
        };
        self.plan.skip_header = skip;
        Ok(())
    }

    fn read_steps(&mut self, alloc: Global, value: &[u8]) -> Result<(), ValueFault>
        ensures { ReadsField field.Steps self.old self.new value.now result }
    {
        let steps = steps_listed(alloc, self.plan.columns.as_slice(), value)?;
        self.plan.steps = steps;
        Ok(())
    }

    fn read_fork(&mut self, value: &[u8]) -> Result<(), ValueFault>
        ensures { ReadsField field.ForkHow self.old self.new value.now result }
    {
        let Some(how) = fork_of(value) else {
            return Err(ValueFault::bad_value());
        };
        self.plan.fork.how = how;
        Ok(())
    }

    fn read_branches(&mut self, value: &[u8]) -> Result<(), ValueFault>
        ensures { ReadsField field.Branches self.old self.new value.now result }
    {
        let Some(branches) = number_within(1, 8, value) else {
            return Err(ValueFault::bad_value());
        };
        self.plan.fork.branches = branches as u32;
        Ok(())
    }

    // Where each branch takes every row there is nothing to test.
    #[tactic(auto, unfolding(gob_jobs::specs::KeyTable::fork_tests))]
    fn read_fork_test(&mut self, alloc: Global, value: &[u8]) -> Result<(), ValueFault>
        ensures { ReadsField field.ForkTest self.old self.new value.now result }
    {
        if self.plan.fork.how == ForkHow::All {
            if value.is_empty() {
                return Ok(());
            }
            return Err(ValueFault::bad_value());
        }
        let columns = self.shared_columns(alloc)?;
        let test = read_test(alloc, columns.as_slice(), value)?;
        self.plan.fork.tests.push(test)?;
        Ok(())
    }

    fn read_branch_steps(&mut self, alloc: Global, value: &[u8]) -> Result<(), ValueFault>
        ensures { ReadsField field.BranchSteps self.old self.new value.now result }
    {
        let columns = self.shared_columns(alloc)?;
        let steps = steps_listed(alloc, columns.as_slice(), value)?;
        self.branch.steps = steps;
        Ok(())
    }

    fn read_policies(&mut self, alloc: Global, value: &[u8]) -> Result<(), ValueFault>
        ensures { ReadsField field.Policies self.old self.new value.now result }
    {
        let columns = self.branch_columns(alloc)?;
        let policies = policies_listed(alloc, columns.as_slice(), value)?;
        self.branch.policies = policies;
        Ok(())
    }

    #[tactic(auto, unfolding(gob_jobs::specs::KeyTable::modes_listed))]
    fn read_modes(&mut self, alloc: Global, value: &[u8]) -> Result<(), ValueFault>
        ensures { ReadsField field.PolicyModes self.old self.new value.now result }
    {
        let Some(modes) = listed(alloc, &ROW_MODES, value)? else {
            return Err(ValueFault::bad_value());
        };
        if modes.len() != self.branch.policies.len() {
            return Err(ValueFault::BadCount);
        }
        let policies = with_modes(alloc, self.branch.policies.as_slice(), modes.as_slice())?;
        self.branch.policies = policies;
        Ok(())
    }

    fn read_branch_format(&mut self, alloc: Global, value: &[u8]) -> Result<(), ValueFault>
        ensures { ReadsField field.BranchFormat self.old self.new value.now result }
    {
        let columns = self.branch_columns(alloc)?;
        self.branch.format = read_format(columns.as_slice(), value)?;
        Ok(())
    }

    fn read_place(&mut self, alloc: Global, value: &[u8]) -> Result<(), ValueFault>
        ensures { ReadsField field.Place self.old self.new value.now result }
    {
        let columns = self.branch_columns(alloc)?;
        let place = read_place(alloc, columns.as_slice(), value)?;
        self.branch.place = place;
        Ok(())
    }

    /// Reads the value of a key of the pipeline text over what was read before it. After a fault the draft is not read
    /// on.
    pub(crate) fn read(
        &mut self,
        alloc: Global,
        field: PlanField,
        value: &[u8],
    ) -> Result<(), ValueFault>
        ensures { ReadsField field self.old self.new value.now result }
    {
        match field {
            PlanField::Format => self.read_format(value),
            PlanField::Columns => self.read_columns(alloc, value),
            PlanField::SkipHeader => self.read_header(value),
            PlanField::Steps => self.read_steps(alloc, value),
            PlanField::ForkHow => self.read_fork(value),
            PlanField::Branches => self.read_branches(value),
            PlanField::ForkTest => self.read_fork_test(alloc, value),
            PlanField::BranchSteps => self.read_branch_steps(alloc, value),
            PlanField::Policies => self.read_policies(alloc, value),
            PlanField::PolicyModes => self.read_modes(alloc, value),
            PlanField::BranchFormat => self.read_branch_format(alloc, value),
            PlanField::Place => self.read_place(alloc, value),
        }
    }
}
