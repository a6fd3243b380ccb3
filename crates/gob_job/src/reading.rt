//! The rows of the key table, read one after the other over a look-up of values.
ghost use Rattle.std.specs.Prelude.{◌≡◌, IfOk};
ghost use Rattle.std.specs.List.{range_with_len};
ghost use Rattle.gob_jobs.specs.Reading as spec;
ghost use Rattle.gob_job.specs.Drafts.{rules_from};
ghost use Rattle.gob_job.specs.Faults.{ReadsValue};
ghost use Rattle.gob_job.specs.LookUps.{look_of};
ghost use Rattle.gob_job.specs.Readings.{Leaves, reading_from};
ghost use Rattle.gob_job.specs.Rows.{reader_of, row_from, rows_from};

use crate::draft::Draft;
use crate::faults::{JobFault, ValueFault};
use crate::lists::line_columns;
use crate::rows::{Field, Row};
use crate::run_rules::RunRules;
use crate::values::{Values, key_that_counts, value_of_row};
use gob_plan::{
    BranchSpec, CommitPolicy, CommitScope, ForkHow, ForkSpec, Format, List, NoMemory, PlaceSpec,
    Plan, Text,
};
use std::alloc::Global;
use std::mem;

/// A number past every range, which stands for no limit until the key is read.
const NO_LIMIT: u64 = 1 << 63;

/// What was read so far.
#[derive(Drop)]
pub(crate) struct Reading {
    pub(crate) draft: Draft,
    pub(crate) rules: RunRules,
}

// A branch of which nothing is read.
fn no_branch(alloc: Global) -> BranchSpec
    ensures { result ≡ spec.no_branch }
{
    BranchSpec {
        steps: List::new(alloc),
        policies: List::new(alloc),
        format: Format::Lines,
        place: PlaceSpec::Plain,
    }
}

// The plain plan, without its branch.
fn no_plan(alloc: Global) -> Result<Plan, NoMemory>
    ensures { IfOk result (λ plan. plan ≡ spec.nothing_read.draft.plan) }
{
    let columns = line_columns(alloc)?;
    Ok(Plan {
        format: Format::Lines,
        columns,
        skip_header: false,
        steps: List::new(alloc),
        skip_errors: 0,
        fork: ForkSpec {
            how: ForkHow::All,
            branches: 1,
            tests: List::new(alloc),
        },
        branches: List::new(alloc),
        task_policies: List::new(alloc),
    })
}

// The rules of the plain job.
fn no_rules(alloc: Global) -> Result<RunRules, NoMemory>
    ensures { IfOk result (λ rules. rules_from rules ≡ spec.nothing_read.rules) }
{
    let mut schedule = List::new(alloc);
    schedule.push(0)?;
    Ok(RunRules {
        prefix: Text::new(alloc),
        max_bytes: NO_LIMIT,
        max_new_units: NO_LIMIT,
        skip_errors: 0,
        task_policies: List::new(alloc),
        policy: CommitPolicy::Full,
        max_retries: 5,
        slots: 1,
        piece: NO_LIMIT,
        schedule,
        scope: CommitScope::Job,
    })
}

impl Reading {
    /// Nothing is read: the plain job, each part of which is then replaced.
    pub(crate) fn new(alloc: Global) -> Result<Self, NoMemory>
        ensures { IfOk result (λ r. reading_from r ≡ spec.nothing_read) }
    {
        let plan = no_plan(alloc)?;
        let rules = no_rules(alloc)?;
        Ok(Reading {
            draft: Draft {
                plan,
                branch: no_branch(alloc),
            },
            rules,
        })
    }

    fn read_value(&mut self, alloc: Global, field: Field, value: &str) -> Result<(), ValueFault>
        ensures { ReadsValue (λ _. reading_from self.new) result
            (spec.read_value (reader_of field) (reading_from self.old) value.now) }
    {
        match field {
            Field::Plan(field) => self.draft.read(alloc, field, value.as_bytes()),
            Field::Rules(field) => {
                let branches = self.draft.plan.fork.branches;
                self.rules.read(alloc, branches, field, value)
            }
        }
    }

    // Reads a row in a branch.
    #[tactic(auto, unfolding(gob_jobs::specs::Reading::read_row))]
    fn read_row(
        &mut self,
        alloc: Global,
        values: Values<'_>,
        row: &Row,
        branch: u32,
    ) -> Result<(), JobFault>
        ensures { Leaves self.new result
            (spec.read_row (look_of values.entry) (row_from row.now) branch (reading_from self.old)) }
    {
        let key = key_that_counts(alloc, values, row, branch)?;
        let value = value_of_row(alloc, values, row, branch, &self.draft.plan, key.as_str())?;
        match self.read_value(alloc, row.field, value) {
            Ok(()) => Ok(()),
            Err(fault) => Err(fault.at(key)),
        }
    }

    // Reads rows one after the other.
    fn read_rows(
        &mut self,
        alloc: Global,
        values: Values<'_>,
        rows: &[Row],
        branch: u32,
    ) -> Result<(), JobFault>
        ensures { Leaves self.new result
            (spec.read_rows (look_of values.entry) (rows_from rows.now) branch (reading_from self.old)) }
    {
        for row in rows {
            self.read_row(alloc, values, row, branch)?;
        }
        Ok(())
    }

    // The branch that was read joins the plan.
    fn end_branch(&mut self, alloc: Global) -> Result<(), NoMemory>
        ensures { IfOk result (λ _. reading_from self.new ≡ spec.with_branch (reading_from self.old)) }
    {
        let branch = mem::replace(&mut self.draft.branch, no_branch(alloc));
        self.draft.plan.branches.push(branch)?;
        Ok(())
    }

    // Reads the rows whole for each branch.
    fn read_branches(
        &mut self,
        alloc: Global,
        values: Values<'_>,
        rows: &[Row],
        branches: u32,
    ) -> Result<(), JobFault>
        ensures { Leaves self.new result
            (spec.read_branches (look_of values.entry) (rows_from rows.now)
            (range_with_len 0 branches) (reading_from self.old)) }
    {
        for branch in 0..branches {
            self.read_rows(alloc, values, rows, branch)?;
            self.end_branch(alloc)?;
        }
        Ok(())
    }

    /// Reads rows in their order: the first ones, then those of each branch, then the last ones.
    pub(crate) fn read_table(
        &mut self,
        alloc: Global,
        values: Values<'_>,
        firsts: &[Row],
        each: &[Row],
        lasts: &[Row],
    ) -> Result<(), JobFault>
        ensures { Leaves self.new result
            (spec.read_table (look_of values.entry)
            (rows_from firsts.now) (rows_from each.now) (rows_from lasts.now) (reading_from self.old)) }
    {
        self.read_rows(alloc, values, firsts, 0)?;
        let branches = self.draft.plan.fork.branches;
        self.read_branches(alloc, values, each, branches)?;
        self.read_rows(alloc, values, lasts, 0)
    }
}
