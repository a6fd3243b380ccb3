//! Jobs, and the readers of job files and of pipeline texts.
ghost use Rattle.std.specs.Prelude.{◌≡◌, IfOk, filter, map};
ghost use Rattle.gob_bytes.specs.Tables.{at_name};
ghost use Rattle.gob_jobs.specs.KeyTable.{branch_rows, first_rows, last_rows, tells_plan};
ghost use Rattle.gob_jobs.specs.Laws.{IsJob};
ghost use Rattle.gob_jobs.specs.Pipelines.{last_value};
ghost use Rattle.gob_jobs.specs.Plans.{plan_of, plan_told};
ghost use Rattle.gob_jobs.specs.Reading as spec;
ghost use Rattle.gob_job.specs.Faults.{Gives};
ghost use Rattle.gob_job.specs.Jobs.{job_from};
ghost use Rattle.gob_job.specs.LookUps.{setting_from};
ghost use Rattle.gob_job.specs.Readings.{reading_from};
ghost use Rattle.gob_job.specs.Rows.{rows_from};

use crate::faults::JobFault;
use crate::pipeline::{pipeline_of, settings_in};
use crate::reading::Reading;
use crate::rows::{Row, branch_rows, first_rows, last_rows};
use crate::values::{Setting, Values};
use gob_plan::{CommitPolicy, CommitScope, Limits, List, NoMemory, Plan, Text, TurnRules};
use gob_props::Props;
use std::alloc::Global;

/// What is to be done, with which partitions, in which turns, and what of it is committed.
#[derive(Drop)]
pub struct Job {
    pub name: Text,
    pub plan: Plan,
    pub limits: Limits,
    pub turns: TurnRules,
    pub max_retries: u32,
    pub policy: CommitPolicy,
    pub scope: CommitScope,
    /// Every key that bears on what is made, with its value: a line for each.
    pub pipeline: Text,
}

// Reads all keys of a properties text.
fn read_all(alloc: Global, props: &Props) -> Result<Reading, JobFault>
    ensures { Gives reading_from result
        (spec.read_table (at_name props.now) first_rows branch_rows last_rows spec.nothing_read) }
{
    let mut reading = Reading::new(alloc)?;
    let values = Values::Props(props);
    reading.read_table(alloc, values, first_rows(), branch_rows(), last_rows())?;
    Ok(reading)
}

/// The job of this name that the keys and values describe, or the first fault in the order of the key table: a key is
/// refused for `${` in its value, then for being absent, then for its value. Unknown keys have no effect.
pub fn read_job(alloc: Global, name: &str, props: &Props) -> Result<Job, JobFault>
    ensures job { Gives job_from result (spec.job_of name.now props.now) }
    ensures right { IfOk result (λ job. IsJob name.now (job_from job)) }
{
    let reading = read_all(alloc, props)?;
    let pipeline = pipeline_of(alloc, props, reading.draft.plan.fork.branches)?;
    let name = Text::from_str(alloc, name)?;
    let Reading { draft, rules } = reading;
    let mut plan = draft.plan;
    plan.skip_errors = rules.skip_errors;
    plan.task_policies = rules.task_policies;
    Ok(Job {
        name,
        plan,
        limits: Limits {
            prefix: rules.prefix,
            max_bytes: rules.max_bytes,
            max_new_units: rules.max_new_units as u32,
        },
        turns: TurnRules {
            slots: rules.slots as u32,
            piece: rules.piece as u32,
            schedule: rules.schedule,
        },
        max_retries: rules.max_retries as u32,
        policy: rules.policy,
        scope: rules.scope,
        pipeline,
    })
}

// The rows that tell the plan.
fn plan_rows(alloc: Global, rows: &[Row]) -> Result<Vec<Row>, NoMemory>
    ensures { IfOk result (λ some. rows_from some.items ≡ filter tells_plan (rows_from rows.now)) }
{
    let mut some = Vec::new(alloc);
    for row in rows {
        if row.tells_plan() {
            some.push(*row)?;
        }
    }
    Ok(some)
}

// Whether no key has a fault, and then the plan without limits and rules for whole units.
fn plan_told(alloc: Global, settings: &[Setting]) -> Result<Option<Plan>, NoMemory>
    ensures { IfOk result (λ found. found ≡ plan_told (last_value (map setting_from settings.now))) }
{
    let mut reading = Reading::new(alloc)?;
    let firsts = plan_rows(alloc, first_rows())?;
    let each = plan_rows(alloc, branch_rows())?;
    let lasts = plan_rows(alloc, last_rows())?;
    match reading.read_table(
        alloc,
        Values::Settings(settings),
        firsts.as_slice(),
        each.as_slice(),
        lasts.as_slice(),
    ) {
        Ok(()) => {
            let mut plan = reading.draft.plan;
            plan.skip_errors = u64::MAX;
            plan.task_policies = List::new(alloc);
            Ok(Some(plan))
        }
        Err(fault) => {
            if fault.is_memory() {
                return Err(NoMemory);
            }
            Ok(None)
        }
    }
}

/// The plan that a pipeline text stands for, with no limit on bad lines and no rules for whole units. Of equal keys the
/// last counts; other keys have no effect. None where the text is no pipeline text, or a key has a fault.
#[tactic(auto, unfolding(gob_jobs::specs::Plans::plan_of))]
pub fn plan_of(alloc: Global, pipeline: &str) -> Result<Option<Plan>, NoMemory>
    ensures { IfOk result (λ found. found ≡ plan_of pipeline.now) }
{
    match settings_in(alloc, pipeline.as_bytes())? {
        Some(settings) => Ok(plan_told(alloc, settings.as_slice())?),
        None => Ok(None),
    }
}
