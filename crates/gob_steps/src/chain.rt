//! Steps one after the other.

ghost use Rattle.std.specs.Prelude.{◌≡◌, ◌<◌, ◌^◌, ◌++◌, ◌∷◌, [], IfOk, IfErr, OnOk, Err, Some, None, length};
ghost use Rattle.gob_plan.specs.declared.rows.Row.{Row as Line};
ghost use Rattle.gob_plan.specs.declared.steps.StepFault.{StepFault as Fault};
ghost use Rattle.gob_plan.specs.declared.steps.Refusal.{Refusal as Why};
ghost use Rattle.gob_meaning.specs.Steps as meaning;
ghost use Rattle.gob_steps.specs.Building.{Built, IsStepFor, columns_behind_all};
ghost use Rattle.gob_steps.specs.declared.step.Step.{Step as Made};

use crate::Step;
use gob_convert::{Convert, Many};
use gob_plan::{Columns, StepFault, StepSpec};
use std::alloc::Global;
use thiserror::Error;

/// The first step that can't be set up, and why.
#[derive(Debug, Drop, Error)]
#[error("step {at}: {fault}")]
pub struct StepsFault {
    /// Its place among the steps.
    pub at: u32,
    pub fault: StepFault,
}

/// Each step is set up on the columns behind the one before.
pub fn steps_of(
    alloc: Global,
    specs: &[StepSpec],
    columns: &Columns,
) -> Result<Many<Step>, StepsFault>
    requires { length specs.now < 2 ^ 32 }
    ensures input { IfOk result (λ m. ⟦<Many<Step> as Convert>⟧.shape m ≡ columns.now) }
    ensures output { IfOk result (λ m.
        ⟦<Many<Step> as Convert>⟧.out_shape m ≡ meaning.columns_through specs.now columns.now) }
    ensures made { IfOk result (λ m. (row : Line) →
        ⟦<Many<Step> as Convert>⟧.made m row ≡ meaning.chain_rows specs.now columns.now row) }
    ensures fine { IfOk result (λ _. meaning.first_refused specs.now columns.now ≡ None) }
    ensures refused { IfErr result (λ e. (why : Why) → e.fault ≡ Fault.Refused why
        → meaning.first_refused specs.now columns.now ≡ Some (e.at, why)) }
{
    match built(alloc, specs, columns) {
        Ok(list) => match columns.copy() {
            Ok(columns) => Ok(Many::new(list, columns)),
            Err(_) => Err(StepsFault {
                at: 0,
                fault: StepFault::Memory,
            }),
        },
        Err(fault) => Err(fault),
    }
}

fn built(alloc: Global, specs: &[StepSpec], columns: &Columns) -> Result<Vec<Step>, StepsFault>
    requires { length specs.now < 2 ^ 32 }
    ensures ok { IfOk result (λ list. Built specs.now columns.now list.items) }
    ensures refused { IfErr result (λ e. (why : Why) → e.fault ≡ Fault.Refused why
        → meaning.first_refused specs.now columns.now ≡ Some (e.at, why)) }
{
    let mut list = Vec::new(alloc);
    let mut at = 0;
    for spec in specs {
        if let Err(fault) = push_step(alloc, spec, columns, &mut list) {
            return Err(StepsFault { at, fault });
        }
        at += 1;
    }
    Ok(list)
}

// One more step, on the columns behind these.
fn push_step(
    alloc: Global,
    spec: &StepSpec,
    columns: &Columns,
    list: &mut Vec<Step>,
) -> Result<(), StepFault>
    ensures ok { OnOk result ((s : Made) × IsStepFor spec.now (columns_behind_all columns.now list.old.items) s
        × (list.new.items ≡ list.old.items ++ s ∷ [])) }
    ensures refused { IfErr result (λ e. (why : Why) → e ≡ Fault.Refused why
        → meaning.columns_after spec.now (columns_behind_all columns.now list.old.items) ≡ Err why) }
{
    let spec = spec.copy()?;
    let step = Step::new(alloc, spec, last_columns(list, columns))?;
    list.push(step)?;
    Ok(())
}

fn last_columns<'a>(list: &'a Vec<Step>, columns: &'a Columns) -> &'a Columns
    ensures { result.now ≡ columns_behind_all columns.now list.now.items }
{
    match list.last() {
        Some(step) => step.output(),
        None => columns,
    }
}
