//! Steps one after the other.
ghost use Rattle.std.specs.Prelude.{◌≡◌, ◌<◌, ◌^◌, ◌↔◌, [], true, None, Some, length, IfErr, IfOk, IsTrue};
ghost use Rattle.std.specs.List.{list_all};
ghost use Rattle.gob_plan.specs.Rows.{conforms};
ghost use Rattle.gob_convert.specs.declared.convert.ConvertFault.{ConvertFault as Fault};
ghost use Rattle.gob_meaning.specs.Steps.{chain_rows, first_refused};
ghost use Rattle.gob_branch.specs.Branches.{after_chain};

use gob_convert::{Convert, ConvertFault, Many};
use gob_plan::{Columns, List, NoMemory, Row, StepFault, StepSpec};
use gob_steps::{Step, steps_of};
use std::alloc::Global;
use std::marker::Model;

/// Steps, each set up once on the columns behind the one before.
#[derive(Drop)]
pub struct Chain {
    specs: List<StepSpec>,
    before: Columns,
    after: Columns,
    steps: Many<Step>,
}

impl Model for Chain {
    ghost use Rattle.std.specs.Prelude.{◌≡◌, true, None};
    ghost use Rattle.gob_plan.specs.Columns.{is_columns};
    ghost use Rattle.gob_branch.specs.Branches.{ChainValue};
    ghost use Rattle.gob_plan.specs.declared.rows.Row.{Row as Line};
    ghost use Rattle.gob_meaning.specs.Steps.{chain_rows, columns_through, first_refused};

    ghost Value = { ChainValue };

    ghost view = { λ c. record { steps = c.specs; before = c.before } };

    ghost invariant = { λ c. (⟦<Many<Step> as Convert>⟧.shape c.steps ≡ c.before)
        × ((row : Line) → ⟦<Many<Step> as Convert>⟧.made c.steps row ≡ chain_rows c.specs c.before row)
        × (first_refused c.specs c.before ≡ None)
        × (c.after ≡ columns_through c.specs c.before)
        × (is_columns c.before ≡ true) };
}

impl Chain {
    /// Each step is set up on the columns behind the one before.
    pub fn new(alloc: Global, specs: List<StepSpec>, before: &Columns) -> Result<Chain, NoMemory>
        requires few { length specs < 2 ^ 32 }
        requires fit { first_refused specs before.now ≡ None }
        ensures { IfOk result (λ c. c ≡ record { steps = specs; before = before.now }) }
    {
        // That the columns are proper is known from here on.
        let _ = before.len();
        match steps_of(alloc, specs.as_slice(), before) {
            Ok(steps) => Ok(Chain {
                after: steps.output().copy()?,
                before: before.copy()?,
                specs,
                steps,
            }),
            Err(_) => Err(NoMemory),
        }
    }

    pub fn is_empty(&self) -> bool
        ensures { IsTrue result ↔ (self.now.steps ≡ []) }
    {
        self.specs.is_empty()
    }

    /// The columns of the rows that come out.
    pub fn after(&self) -> &Columns
        ensures { result.now ≡ after_chain self.now }
    {
        &self.after
    }

    /// The rows that the steps make of a row.
    pub fn rows_of(&self, alloc: Global, row: Row) -> Result<Vec<Row>, ConvertFault>
        requires { conforms self.now.before row ≡ true }
        ensures ok { IfOk result (λ v. chain_rows self.now.steps self.now.before row ≡ Some v.items) }
        ensures conform { IfOk result (λ v. list_all (conforms (after_chain self.now)) v.items ≡ true) }
        ensures bad { IfErr result (λ e. e ≡ Fault.Bad
            → chain_rows self.now.steps self.now.before row ≡ None) }
    {
        let rows = self.steps.convert(alloc, row)?;
        Ok(rows)
    }
}
