//! A step, set up on the columns of the rows that it takes.

ghost use Rattle.std.specs.Prelude.{◌≡◌, ◌++◌, IfOk, IfErr, OnOk, OnErr, Ok, Err, Some, None, true, false, ◌∷◌, []};
ghost use Rattle.std.specs.Option.{option_to_list};
ghost use Rattle.gob_plan.specs.declared.rows.Row.{Row as Line};
ghost use Rattle.gob_plan.specs.declared.steps.StepFault.{StepFault as Fault};
ghost use Rattle.gob_plan.specs.declared.steps.StepSpec.{StepSpec as Spec};
ghost use Rattle.gob_plan.specs.declared.steps.Refusal.{Refusal as Why};
ghost use Rattle.gob_plan.specs.Columns.{is_columns};
ghost use Rattle.gob_plan.specs.Rows.{conforms};
ghost use Rattle.gob_convert.specs.Made.{concatenation};
ghost use Rattle.gob_convert.specs.declared.convert.ConvertFault.{ConvertFault as Cause};
ghost use Rattle.gob_meaning.specs.Steps as meaning;
ghost use Rattle.gob_meaning.proofs.StepRows.{step_keeps};
ghost use Rattle.gob_steps.specs.Places.{changes_one, kept_by, makes_many, name_of, column_place, places_of};

use crate::columns::columns_after;
use crate::pieces::push_pieces;
use crate::places::{own_name, place_named, places_kept};
use crate::rows::{picked, with_change, with_copy, with_set};
use gob_convert::{Convert, ConvertFault};
use gob_plan::{Columns, Row, StepFault, StepSpec, TestSpec};
use gob_rowcheck::holds_at;
use std::alloc::Global;

/// A conversion step for rows of certain columns. It looks for no name in a row.
#[derive(Drop)]
pub struct Step {
    spec: StepSpec,
    columns: Columns,
    after: Columns,
    // of the one column that it reads or changes
    place: usize,
    // of all that it keeps
    kept: Vec<usize>,
    ghost proper: { is_columns columns ≡ true },
    ghost told: { meaning.columns_after spec columns ≡ Ok after },
    ghost own: { place ≡ column_place (name_of spec) columns },
    ghost keeps: { kept.items ≡ places_of (kept_by spec after) columns },
}

impl Step {
    /// Refused where a column isn't there, or has a kind that the step isn't for, or else where the step makes no
    /// proper columns: no or equal names, more than 64 of them, a value of another kind.
    pub fn new(alloc: Global, spec: StepSpec, columns: &Columns) -> Result<Step, StepFault>
        ensures input { IfOk result (λ s. ⟦<Step as Convert>⟧.shape s ≡ columns.now) }
        ensures output { IfOk result (λ s.
            meaning.columns_after spec columns.now ≡ Ok (⟦<Step as Convert>⟧.out_shape s)) }
        ensures made { IfOk result (λ s. (row : Line) →
            ⟦<Step as Convert>⟧.made s row ≡ meaning.step_rows spec columns.now row) }
        ensures refused { IfErr result (λ e. (why : Why) → e ≡ Fault.Refused why
            → meaning.columns_after spec columns.now ≡ Err why) }
    {
        let place = place_named(own_name(&spec), columns);
        let list = columns_after(alloc, &spec, columns)?;
        let after = match Columns::new(list) {
            Ok(after) => after,
            Err(_) => unreachable!(),
        };
        let kept = places_kept(alloc, &spec, &after, columns)?;
        let columns = columns.copy()?;
        Ok(Step {
            spec,
            columns,
            after,
            place,
            kept,
        })
    }

    /// Adds the rows that the step makes of a row behind these. They stay as they were where it makes none.
    pub fn step(&self, alloc: Global, row: Row, rows: &mut Vec<Row>) -> Result<(), ConvertFault>
        requires { conforms self.now.columns row ≡ true }
        ensures ok { OnOk result (concatenation (Some rows.old.items)
            (meaning.step_rows self.now.spec self.now.columns row) ≡ Some rows.new.items) }
        ensures bad { IfErr result (λ e. e ≡ Cause.Bad
            → meaning.step_rows self.now.spec self.now.columns row ≡ None) }
        ensures err { OnErr result (rows.new.items ≡ rows.old.items) }
    {
        match &self.spec {
            StepSpec::Explode {
                column: _,
                separator,
            } => {
                push_pieces(row, self.place, separator.as_str(), rows)?;
                Ok(())
            }
            _ => match self.one(alloc, row)? {
                Some(made) => {
                    rows.push(made)?;
                    Ok(())
                }
                None => Ok(()),
            },
        }
    }

    // The one row, or none, that all steps but `Explode` make.
    fn one(&self, alloc: Global, row: Row) -> Result<Option<Row>, ConvertFault>
        requires few { makes_many self.now.spec ≡ false }
        requires conforms { conforms self.now.columns row ≡ true }
        ensures ok { IfOk result (λ o.
            meaning.step_rows self.now.spec self.now.columns row ≡ Some (option_to_list o)) }
        ensures bad { IfErr result (λ e. e ≡ Cause.Bad
            → meaning.step_rows self.now.spec self.now.columns row ≡ None) }
    {
        match &self.spec {
            StepSpec::Keep { columns: _ } => Ok(Some(picked(alloc, row, &self.kept)?)),
            StepSpec::Drop { columns: _ } => Ok(Some(picked(alloc, row, &self.kept)?)),
            StepSpec::Rename { from: _, to: _ } => Ok(Some(row)),
            StepSpec::Cast { column: _, kind: _ } => self.changed(alloc, row),
            StepSpec::Set {
                column: _,
                kind: _,
                value,
            } => Ok(Some(with_set(row, self.place, value)?)),
            StepSpec::Copy { from: _, to: _ } => Ok(Some(with_copy(row, self.place)?)),
            StepSpec::Explode {
                column: _,
                separator: _,
            } => unreachable!(),
            StepSpec::Where { test } => Ok(self.selected(test, row)),
            StepSpec::Upper { column: _ } => self.changed(alloc, row),
            StepSpec::Lower { column: _ } => self.changed(alloc, row),
        }
    }

    // The row with the one value changed.
    fn changed(&self, alloc: Global, row: Row) -> Result<Option<Row>, ConvertFault>
        requires changes { changes_one self.now.spec ≡ true }
        requires conforms { conforms self.now.columns row ≡ true }
        ensures ok { IfOk result (λ o.
            meaning.step_rows self.now.spec self.now.columns row ≡ Some (option_to_list o)) }
        ensures bad { IfErr result (λ e. e ≡ Cause.Bad
            → meaning.step_rows self.now.spec self.now.columns row ≡ None) }
    {
        match with_change(alloc, row, self.place, &self.spec) {
            Ok(changed) => Ok(Some(changed)),
            Err(fault) => Err(fault),
        }
    }

    fn selected(&self, test: &TestSpec, row: Row) -> Option<Row>
        requires asks { self.now.spec ≡ Spec.Where test.now }
        requires conforms { conforms self.now.columns row ≡ true }
        ensures { meaning.step_rows self.now.spec self.now.columns row ≡ Some (option_to_list result) }
    {
        if holds_at(test, self.place, &self.columns, &row) {
            Some(row)
        } else {
            None
        }
    }
}

impl Convert for Step {
    ghost use Rattle.gob_plan.specs.Rows.{conforms};
    ghost use Rattle.gob_meaning.specs.Steps.{step_rows};
    ghost use Rattle.gob_meaning.proofs.StepRows.{step_keeps};

    type Shape = Columns;

    type OutShape = Columns;

    type Rec = Row;

    type Out = Row;

    ghost shape = { λ s. s.columns };

    ghost out_shape = { λ s. s.after };

    ghost fits = { conforms };

    ghost out_fits = { conforms };

    ghost made = { λ s row. step_rows s.spec s.columns row };

    fn input(&self) -> &Columns {
        &self.columns
    }

    fn output(&self) -> &Columns {
        &self.after
    }

    fn convert(&self, alloc: Global, rec: Row) -> Result<Vec<Row>, ConvertFault> {
        let mut rows = Vec::new(alloc);
        self.step(alloc, rec, &mut rows)?;
        Ok(rows)
    }

    ghost keeps = { λ s row fit. (step_keeps s.spec s.columns s.after).rows row s.proper s.told fit };
}
