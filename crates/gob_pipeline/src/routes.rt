//! The branches of a plan, and the fork before them.
ghost use Rattle.std.specs.Prelude.{◌≡◌, ◌<◌, ◌≤◌, ℕ, true, None, Some, length, option_copied, IfErr, IfOk, OnOk};
ghost use Rattle.std.specs.List.{list_all};
ghost use Rattle.gob_plan.specs.Rows.{conforms};
ghost use Rattle.gob_plan.specs.Tests.{test_fits};
ghost use Rattle.gob_convert.specs.Made.{concatenation};
ghost use Rattle.gob_convert.specs.declared.convert.ConvertFault.{ConvertFault as Fault};
ghost use Rattle.gob_meaning.specs.Plans.{branch_fits, branch_is_short};
ghost use Rattle.gob_pipeline.specs.Routes.{AreNumberedBranches, is_routed, is_taken, is_taking, route_makes, specs_of};
ghost use Rattle.gob_pipeline.specs.Routes.{waiting_makes};

use gob_branch::{Branch, LineItems, RowScratch};
use gob_convert::ConvertFault;
use gob_fork::picks_at;
use gob_plan::{BranchSpec, Columns, ForkSpec, NoMemory, Row};
use gob_rowcheck::test_places;
use std::alloc::Global;
use std::marker::Model;

/// The branches that rows of the same columns are sent to, each set up once.
#[derive(Drop)]
pub struct Routes {
    fork: ForkSpec,
    // Where the columns of the fork's tests stand.
    places: Vec<usize>,
    columns: Columns,
    branches: Vec<Branch>,
}

impl Model for Routes {
    ghost use Rattle.std.specs.Prelude.{◌≡◌, ◌<◌, ◌^◌, true, length};
    ghost use Rattle.std.specs.List.{list_all};
    ghost use Rattle.gob_plan.specs.Tests.{test_fits};
    ghost use Rattle.gob_rowcheck.specs.Places.{columns_tested, stand_at};
    ghost use Rattle.gob_pipeline.specs.Routes.{RoutesValue, AreNumberedBranches, specs_of};

    ghost Value = { RoutesValue };

    ghost view = { λ r. record { fork = r.fork; columns = r.columns; branches = specs_of r.branches.items } };

    ghost invariant = { λ r. AreNumberedBranches r.columns 0 r.branches.items
        × (length r.branches.items < 2 ^ 32)
        × (list_all (λ t. test_fits t r.columns) r.fork.tests ≡ true)
        × (stand_at (columns_tested r.fork.tests) r.columns r.places.items ≡ true) };
}

impl Routes {
    /// Branches of these specs for rows of these columns.
    pub fn new(
        alloc: Global,
        fork: &ForkSpec,
        columns: &Columns,
        specs: &[BranchSpec],
    ) -> Result<Routes, NoMemory>
        requires tests { list_all (λ t. test_fits t columns.now) fork.now.tests ≡ true }
        requires few { length specs.now ≤ 8 }
        requires fit { list_all (branch_fits columns.now) specs.now ≡ true }
        requires short { list_all branch_is_short specs.now ≡ true }
        ensures { IfOk result (λ r. r ≡ record { fork = fork.now; columns = columns.now; branches = specs.now }) }
    {
        let branches = branches_of(alloc, columns, specs)?;
        let places = test_places(alloc, fork.tests.as_slice(), columns)?;
        Ok(Routes {
            fork: fork.copy()?,
            places,
            columns: columns.copy()?,
            branches,
        })
    }

    /// Adds what the branches that take the row make of it, in their order, and tells whether there is one.
    pub fn push(
        &self,
        alloc: Global,
        scratch: &mut RowScratch,
        row: Row,
        items: &mut LineItems,
    ) -> Result<bool, ConvertFault>
        requires { conforms self.now.columns row ≡ true }
        ensures ok { IfOk result (λ _. concatenation (Some items.old) (route_makes self.now row) ≡ Some items.new) }
        ensures routed { IfOk result (λ routed. routed ≡ is_routed self.now row) }
        ensures bad { IfErr result (λ e. e ≡ Fault.Bad → route_makes self.now row ≡ None) }
    {
        // The last branch that takes the row waits, so that the row itself can be given to it.
        let mut waiting: Option<&Branch> = None;
        for branch in self.branches.as_slice() {
            if self.takes(&row, branch) {
                push_lent(waiting, alloc, scratch, &row, items)?;
                waiting = Some(branch);
            }
        }
        match waiting {
            Some(last) => {
                last.push_owned(alloc, scratch, row, items)?;
                Ok(true)
            }
            None => Ok(false),
        }
    }

    // The branch takes the row.
    fn takes(&self, row: &Row, branch: &Branch) -> bool
        requires { conforms self.now.columns row.now ≡ true }
        ensures { result ≡ is_taken self.now row.now (branch.now.number, branch.now.spec) }
    {
        picks_at(
            &self.fork,
            self.places.as_slice(),
            &self.columns,
            row,
            branch.number(),
        )
    }
}

// Sends the row to the branch that waits for it, where there is one.
fn push_lent(
    waiting: Option<&Branch>,
    alloc: Global,
    scratch: &mut RowScratch,
    row: &Row,
    items: &mut LineItems,
) -> Result<(), ConvertFault>
    requires { is_taking (option_copied waiting) row.now ≡ true }
    ensures ok { OnOk result
        (concatenation (Some items.old) (waiting_makes (option_copied waiting.entry) row.now) ≡ Some items.new) }
    ensures bad { IfErr result (λ e. e ≡ Fault.Bad → waiting_makes (option_copied waiting.entry) row.now ≡ None) }
{
    if let Some(branch) = waiting {
        branch.push(alloc, scratch, row, items)?;
    }
    Ok(())
}

// A branch for each spec, numbered in order.
fn branches_of(
    alloc: Global,
    columns: &Columns,
    specs: &[BranchSpec],
) -> Result<Vec<Branch>, NoMemory>
    requires few { length specs.now ≤ 8 }
    requires fit { list_all (branch_fits columns.now) specs.now ≡ true }
    requires short { list_all branch_is_short specs.now ≡ true }
    ensures branches { IfOk result (λ v. AreNumberedBranches columns.now 0 v.items) }
    ensures specs { IfOk result (λ v. specs_of v.items ≡ specs.now) }
{
    let mut branches = Vec::with_capacity(alloc, specs.len())?;
    let mut number = 0;
    for spec in specs {
        let branch = Branch::new(alloc, spec, number, columns)?;
        branches.push(branch)?;
        number += 1;
    }
    Ok(branches)
}
