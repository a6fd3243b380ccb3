//! Forks by tests of columns whose places are known.

ghost use Rattle.std.specs.Prelude.{◌≡◌, true};
ghost use Rattle.std.specs.List.{list_all, list_any};
ghost use Rattle.gob_plan.specs.Rows.{conforms};
ghost use Rattle.gob_plan.specs.Tests.{test_fits, test_holds};
ghost use Rattle.gob_meaning.specs.Fork as meaning;
ghost use Rattle.gob_rowcheck.specs.Places.{columns_tested, stand_at};

use gob_plan::{Columns, ForkHow, ForkSpec, Row, TestSpec};
use gob_rowcheck::holds_at;

/// As `picks`, where the places of the tests' columns are known.
#[tactic(auto, unfolding(gob_meaning::specs::Fork::picks))]
pub fn picks_at(
    fork: &ForkSpec,
    places: &[usize],
    columns: &Columns,
    row: &Row,
    branch: u32,
) -> bool
    requires fit { list_all (λ t. test_fits t columns.now) fork.now.tests ≡ true }
    requires stand { stand_at (columns_tested fork.now.tests) columns.now places.now ≡ true }
    requires conforms { conforms columns.now row.now ≡ true }
    ensures { result ≡ meaning.picks fork.now columns.now row.now branch }
{
    let tests = fork.tests.as_slice();
    match fork.how {
        ForkHow::All => true,
        ForkHow::Each => own_test_holds(tests, places, columns, row, branch as usize),
        ForkHow::First => {
            own_test_holds(tests, places, columns, row, branch as usize)
                && !one_holds_before(tests, places, columns, row, branch as usize)
        }
    }
}

// A branch that has no test takes nothing.
fn own_test_holds(
    tests: &[TestSpec],
    places: &[usize],
    columns: &Columns,
    row: &Row,
    branch: usize,
) -> bool
    requires fit { list_all (λ t. test_fits t columns.now) tests.now ≡ true }
    requires stand { stand_at (columns_tested tests.now) columns.now places.now ≡ true }
    requires conforms { conforms columns.now row.now ≡ true }
    ensures { result ≡ meaning.branch_test_holds tests.now columns.now row.now branch }
{
    if branch >= tests.len() {
        return false;
    }
    holds_at(&tests[branch], places[branch], columns, row)
}

fn one_holds_before(
    tests: &[TestSpec],
    places: &[usize],
    columns: &Columns,
    row: &Row,
    branch: usize,
) -> bool
    requires fit { list_all (λ t. test_fits t columns.now) tests.now ≡ true }
    requires stand { stand_at (columns_tested tests.now) columns.now places.now ≡ true }
    requires conforms { conforms columns.now row.now ≡ true }
    ensures { result ≡ meaning.earlier_test_holds tests.now columns.now row.now branch }
{
    let count = branch.min(tests.len());
    let (earlier, _) = tests.split_at(count);
    let (earlier_places, _) = places.split_at(count);
    one_holds(earlier, earlier_places, columns, row)
}

fn one_holds(tests: &[TestSpec], places: &[usize], columns: &Columns, row: &Row) -> bool
    requires fit { list_all (λ t. test_fits t columns.now) tests.now ≡ true }
    requires stand { stand_at (columns_tested tests.now) columns.now places.now ≡ true }
    requires conforms { conforms columns.now row.now ≡ true }
    ensures { result ≡ list_any (λ t. test_holds t columns.now row.now) tests.now }
{
    let mut index = 0;
    for test in tests {
        if holds_at(test, places[index], columns, row) {
            return true;
        }
        index += 1;
    }
    false
}
