//! Forks: which branches take a row.

ghost use Rattle.std.specs.Prelude.{◌≡◌, true};
ghost use Rattle.std.specs.List.{list_all, list_any};
ghost use Rattle.gob_plan.specs.Rows.{conforms};
ghost use Rattle.gob_plan.specs.Tests.{test_fits, test_holds};
ghost use Rattle.gob_meaning.specs.Fork as meaning;

use gob_plan::{Columns, ForkHow, ForkSpec, Row, TestSpec, holds};

/// Whether the branch with this place takes the row: always under `All`, where its test holds under `Each`, and under
/// `First` where its test is the first that holds. It takes no memory.
#[tactic(auto, unfolding(gob_meaning::specs::Fork::picks))]
pub fn picks(fork: &ForkSpec, columns: &Columns, row: &Row, branch: u32) -> bool
    requires fit { list_all (λ t. test_fits t columns.now) fork.now.tests ≡ true }
    requires conforms { conforms columns.now row.now ≡ true }
    ensures { result ≡ meaning.picks fork.now columns.now row.now branch }
{
    let tests = fork.tests.as_slice();
    match fork.how {
        ForkHow::All => true,
        ForkHow::Each => holds_at(tests, columns, row, branch as usize),
        ForkHow::First => {
            holds_at(tests, columns, row, branch as usize)
                && !one_holds_before(tests, columns, row, branch as usize)
        }
    }
}

// A branch that has no test takes nothing.
fn holds_at(tests: &[TestSpec], columns: &Columns, row: &Row, branch: usize) -> bool
    requires fit { list_all (λ t. test_fits t columns.now) tests.now ≡ true }
    requires conforms { conforms columns.now row.now ≡ true }
    ensures { result ≡ meaning.branch_test_holds tests.now columns.now row.now branch }
{
    match tests.get(branch) {
        Some(test) => holds(test, columns, row),
        None => false,
    }
}

fn one_holds_before(tests: &[TestSpec], columns: &Columns, row: &Row, branch: usize) -> bool
    requires fit { list_all (λ t. test_fits t columns.now) tests.now ≡ true }
    requires conforms { conforms columns.now row.now ≡ true }
    ensures { result ≡ meaning.earlier_test_holds tests.now columns.now row.now branch }
{
    let (earlier, _) = tests.split_at(branch.min(tests.len()));
    one_holds(earlier, columns, row)
}

fn one_holds(tests: &[TestSpec], columns: &Columns, row: &Row) -> bool
    requires fit { list_all (λ t. test_fits t columns.now) tests.now ≡ true }
    requires conforms { conforms columns.now row.now ≡ true }
    ensures { result ≡ list_any (λ t. test_holds t columns.now row.now) tests.now }
{
    for test in tests {
        if holds(test, columns, row) {
            return true;
        }
    }
    false
}
