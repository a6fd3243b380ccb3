//! The places of the columns that tests name, looked up once for all rows.

ghost use Rattle.std.specs.Prelude.{◌≡◌, true, IfOk};
ghost use Rattle.std.specs.List.{list_all};
ghost use Rattle.gob_plan.specs.Tests.{test_fits};
ghost use Rattle.gob_rowcheck.specs.Places.{columns_judged, columns_tested, stand_at};

use crate::placed::place_of;
use gob_plan::{Columns, NoMemory, PolicySpec, TestSpec};
use std::alloc::Global;

/// The places of the columns of tests.
pub fn test_places(
    alloc: Global,
    tests: &[TestSpec],
    columns: &Columns,
) -> Result<Vec<usize>, NoMemory>
    requires { list_all (λ t. test_fits t columns.now) tests.now ≡ true }
    ensures { IfOk result (λ v. stand_at (columns_tested tests.now) columns.now v.items ≡ true) }
{
    let mut places = Vec::with_capacity(alloc, tests.len())?;
    for test in tests {
        places.push(place_of(test, columns))?;
    }
    Ok(places)
}

/// The places of the columns of policies.
pub fn policy_places(
    alloc: Global,
    policies: &[PolicySpec],
    columns: &Columns,
) -> Result<Vec<usize>, NoMemory>
    requires { list_all (λ p. test_fits p.test columns.now) policies.now ≡ true }
    ensures { IfOk result (λ v. stand_at (columns_judged policies.now) columns.now v.items ≡ true) }
{
    let mut places = Vec::with_capacity(alloc, policies.len())?;
    for policy in policies {
        places.push(place_of(&policy.test, columns))?;
    }
    Ok(places)
}
