//! Policies, tried in order.

ghost use Rattle.std.specs.Prelude.{◌≡◌, ◌<◌, ◌^◌, true, length};
ghost use Rattle.std.specs.List.{list_all};
ghost use Rattle.gob_plan.specs.Rows.{conforms};
ghost use Rattle.gob_plan.specs.Tests.{test_fits};
ghost use Rattle.gob_meaning.specs.Policies.{ruling};
ghost use Rattle.gob_rowcheck.specs.Verdicts.{ruling_of};

use gob_plan::{Columns, Mode, PolicySpec, Row, holds};

/// What becomes of a row.
#[derive(Clone, Copy, Debug, PartialEq, Eq)]
pub enum RowEnd {
    Pass,
    /// The policy with this place sends it to the branch's error file.
    ToError(u32),
    /// The policy with this place fails the unit.
    Kill(u32),
}

/// What the policies of a branch say of a row.
#[derive(Clone, Copy, Debug, PartialEq, Eq)]
pub struct RowVerdict {
    /// The optional policies that were tried and failed.
    pub optional: u32,
    pub end: RowEnd,
}

/// Tries the policies in order. An optional one that fails is counted and the row goes on; the first other one that
/// fails decides, and none behind it is tried. It takes no memory.
pub fn judge_row(policies: &[PolicySpec], columns: &Columns, row: &Row) -> RowVerdict
    requires fit { list_all (λ p. test_fits p.test columns.now) policies.now ≡ true }
    requires conforms { conforms columns.now row.now ≡ true }
    requires few { length policies.now < 2 ^ 32 }
    ensures { ruling_of result ≡ ruling policies.now columns.now row.now }
{
    let mut optional = 0;
    let mut index = 0;
    for policy in policies {
        if !holds(&policy.test, columns, row) {
            match policy.mode {
                Mode::Fail => return RowVerdict {
                    optional,
                    end: RowEnd::Kill(index),
                },
                Mode::ErrFile => return RowVerdict {
                    optional,
                    end: RowEnd::ToError(index),
                },
                Mode::Optional => optional += 1,
            }
        }
        index += 1;
    }
    RowVerdict {
        optional,
        end: RowEnd::Pass,
    }
}
