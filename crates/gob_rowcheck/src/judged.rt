//! Policies of columns whose places are known, tried in order.

ghost use Rattle.std.specs.Prelude.{◌≡◌, ◌<◌, ◌^◌, true, length};
ghost use Rattle.std.specs.List.{list_all};
ghost use Rattle.gob_plan.specs.Rows.{conforms};
ghost use Rattle.gob_plan.specs.Tests.{test_fits};
ghost use Rattle.gob_meaning.specs.Policies.{ruling};
ghost use Rattle.gob_rowcheck.specs.Places.{columns_judged, stand_at};
ghost use Rattle.gob_rowcheck.specs.Verdicts.{ruling_of};

use crate::placed::holds_at;
use crate::verdict::{RowEnd, RowVerdict};
use gob_plan::{Columns, Mode, PolicySpec, Row};

/// As `judge_row`, where the places of the policies' columns are known.
pub fn judge_row_at(
    policies: &[PolicySpec],
    places: &[usize],
    columns: &Columns,
    row: &Row,
) -> RowVerdict
    requires fit { list_all (λ p. test_fits p.test columns.now) policies.now ≡ true }
    requires stand { stand_at (columns_judged policies.now) columns.now places.now ≡ true }
    requires conforms { conforms columns.now row.now ≡ true }
    requires few { length policies.now < 2 ^ 32 }
    ensures { ruling_of result ≡ ruling policies.now columns.now row.now }
{
    let mut optional = 0;
    let mut index = 0;
    for policy in policies {
        if !holds_at(&policy.test, places[index as usize], columns, row) {
            match policy.mode {
                Mode::Fail => return RowVerdict {
                    optional,
                    end: RowEnd::Kill(index),
                },
                Mode::ErrFile => return RowVerdict {
                    optional,
                    end: RowEnd::ToError(index),
                },
                Mode::Optional => optional += 1,
            }
        }
        index += 1;
    }
    RowVerdict {
        optional,
        end: RowEnd::Pass,
    }
}
