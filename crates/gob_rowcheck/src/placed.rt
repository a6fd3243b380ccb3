//! Tests of a column whose place is known, so that no row is searched for a name.

ghost use Rattle.std.specs.Prelude.{◌≡◌, true};
ghost use Rattle.gob_plan.specs.Rows.{conforms};
ghost use Rattle.gob_plan.specs.Tests.{check_holds, compares, order_is, test_fits, test_holds, value_order};
ghost use Rattle.gob_rowcheck.specs.Places.{is_plain_check, stands_at};

use gob_plan::{Check, Columns, How, Row, TestSpec, Value, holds};
use std::cmp::Ordering;

/// What the test says of a row, where the place of its column among these is known. It takes no memory, and for a
/// pattern at most the product of the lengths.
pub fn holds_at(test: &TestSpec, place: usize, columns: &Columns, row: &Row) -> bool
    requires fits { test_fits test.now columns.now ≡ true }
    requires stands { stands_at test.now.column columns.now place ≡ true }
    requires conforms { conforms columns.now row.now ≡ true }
    ensures { result ≡ test_holds test.now columns.now row.now }
{
    // A pattern costs more than its column's name does.
    if let Check::Like { pattern: _ } = &test.check {
        return holds(test, columns, row);
    }
    is_met(&test.check, &row.values.as_slice()[place]) != test.negated
}

/// The place of the column that the test names.
pub fn place_of(test: &TestSpec, columns: &Columns) -> usize
    requires { test_fits test.now columns.now ≡ true }
    ensures { stands_at test.now.column columns.now result ≡ true }
{
    match columns.find(test.column.as_str()) {
        Some(place) => place,
        None => unreachable!(),
    }
}

// A check by a pattern isn't made here.
fn is_met(check: &Check, value: &Value) -> bool
    requires { is_plain_check check.now ≡ true }
    ensures { result ≡ check_holds check.now value.now }
{
    match (check, value) {
        (Check::Null, _) => matches!(value, Value::Null),
        (Check::Compare { how, value: other }, _) => compares(*how, value, other),
        (Check::Bytes { low, high }, Value::Text(text)) => {
            let bytes = text.len() as u64;
            *low <= bytes && bytes <= *high
        }
        _ => false,
    }
}

fn compares(how: How, value: &Value, other: &Value) -> bool
    ensures { result ≡ compares how (value_order value.now other.now) }
{
    match (value, other) {
        (Value::Bool(a), Value::Bool(b)) => is_asked(how, a.cmp(b)),
        (Value::Int(a), Value::Int(b)) => is_asked(how, a.cmp(b)),
        (Value::Text(a), Value::Text(b)) => is_asked(how, a.as_str().cmp(b.as_str())),
        _ => false,
    }
}

fn is_asked(how: How, order: Ordering) -> bool
    ensures { result ≡ order_is how order }
{
    match how {
        How::Eq => order.is_eq(),
        How::Lt => order.is_lt(),
        How::Le => order.is_le(),
        How::Gt => order.is_gt(),
        How::Ge => order.is_ge(),
    }
}
