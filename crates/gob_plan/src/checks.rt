//! Tests of a row.

ghost use Rattle.std.specs.Prelude.{◌≡◌, IfOk, true};
ghost use Rattle.std.specs.Option.{option_copied};
ghost use Rattle.gob_plan.specs.Rows.{conforms, value_of};
ghost use Rattle.gob_plan.specs.Tests.{check_holds, length_within, order_is, test_fits, test_holds, value_order};

use crate::like::is_like;
use crate::{Columns, NoMemory, Row, Text, Value};
use std::cmp::Ordering;

/// How a value is compared.
#[derive(Clone, Copy, PartialEq, Eq)]
pub enum How {
    Eq,
    Lt,
    Le,
    Gt,
    Ge,
}

impl How {
    fn is_met_by(self, order: Ordering) -> bool
        ensures { result ≡ order_is self order }
    {
        match self {
            How::Eq => order.is_eq(),
            How::Lt => order.is_lt(),
            How::Le => order.is_le(),
            How::Gt => order.is_gt(),
            How::Ge => order.is_ge(),
        }
    }
}

fn order_of(value: &Value, other: &Value) -> Option<Ordering>
    ensures { result ≡ value_order value.now other.now }
{
    match (value, other) {
        (Value::Bool(a), Value::Bool(b)) => Some(a.cmp(b)),
        (Value::Int(a), Value::Int(b)) => Some(a.cmp(b)),
        (Value::Text(a), Value::Text(b)) => Some(a.as_str().cmp(b.as_str())),
        _ => None,
    }
}

/// What is looked for in a value.
#[derive(Clone, Drop)]
pub enum Check {
    Null,
    Compare { how: How, value: Value },
    Like { pattern: Text },
    Bytes { low: u64, high: u64 },
}

impl Check {
    pub fn copy(&self) -> Result<Self, NoMemory>
        ensures { IfOk result (λ c. c ≡ self.now) }
    {
        Ok(self.clone()?)
    }

    fn holds(&self, value: &Value) -> bool
        ensures { result ≡ check_holds self.now value.now }
    {
        match (self, value) {
            (Check::Null, _) => matches!(value, Value::Null),
            (Check::Compare { how, value: other }, _) => match order_of(value, other) {
                Some(order) => how.is_met_by(order),
                None => false,
            },
            (Check::Like { pattern }, Value::Text(text)) => is_like(
                pattern.as_str(),
                text.as_str(),
            ),
            (Check::Bytes { low, high }, Value::Text(text)) => {
                let bytes = text.len() as u64;
                *low <= bytes && bytes <= *high
            }
            _ => false,
        }
    }
}

/// A check of one column's value, turned round where it is negated.
#[derive(Clone, Drop)]
pub struct TestSpec {
    pub negated: bool,
    pub column: Text,
    pub check: Check,
}

impl TestSpec {
    pub fn copy(&self) -> Result<Self, NoMemory>
        ensures { IfOk result (λ c. c ≡ self.now) }
    {
        Ok(self.clone()?)
    }
}

// The value of the column that the test names.
fn value_tested<'a>(test: &TestSpec, columns: &Columns, row: &'a Row) -> &'a Value
    requires fits { test_fits test.now columns.now ≡ true }
    requires conforms { conforms columns.now row.now ≡ true }
    ensures { result.now ≡ value_of test.now.column columns.now row.now.values }
{
    match columns.find(test.column.as_str()) {
        Some(place) => &row.values.as_slice()[place],
        None => unreachable!(),
    }
}

/// What the test says of the row. It takes no memory, and for a pattern at most the product of the lengths.
pub fn holds(test: &TestSpec, columns: &Columns, row: &Row) -> bool
    requires fits { test_fits test.now columns.now ≡ true }
    requires conforms { conforms columns.now row.now ≡ true }
    ensures { result ≡ test_holds test.now columns.now row.now }
{
    test.check.holds(value_tested(test, columns, row)) != test.negated
}
