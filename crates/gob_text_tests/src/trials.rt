//! What tests say of rows, and which columns are proper, of gob_plan.

ghost use Rattle.std.specs.Prelude.{◌≡◌, IfOk, true, not, ◌&&◌, [], ◌∷◌, cond, codes};
ghost use Rattle.gob_plan.specs.Rows.{may_stand};
ghost use Rattle.gob_plan.specs.Tests.{check_holds, check_is_right, check_takes};

use crate::compare::{same_place, same_truth};
use crate::copies::{columns, text};
use gob_plan::{
    Check, Column, Columns, How, Kind, List, NoMemory, Row, TestSpec, Text, Value, holds,
};
use std::alloc::Global;
use std::process::Abort;
use std::test::Fail;

fn one_column(alloc: Global, kind: Kind) -> Result<Columns, NoMemory>
    ensures { IfOk result (λ c. c ≡ record { name = codes "v"; kind = kind } ∷ []) }
{
    let name = Text::from_str(alloc, "v")?;
    let mut list = List::new(alloc);
    list.push(Column { name, kind })?;
    match Columns::new(list) {
        Ok(columns) => Ok(columns),
        Err(_) => Err(NoMemory),
    }
}

fn one_value(alloc: Global, value: Value) -> Result<Row, NoMemory>
    ensures { IfOk result (λ row. row.values ≡ value ∷ []) }
{
    let mut values = List::new(alloc);
    values.push(value)?;
    Ok(Row { values })
}

/// What a check says of a value in a column of this kind.
fn verdict(
    alloc: Global,
    negated: bool,
    check: Check,
    kind: Kind,
    value: Value,
) -> Result<bool, NoMemory>
    requires fits { (check_takes check kind && check_is_right check kind) ≡ true }
    requires stands { may_stand kind value ≡ true }
    ensures { IfOk result (λ b. b ≡ cond negated (not (check_holds check value)) (check_holds check value)) }
{
    let test = TestSpec {
        negated,
        column: Text::from_str(alloc, "v")?,
        check,
    };
    let columns = one_column(alloc, kind)?;
    let row = one_value(alloc, value)?;
    Ok(holds(&test, &columns, &row))
}

/// A pattern, a text, and whether the whole text matches.
const PATTERNS: [(&str, &str, bool); 14] = [
    ("", "", true),
    ("", "a", false),
    ("*", "", true),
    ("a?c", "a\u{e9}c", true),
    ("a?c", "ac", false),
    ("*b*", "abc", true),
    ("*b", "abc", false),
    ("a*a", "a", false),
    ("*ab*cd", "abcabcd", true),
    ("*ab*ab", "abab", true),
    ("*ab*ab", "aba", false),
    ("*?*?", "\u{1f600}", false),
    ("\u{e9}*", "\u{e9}\u{e8}", true),
    (
        "*a*a*a*a*b",
        "aaaaaaaaaaaaaaaaaaaaaaaaaaaaaaaaaaaaaaaaaaaa",
        false,
    ),
];

#[test]
fn patterns_are_held_against_texts(rt: HostRuntime) -> Result<(), Fail> {
    for (pattern, lent, wanted) in PATTERNS {
        let check = Check::Like {
            pattern: text(rt.alloc(), pattern)?,
        };
        let value = Value::Text(text(rt.alloc(), lent)?);
        same_truth(
            &rt,
            verdict(rt.alloc(), false, check, Kind::Text, value)?,
            wanted,
        );
    }
    Ok(())
}

/// A way to compare, an integer, that with which it is compared, and the answer.
const COMPARED: [(How, i64, i64, bool); 10] = [
    (How::Eq, 3, 3, true),
    (How::Eq, 3, 4, false),
    (How::Lt, -4, 3, true),
    (How::Lt, 3, 3, false),
    (How::Le, 3, 3, true),
    (How::Le, 4, 3, false),
    (How::Gt, 4, 3, true),
    (How::Gt, 3, 3, false),
    (How::Ge, 3, 3, true),
    (How::Ge, 2, 3, false),
];

#[test]
fn integers_are_compared(rt: HostRuntime) -> Result<(), Fail> {
    for (how, value, with, wanted) in COMPARED {
        let check = Check::Compare {
            how,
            value: Value::Int(with),
        };
        same_truth(
            &rt,
            verdict(
                rt.alloc(),
                false,
                check.copy()?,
                Kind::Int,
                Value::Int(value),
            )?,
            wanted,
        );
        same_truth(
            &rt,
            verdict(rt.alloc(), true, check, Kind::Int, Value::Int(value))?,
            !wanted,
        );
    }
    Ok(())
}

#[test]
fn null_is_told_and_nothing_else_holds_of_it(rt: HostRuntime) -> Result<(), Fail> {
    let alloc = rt.alloc();
    let is_true = Check::Compare {
        how: How::Eq,
        value: Value::Bool(true),
    };
    let lengths = Check::Bytes { low: 0, high: 9 };
    same_truth(
        &rt,
        verdict(alloc, false, Check::Null, Kind::Bool, Value::Null)?,
        true,
    );
    same_truth(
        &rt,
        verdict(alloc, false, Check::Null, Kind::Bool, Value::Bool(true))?,
        false,
    );
    same_truth(
        &rt,
        verdict(alloc, false, is_true, Kind::Bool, Value::Null)?,
        false,
    );
    same_truth(
        &rt,
        verdict(alloc, true, lengths, Kind::Text, Value::Null)?,
        true,
    );
    Ok(())
}

/// A text, and whether it has two or three bytes.
const LENGTHS: [(&str, bool); 4] = [
    ("a", false),
    ("\u{e9}", true),
    ("abc", true),
    ("\u{1f600}", false),
];

#[test]
fn lengths_are_in_bytes(rt: HostRuntime) -> Result<(), Fail> {
    for (lent, wanted) in LENGTHS {
        let check = Check::Bytes { low: 2, high: 3 };
        let value = Value::Text(text(rt.alloc(), lent)?);
        same_truth(
            &rt,
            verdict(rt.alloc(), false, check, Kind::Text, value)?,
            wanted,
        );
    }
    Ok(())
}

fn check_columns(rt: &impl Abort, columns: &Columns) {
    same_place(rt, columns.find("t"), Some(2));
    same_place(rt, columns.find("u"), None);
    assert_eq!(rt; columns.len(), 3);
    assert!(rt; columns.get(1).is_some_and(|c| c.kind == Kind::Int) && columns.get(3).is_none());
}

// The columns, and each of them again.
fn columns_twice(alloc: Global) -> Result<List<Column>, NoMemory> {
    let mut twice = columns(alloc)?;
    for column in columns(alloc)?.as_slice() {
        twice.push(column.copy()?)?;
    }
    Ok(twice)
}

#[test]
fn columns_have_different_names(rt: HostRuntime) -> Result<(), Fail> {
    let proper = Columns::new(columns(rt.alloc())?).ok().ok_or("columns")?;
    check_columns(&rt, &proper);
    same_truth(&rt, Columns::new(List::new(rt.alloc())).is_err(), true);
    same_truth(&rt, Columns::new(columns_twice(rt.alloc())?).is_err(), true);
    Ok(())
}
