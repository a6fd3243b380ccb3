//! Tests as they are worded, and read over columns.
ghost use Rattle.std.specs.Prelude.{◌≡◌, ◌∷◌, IfOk, Some, map};
ghost use Rattle.gob_plan.specs.declared.plan.PolicySpec.{PolicySpec};
ghost use Rattle.gob_meaning.specs.Values as values;
ghost use Rattle.gob_jobs.specs.Elements as spec;
ghost use Rattle.gob_jobs.specs.KeyTable.{strict_policy};
ghost use Rattle.gob_jobs.specs.Words.{each_or_fault, value_map};
ghost use Rattle.gob_job.specs.Cuts.{texts_of};
ghost use Rattle.gob_job.specs.Faults.{TakesElement};
ghost use Rattle.gob_job.specs.Forms as forms;

use crate::columns::{bad_value, check_is_right, check_takes, kind_of};
use crate::cuts::{column_word, value_word, words_of};
use crate::tables::{Named, at_name, truth_of};
use gob_plan::{
    Check, Column, How, Kind, List, Mode, NoMemory, PolicySpec, Refusal, StepFault, TestSpec, Text,
    Value,
};
use gob_text::{read_i64, read_u64};
use std::alloc::Global;

/// What a test looks for, by its first word.
#[derive(Clone, Copy)]
pub(crate) enum CheckWord {
    Null,
    Compare(How),
    Like,
    Bytes,
}

const CHECK_WORDS: [Named<CheckWord>; 8] = [
    Named {
        name: "null",
        value: CheckWord::Null,
    },
    Named {
        name: "eq",
        value: CheckWord::Compare(How::Eq),
    },
    Named {
        name: "lt",
        value: CheckWord::Compare(How::Lt),
    },
    Named {
        name: "le",
        value: CheckWord::Compare(How::Le),
    },
    Named {
        name: "gt",
        value: CheckWord::Compare(How::Gt),
    },
    Named {
        name: "ge",
        value: CheckWord::Compare(How::Ge),
    },
    Named {
        name: "like",
        value: CheckWord::Like,
    },
    Named {
        name: "bytes",
        value: CheckWord::Bytes,
    },
];

/// The text of the only word.
pub(crate) fn only_value(alloc: Global, words: &[&[u8]]) -> Result<Option<Text>, NoMemory>
    ensures { IfOk result (λ found. found ≡ forms.only_value (texts_of words.now)) }
{
    match words {
        [word] => value_word(alloc, word),
        _ => Ok(None),
    }
}

// Two numbers, of which the first may be above the second.
fn two_numbers(words: &[&[u8]]) -> Option<(u64, u64)>
    ensures { result ≡ forms.two_number_form (texts_of words.now) }
{
    match words {
        [low, high] => Some((read_u64(low)?, read_u64(high)?)),
        _ => None,
    }
}

// The check of a first word and the words behind the column. A value to compare with is still a text.
#[tactic(auto, using(crate::proofs::Formed::check_formed))]
fn worded_check(alloc: Global, first: &[u8], words: &[&[u8]]) -> Result<Option<Check>, NoMemory>
    ensures { IfOk result (λ found. found ≡ spec.form_in spec.check_forms (first.now ∷ texts_of words.now)) }
{
    let Some(word) = at_name(&CHECK_WORDS, first) else {
        return Ok(None);
    };
    match word {
        CheckWord::Null => match words {
            [] => Ok(Some(Check::Null)),
            _ => Ok(None),
        },
        CheckWord::Compare(how) => match only_value(alloc, words)? {
            Some(text) => Ok(Some(Check::Compare {
                how,
                value: Value::Text(text),
            })),
            None => Ok(None),
        },
        CheckWord::Like => match only_value(alloc, words)? {
            Some(pattern) => Ok(Some(Check::Like { pattern })),
            None => Ok(None),
        },
        CheckWord::Bytes => match two_numbers(words) {
            Some((low, high)) => Ok(Some(Check::Bytes { low, high })),
            None => Ok(None),
        },
    }
}

// A first word, a column and the words behind it.
fn check_words(alloc: Global, negated: bool, words: &[&[u8]]) -> Result<Option<TestSpec>, NoMemory>
    ensures { IfOk result (λ found. found ≡ spec.check_words negated (texts_of words.now)) }
{
    let [first, column, more @ ..] = words else {
        return Ok(None);
    };
    let Some(column) = column_word(alloc, column)? else {
        return Ok(None);
    };
    let Some(check) = worded_check(alloc, first, more)? else {
        return Ok(None);
    };
    Ok(Some(TestSpec {
        negated,
        column,
        check,
    }))
}

/// A test as it is worded, with one `not` in front or none. A value to compare with is still a text.
#[tactic(auto, unfolding(gob_jobs::specs::Elements::worded_test))]
pub(crate) fn worded_test(alloc: Global, words: &[&[u8]]) -> Result<Option<TestSpec>, NoMemory>
    ensures { IfOk result (λ found. found ≡ spec.worded_test (texts_of words.now)) }
{
    let [first, more @ ..] = words else {
        return Ok(None);
    };
    if *first == b"not".as_slice() {
        Ok(check_words(alloc, true, more)?)
    } else {
        Ok(check_words(alloc, false, words)?)
    }
}

// ---- over columns

/// A value of this kind, read from a text.
pub(crate) fn value_read(kind: Kind, text: Text) -> Option<Value>
    ensures { result ≡ values.value_read kind text }
{
    match kind {
        Kind::Bool => Some(Value::Bool(truth_of(text.as_str().as_bytes())?)),
        Kind::Int => Some(Value::Int(read_i64(text.as_str().as_bytes())?)),
        Kind::Text => Some(Value::Text(text)),
    }
}

// The check with the value that its text means to a column of this kind.
fn check_of_kind(kind: Kind, check: Check) -> Option<Check>
    ensures { result ≡ spec.check_of_kind kind check }
{
    match check {
        Check::Compare {
            how,
            value: Value::Text(text),
        } => Some(Check::Compare {
            how,
            value: value_read(kind, text)?,
        }),
        other => Some(other),
    }
}

fn test_of_kind(test: TestSpec, kind: Kind) -> Result<TestSpec, StepFault>
    ensures { TakesElement (λ t. t) result (spec.test_of_kind test (Some kind)) }
{
    let TestSpec {
        negated,
        column,
        check,
    } = test;
    if !check_takes(&check, kind) {
        return Err(StepFault::Refused(Refusal::BadKind { column }));
    }
    match check_of_kind(kind, check) {
        Some(check) if check_is_right(&check, kind) => Ok(TestSpec {
            negated,
            column,
            check,
        }),
        _ => Err(bad_value()),
    }
}

/// A worded test over these columns: its column must be there, then be of a kind that is tested so, and then the rest
/// must be right.
pub(crate) fn test_over(columns: &[Column], test: TestSpec) -> Result<TestSpec, StepFault>
    ensures { TakesElement (λ t. t) result (spec.test_over columns.now test) }
{
    match kind_of(test.column.as_str(), columns) {
        Some(kind) => test_of_kind(test, kind),
        None => Err(StepFault::Refused(Refusal::NoColumn {
            column: test.column,
        })),
    }
}

/// The test that an element is.
#[tactic(auto, unfolding(gob_jobs::specs::Elements::test_read))]
pub(crate) fn read_test(
    alloc: Global,
    columns: &[Column],
    element: &[u8],
) -> Result<TestSpec, StepFault>
    ensures { TakesElement (λ t. t) result (spec.test_read columns.now element.now) }
{
    let words = words_of(alloc, element)?;
    match worded_test(alloc, words.as_slice())? {
        Some(test) => test_over(columns, test),
        None => Err(bad_value()),
    }
}

/// The policies of the tests that elements are; until their modes are read they fail their unit.
pub(crate) fn read_policies(
    alloc: Global,
    columns: &[Column],
    elements: &[&[u8]],
) -> Result<List<PolicySpec>, StepFault>
    ensures { TakesElement (λ ps. ps) result
        (value_map (map strict_policy) (each_or_fault (spec.test_read columns.now) (texts_of elements.now))) }
{
    let mut policies = List::new(alloc);
    for element in elements {
        policies.push(PolicySpec {
            test: read_test(alloc, columns, element)?,
            mode: Mode::Fail,
        })?;
    }
    Ok(policies)
}
