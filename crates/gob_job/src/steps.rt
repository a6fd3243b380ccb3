//! Steps as they are worded, and read over columns.
ghost use Rattle.std.specs.Prelude.{◌≡◌, IfOk};
ghost use Rattle.gob_jobs.specs.Elements as spec;
ghost use Rattle.gob_jobs.specs.Words.{each_read};
ghost use Rattle.gob_job.specs.Cuts.{texts_of};
ghost use Rattle.gob_job.specs.Faults.{TakesElement};
ghost use Rattle.gob_job.specs.declared.steps.StepWord.TheVariants as word;
ghost use Rattle.gob_job.specs.Forms as forms;
ghost use Rattle.gob_job.specs.StepForms.{step_form};

use crate::checks::{only_value, test_over, value_read, worded_test};
use crate::columns::{bad_value, columns_after, columns_behind, copied};
use crate::cuts::{column_word, value_word, words_of};
use crate::tables::{Named, at_name, kind_of_word};
use gob_plan::{Column, List, NoMemory, StepFault, StepSpec, Text};
use std::alloc::Global;

/// What a step does, by its first word.
#[derive(Clone, Copy)]
pub(crate) enum StepWord {
    Keep,
    Drop,
    Rename,
    Cast,
    Set,
    Copy,
    Explode,
    Where,
    Upper,
    Lower,
}

const STEP_WORDS: [Named<StepWord>; 10] = [
    Named {
        name: "keep",
        value: StepWord::Keep,
    },
    Named {
        name: "drop",
        value: StepWord::Drop,
    },
    Named {
        name: "rename",
        value: StepWord::Rename,
    },
    Named {
        name: "cast",
        value: StepWord::Cast,
    },
    Named {
        name: "set",
        value: StepWord::Set,
    },
    Named {
        name: "copy",
        value: StepWord::Copy,
    },
    Named {
        name: "explode",
        value: StepWord::Explode,
    },
    Named {
        name: "where",
        value: StepWord::Where,
    },
    Named {
        name: "upper",
        value: StepWord::Upper,
    },
    Named {
        name: "lower",
        value: StepWord::Lower,
    },
];

// ---- words

// Column names, each word of which is one.
fn names_of(alloc: Global, words: &[&[u8]]) -> Result<Option<List<Text>>, NoMemory>
    ensures { IfOk result (λ found. found ≡ each_read spec.column_word (texts_of words.now)) }
{
    let mut names = List::new(alloc);
    for word in words {
        let Some(name) = column_word(alloc, word)? else {
            return Ok(None);
        };
        names.push(name)?;
    }
    Ok(Some(names))
}

fn only_name(alloc: Global, words: &[&[u8]]) -> Result<Option<Text>, NoMemory>
    ensures { IfOk result (λ found. found ≡ forms.only_name (texts_of words.now)) }
{
    match words {
        [word] => column_word(alloc, word),
        _ => Ok(None),
    }
}

fn two_names(alloc: Global, words: &[&[u8]]) -> Result<Option<(Text, Text)>, NoMemory>
    ensures { IfOk result (λ found. found ≡ forms.two_names (texts_of words.now)) }
{
    let [first, second] = words else {
        return Ok(None);
    };
    let Some(first) = column_word(alloc, first)? else {
        return Ok(None);
    };
    let Some(second) = column_word(alloc, second)? else {
        return Ok(None);
    };
    Ok(Some((first, second)))
}

// ---- one function for each form

fn cast(alloc: Global, words: &[&[u8]]) -> Result<Option<StepSpec>, NoMemory>
    ensures { IfOk result (λ found. found ≡ step_form word.Cast (texts_of words.now)) }
{
    let [column, kind] = words else {
        return Ok(None);
    };
    let Some(kind) = kind_of_word(kind) else {
        return Ok(None);
    };
    match column_word(alloc, column)? {
        Some(column) => Ok(Some(StepSpec::Cast { column, kind })),
        None => Ok(None),
    }
}

fn set(alloc: Global, words: &[&[u8]]) -> Result<Option<StepSpec>, NoMemory>
    ensures { IfOk result (λ found. found ≡ step_form word.Set (texts_of words.now)) }
{
    let [column, kind, value] = words else {
        return Ok(None);
    };
    let Some(kind) = kind_of_word(kind) else {
        return Ok(None);
    };
    let Some(column) = column_word(alloc, column)? else {
        return Ok(None);
    };
    let Some(text) = value_word(alloc, value)? else {
        return Ok(None);
    };
    match value_read(kind, text) {
        Some(value) => Ok(Some(StepSpec::Set {
            column,
            kind,
            value,
        })),
        None => Ok(None),
    }
}

fn explode(alloc: Global, words: &[&[u8]]) -> Result<Option<StepSpec>, NoMemory>
    ensures { IfOk result (λ found. found ≡ step_form word.Explode (texts_of words.now)) }
{
    let [column, separator] = words else {
        return Ok(None);
    };
    let Some(column) = column_word(alloc, column)? else {
        return Ok(None);
    };
    match value_word(alloc, separator)? {
        Some(separator) => Ok(Some(StepSpec::Explode { column, separator })),
        None => Ok(None),
    }
}

fn filter(alloc: Global, words: &[&[u8]]) -> Result<Option<StepSpec>, NoMemory>
    ensures { IfOk result (λ found. found ≡ step_form word.Where (texts_of words.now)) }
{
    match worded_test(alloc, words)? {
        Some(test) => Ok(Some(StepSpec::Where { test })),
        None => Ok(None),
    }
}

fn keep(alloc: Global, words: &[&[u8]]) -> Result<Option<StepSpec>, NoMemory>
    ensures { IfOk result (λ found. found ≡ step_form word.Keep (texts_of words.now)) }
{
    match names_of(alloc, words)? {
        Some(columns) => Ok(Some(StepSpec::Keep { columns })),
        None => Ok(None),
    }
}

fn drop_columns(alloc: Global, words: &[&[u8]]) -> Result<Option<StepSpec>, NoMemory>
    ensures { IfOk result (λ found. found ≡ step_form word.Drop (texts_of words.now)) }
{
    match names_of(alloc, words)? {
        Some(columns) => Ok(Some(StepSpec::Drop { columns })),
        None => Ok(None),
    }
}

fn rename(alloc: Global, words: &[&[u8]]) -> Result<Option<StepSpec>, NoMemory>
    ensures { IfOk result (λ found. found ≡ step_form word.Rename (texts_of words.now)) }
{
    match two_names(alloc, words)? {
        Some((from, to)) => Ok(Some(StepSpec::Rename { from, to })),
        None => Ok(None),
    }
}

fn copy(alloc: Global, words: &[&[u8]]) -> Result<Option<StepSpec>, NoMemory>
    ensures { IfOk result (λ found. found ≡ step_form word.Copy (texts_of words.now)) }
{
    match two_names(alloc, words)? {
        Some((from, to)) => Ok(Some(StepSpec::Copy { from, to })),
        None => Ok(None),
    }
}

fn upper(alloc: Global, words: &[&[u8]]) -> Result<Option<StepSpec>, NoMemory>
    ensures { IfOk result (λ found. found ≡ step_form word.Upper (texts_of words.now)) }
{
    match only_name(alloc, words)? {
        Some(column) => Ok(Some(StepSpec::Upper { column })),
        None => Ok(None),
    }
}

fn lower(alloc: Global, words: &[&[u8]]) -> Result<Option<StepSpec>, NoMemory>
    ensures { IfOk result (λ found. found ≡ step_form word.Lower (texts_of words.now)) }
{
    match only_name(alloc, words)? {
        Some(column) => Ok(Some(StepSpec::Lower { column })),
        None => Ok(None),
    }
}

// The step of this first word, with the words behind it.
fn step_of(alloc: Global, word: StepWord, words: &[&[u8]]) -> Result<Option<StepSpec>, NoMemory>
    ensures { IfOk result (λ found. found ≡ step_form word (texts_of words.now)) }
{
    match word {
        StepWord::Keep => keep(alloc, words),
        StepWord::Drop => drop_columns(alloc, words),
        StepWord::Rename => rename(alloc, words),
        StepWord::Cast => cast(alloc, words),
        StepWord::Set => set(alloc, words),
        StepWord::Copy => copy(alloc, words),
        StepWord::Explode => explode(alloc, words),
        StepWord::Where => filter(alloc, words),
        StepWord::Upper => upper(alloc, words),
        StepWord::Lower => lower(alloc, words),
    }
}

#[tactic(auto, using(crate::proofs::Formed::step_formed))]
fn worded_step(alloc: Global, words: &[&[u8]]) -> Result<Option<StepSpec>, NoMemory>
    ensures { IfOk result (λ found. found ≡ spec.form_in spec.step_forms (texts_of words.now)) }
{
    let [first, more @ ..] = words else {
        return Ok(None);
    };
    match at_name(&STEP_WORDS, first) {
        Some(word) => Ok(step_of(alloc, word, more)?),
        None => Ok(None),
    }
}

// ---- over columns

// A worded step over these columns.
fn step_over(alloc: Global, columns: &[Column], step: StepSpec) -> Result<StepSpec, StepFault>
    ensures { TakesElement (λ s. s) result (spec.step_over columns.now step) }
{
    match step {
        StepSpec::Where { test } => Ok(StepSpec::Where {
            test: test_over(columns, test)?,
        }),
        other => {
            columns_after(alloc, &other, columns)?;
            Ok(other)
        }
    }
}

// The step that an element is.
#[tactic(auto, unfolding(gob_jobs::specs::Elements::step_read))]
fn read_step(alloc: Global, columns: &[Column], element: &[u8]) -> Result<StepSpec, StepFault>
    ensures { TakesElement (λ s. s) result (spec.step_read columns.now element.now) }
{
    let words = words_of(alloc, element)?;
    match worded_step(alloc, words.as_slice())? {
        Some(step) => step_over(alloc, columns, step),
        None => Err(bad_value()),
    }
}

/// The steps that elements are, each on the columns behind those before it.
pub(crate) fn read_steps(
    alloc: Global,
    columns: &[Column],
    elements: &[&[u8]],
) -> Result<List<StepSpec>, StepFault>
    ensures { TakesElement (λ ss. ss) result (spec.steps_read columns.now (texts_of elements.now)) }
{
    let mut steps = List::new(alloc);
    let mut left = copied(alloc, columns)?;
    for element in elements {
        let step = read_step(alloc, left.as_slice(), element)?;
        left = columns_behind(alloc, &step, left.as_slice())?;
        steps.push(step)?;
    }
    Ok(steps)
}
