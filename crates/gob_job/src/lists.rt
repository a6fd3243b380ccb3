//! Values that are lists, and values that are read over columns.
ghost use Rattle.std.specs.Prelude.{◌≡◌, IfOk, length, map};
ghost use Rattle.gob_bytes.specs.Tables.{at_name};
ghost use Rattle.gob_plan.specs.declared.steps.Refusal.TheVariants.{BadKind};
ghost use Rattle.gob_plan.specs.declared.steps.StepFault.TheVariants.{Refused};
ghost use Rattle.gob_meaning.specs.Plans as plans;
ghost use Rattle.gob_jobs.specs.Elements as elements;
ghost use Rattle.gob_jobs.specs.KeyTable as spec;
ghost use Rattle.gob_jobs.specs.Words.{each_read, number_within, value_map};
ghost use Rattle.gob_job.specs.Cuts.{texts_of};
ghost use Rattle.gob_job.specs.Faults.{ReadsValue, TakesElement, unless_some_refusal};
ghost use Rattle.gob_job.specs.Names.{word_and_value};

use crate::checks::read_policies;
use crate::columns::{bad_value, kind_there};
use crate::cuts::{column_word, elements, few_elements, number_within, split_piece, words_of};
use crate::faults::ValueFault;
use crate::steps::read_steps;
use crate::tables::{Named, at_name, format_of, kind_of_word};
use gob_plan::{
    Column, Columns, Format, Kind, List, Mode, NoMemory, PlaceSpec, PolicySpec, Refusal, StepFault,
    StepSpec, TaskPolicy, Text,
};
use std::alloc::Global;

/// The most steps of a list.
const MOST_STEPS: usize = 32;

/// The most tests of a list.
const MOST_TESTS: usize = 16;

// ---- words and numbers

/// The values of a list of words, each of which is in the table.
pub(crate) fn listed<T: Copy>(
    alloc: Global,
    table: &[Named<T>],
    value: &[u8],
) -> Result<Option<List<T>>, NoMemory>
    ensures { IfOk result (λ found. found ≡ spec.list_read 44 (at_name (map word_and_value table.now)) value.now) }
{
    let Some(elements) = elements(alloc, b',', value)? else {
        return Ok(None);
    };
    each_named(alloc, table, elements.as_slice())
}

fn each_named<T: Copy>(
    alloc: Global,
    table: &[Named<T>],
    elements: &[&[u8]],
) -> Result<Option<List<T>>, NoMemory>
    ensures { IfOk result (λ found. found ≡ each_read (at_name (map word_and_value table.now))
        (texts_of elements.now)) }
{
    let mut values = List::new(alloc);
    for element in elements {
        let Some(value) = at_name(table, element) else {
            return Ok(None);
        };
        values.push(value)?;
    }
    Ok(Some(values))
}

/// 1 to 64 numbers from 0 to 63.
#[tactic(auto, unfolding(gob_jobs::specs::KeyTable::schedule_read))]
pub(crate) fn read_schedule(alloc: Global, value: &[u8]) -> Result<Option<List<u32>>, NoMemory>
    ensures { IfOk result (λ found. found ≡ spec.schedule_read value.now) }
{
    let Some(elements) = elements(alloc, b',', value)? else {
        return Ok(None);
    };
    match each_place(alloc, elements.as_slice())? {
        Some(places) if places.len() >= 1 && places.len() <= 64 => Ok(Some(places)),
        _ => Ok(None),
    }
}

fn each_place(alloc: Global, elements: &[&[u8]]) -> Result<Option<List<u32>>, NoMemory>
    ensures { IfOk result (λ found. found ≡ each_read (number_within 0 63) (texts_of elements.now)) }
{
    let mut places = List::new(alloc);
    for element in elements {
        let Some(place) = number_within(0, 63, element) else {
            return Ok(None);
        };
        places.push(place as u32)?;
    }
    Ok(Some(places))
}

// ---- columns

// A name and a kind, with a colon between.
fn read_column(alloc: Global, element: &[u8]) -> Result<Option<Column>, NoMemory>
    ensures { IfOk result (λ found. found ≡ spec.column_read element.now) }
{
    let (name, rest) = split_piece(b':', element);
    let Some(rest) = rest else {
        return Ok(None);
    };
    let (kind, more) = split_piece(b':', rest);
    if more.is_some() {
        return Ok(None);
    }
    let Some(kind) = kind_of_word(kind) else {
        return Ok(None);
    };
    match column_word(alloc, name)? {
        Some(name) => Ok(Some(Column { name, kind })),
        None => Ok(None),
    }
}

fn each_column(alloc: Global, elements: &[&[u8]]) -> Result<Option<List<Column>>, NoMemory>
    ensures { IfOk result (λ found. found ≡ each_read spec.column_read (texts_of elements.now)) }
{
    let mut columns = List::new(alloc);
    for element in elements {
        let Some(column) = read_column(alloc, element)? else {
            return Ok(None);
        };
        columns.push(column)?;
    }
    Ok(Some(columns))
}

fn columns_listed(alloc: Global, value: &[u8]) -> Result<Option<Columns>, NoMemory>
    ensures { IfOk result (λ found. found ≡ spec.columns_listed value.now) }
{
    let Some(elements) = elements(alloc, b',', value)? else {
        return Ok(None);
    };
    match each_column(alloc, elements.as_slice())? {
        Some(columns) => Ok(Columns::new(columns).ok()),
        None => Ok(None),
    }
}

/// The columns of whole lines: one, of texts.
pub(crate) fn line_columns(alloc: Global) -> Result<Columns, NoMemory>
    ensures { IfOk result (λ columns. columns ≡ spec.line_columns) }
{
    let mut columns = List::new(alloc);
    columns.push(Column {
        name: Text::from_str(alloc, "line")?,
        kind: Kind::Text,
    })?;
    match Columns::new(columns) {
        Ok(columns) => Ok(columns),
        Err(_) => unreachable!(),
    }
}

/// The columns of a source of this format.
#[tactic(auto, unfolding(gob_jobs::specs::KeyTable::columns_read))]
pub(crate) fn read_columns(
    alloc: Global,
    format: Format,
    value: &[u8],
) -> Result<Option<Columns>, NoMemory>
    ensures { IfOk result (λ found. found ≡ spec.columns_read format value.now) }
{
    match format {
        Format::Lines if value.is_empty() => Ok(Some(line_columns(alloc)?)),
        Format::Lines => Ok(None),
        Format::Csv => columns_listed(alloc, value),
        Format::Json => columns_listed(alloc, value),
    }
}

// ---- over columns

/// A list of at most 32 steps over these columns.
#[tactic(auto, unfolding(gob_jobs::specs::KeyTable::steps_listed))]
pub(crate) fn steps_listed(
    alloc: Global,
    columns: &[Column],
    value: &[u8],
) -> Result<List<StepSpec>, ValueFault>
    ensures { ReadsValue (λ steps. steps) result (spec.steps_listed columns.now value.now) }
{
    match few_elements(alloc, MOST_STEPS, b';', value)? {
        Some(elements) => Ok(read_steps(alloc, columns, elements.as_slice())?),
        None => Err(ValueFault::bad_value()),
    }
}

/// Policies of a list of at most 16 tests of these columns; until their modes are read they fail their unit.
#[tactic(auto, unfolding(gob_jobs::specs::KeyTable::tests_listed))]
pub(crate) fn policies_listed(
    alloc: Global,
    columns: &[Column],
    value: &[u8],
) -> Result<List<PolicySpec>, ValueFault>
    ensures { ReadsValue (λ policies. policies) result
        (value_map (map spec.strict_policy) (spec.tests_listed columns.now value.now)) }
{
    match few_elements(alloc, MOST_TESTS, b';', value)? {
        Some(elements) => Ok(read_policies(alloc, columns, elements.as_slice())?),
        None => Err(ValueFault::bad_value()),
    }
}

// Why a format doesn't write these columns, if it doesn't.
fn check_written(format: Format, columns: &[Column]) -> Result<(), StepFault>
    ensures { TakesElement (λ _. format) result (unless_some_refusal format (plans.write_refusal format columns.now)) }
{
    if format != Format::Lines {
        return Ok(());
    }
    match columns {
        [] => Err(bad_value()),
        [only] if only.kind == Kind::Text => Ok(()),
        [only] => Err(bad_kind(only)?),
        [_, second, ..] => Err(bad_kind(second)?),
    }
}

fn bad_kind(column: &Column) -> Result<StepFault, NoMemory>
    ensures { IfOk result (λ fault. fault ≡ Refused (BadKind column.now.name)) }
{
    Ok(StepFault::Refused(Refusal::BadKind {
        column: column.name.copy()?,
    }))
}

/// The format of a branch with these columns.
#[tactic(auto, unfolding(gob_jobs::specs::KeyTable::format_read))]
pub(crate) fn read_format(columns: &[Column], value: &[u8]) -> Result<Format, ValueFault>
    ensures { ReadsValue (λ format. format) result (spec.format_read columns.now value.now) }
{
    let Some(format) = format_of(value) else {
        return Err(ValueFault::bad_value());
    };
    check_written(format, columns)?;
    Ok(format)
}

/// Where a branch places its rows, by its first word.
#[derive(Clone, Copy)]
pub(crate) enum PlaceWord {
    Plain,
    Day,
}

const PLACE_WORDS: [Named<PlaceWord>; 2] = [
    Named {
        name: "plain",
        value: PlaceWord::Plain,
    },
    Named {
        name: "day",
        value: PlaceWord::Day,
    },
];

#[tactic(auto, using(crate::proofs::Formed::place_formed))]
fn worded_place(alloc: Global, words: &[&[u8]]) -> Result<Option<PlaceSpec>, NoMemory>
    ensures { IfOk result (λ found. found ≡ elements.form_in elements.place_forms (texts_of words.now)) }
{
    let [first, more @ ..] = words else {
        return Ok(None);
    };
    let Some(word) = at_name(&PLACE_WORDS, first) else {
        return Ok(None);
    };
    match (word, more) {
        (PlaceWord::Plain, []) => Ok(Some(PlaceSpec::Plain)),
        (PlaceWord::Day, [column]) => match column_word(alloc, column)? {
            Some(column) => Ok(Some(PlaceSpec::Day { column })),
            None => Ok(None),
        },
        _ => Ok(None),
    }
}

// What a folder is made of must be a column of integers.
fn check_placed(alloc: Global, place: &PlaceSpec, columns: &[Column]) -> Result<(), StepFault>
    ensures { TakesElement (λ _. place.now) result (unless_some_refusal place.now
        (plans.place_refusal place.now columns.now)) }
{
    let PlaceSpec::Day { column } = place else {
        return Ok(());
    };
    match kind_there(alloc, column.as_str(), columns)? {
        Kind::Int => Ok(()),
        _ => Err(StepFault::Refused(Refusal::BadKind {
            column: column.copy()?,
        })),
    }
}

/// The place of a branch with these columns.
#[tactic(auto, unfolding(gob_jobs::specs::KeyTable::place_read))]
pub(crate) fn read_place(
    alloc: Global,
    columns: &[Column],
    value: &[u8],
) -> Result<PlaceSpec, ValueFault>
    ensures { ReadsValue (λ place. place) result (spec.place_read columns.now value.now) }
{
    let words = words_of(alloc, value)?;
    match worded_place(alloc, words.as_slice())? {
        Some(place) => {
            check_placed(alloc, &place, columns)?;
            Ok(place)
        }
        None => Err(ValueFault::bad_value()),
    }
}

// ---- modes of policies

/// The policies with these modes, one for each.
pub(crate) fn with_modes(
    alloc: Global,
    policies: &[PolicySpec],
    modes: &[Mode],
) -> Result<List<PolicySpec>, NoMemory>
    requires as_many { length modes.now ≡ length policies.now }
    ensures { IfOk result (λ with. with ≡ spec.with_modes modes.now policies.now) }
{
    let mut with = List::new(alloc);
    for i in 0..policies.len() {
        with.push(PolicySpec {
            test: policies[i].test.copy()?,
            mode: modes[i],
        })?;
    }
    Ok(with)
}

/// The same of task policies: whether each fails its unit.
pub(crate) fn with_task_modes(
    alloc: Global,
    policies: &[TaskPolicy],
    modes: &[bool],
) -> Result<List<TaskPolicy>, NoMemory>
    requires as_many { length modes.now ≡ length policies.now }
    ensures { IfOk result (λ with. with ≡ spec.with_task_modes modes.now policies.now) }
{
    let mut with = List::new(alloc);
    for i in 0..policies.len() {
        with.push(TaskPolicy {
            rule: policies[i].rule,
            fails: modes[i],
        })?;
    }
    Ok(with)
}
