//! The folder of the day of a value.

ghost use Rattle.std.specs.Prelude.{◌≡◌, ◌+◌, ◌%◌, get_or, option_copied, slice_get};
ghost use Rattle.gob_plan.specs.declared.rows.Row.{Row as Line};
ghost use Rattle.gob_plan.specs.declared.rows.Value.TheVariants as value;
ghost use Rattle.gob_meaning.specs.Days.{date_folder, day_folder};
ghost use Rattle.gob_timeplace.specs.Folders.{IsDayOf, date_parts};

use gob_convert::Placer;
use gob_plan::{Row, Value};
use jiff_core::civil::Date;
use std::alloc::AllocError;

const SECONDS_A_DAY: u64 = 86_400;

/// The days of the calendar before 1970; it begins with the year -9999.
const DAYS_BEFORE_1970: u32 = 4_371_587;

/// The last second of the year 9999.
const LAST: u64 = 253_402_300_799;

const NO_DAY: &[u8] = b"none/";

/// Places a row in the folder `YYYY/MM/DD/` of the day of the value in this column, seconds since 1970-01-01. What is
/// no number from 0 to the end of the year 9999 is placed in `none/`.
#[derive(Clone, Copy)]
pub struct Day {
    column: usize,
}

impl Day {
    pub fn new(column: usize) -> Day
        ensures { (row : Line) → ⟦<Day as Placer>⟧.place result row
            ≡ day_folder (get_or row.values column value.Null) }
    {
        Day { column }
    }
}

impl Placer for Day {
    ghost use Rattle.std.specs.Prelude.{get_or};
    ghost use Rattle.gob_plan.specs.declared.rows.Value.TheVariants as value;
    ghost use Rattle.gob_meaning.specs.Days.{day_folder};
    ghost use Rattle.gob_timeplace.specs.Slashes.{ends_in_slash};

    type Rec = Row;

    ghost place = { λ d row. day_folder (get_or row.values d.column value.Null) };

    fn push_place(&self, row: &Row, into: &mut Vec<u8>) -> Result<(), AllocError> {
        match date_in(row, self.column) {
            Some(date) => into.extend_from_slice(&folder(date))?,
            None => into.extend_from_slice(NO_DAY)?,
        }
        Ok(())
    }

    ghost ends = { λ d row. ends_in_slash (get_or row.values d.column value.Null) };
}

// The day of the number in this column, where it has one.
fn date_in(row: &Row, column: usize) -> Option<Date>
    ensures { IsDayOf (get_or row.now.values column value.Null) result }
{
    match value_in(row, column) {
        Some(value) => date_of_value(value),
        None => None,
    }
}

fn value_in(row: &Row, column: usize) -> Option<&Value>
    ensures { option_copied result ≡ slice_get row.now.values column }
{
    row.values.as_slice().get(column)
}

fn date_of_value(value: &Value) -> Option<Date>
    ensures { IsDayOf value.now result }
{
    match value {
        Value::Int(second) => date_of(*second),
        Value::Null => None,
        Value::Bool(_) => None,
        Value::Text(_) => None,
    }
}

fn date_of(second: i64) -> Option<Date>
    ensures { IsDayOf (value.Int second) result }
{
    if second < 0 {
        return None;
    }
    let second = second.unsigned_abs();
    if second > LAST {
        return None;
    }
    let days = (second / SECONDS_A_DAY) as u32;
    Some(Date::from_days_since_min(DAYS_BEFORE_1970 + days))
}

#[tactic(auto, unfolding(gob_bytes::specs::Digits::padded_digits))]
fn folder(date: Date) -> [u8; 11]
    ensures { result ≡ date_folder (date_parts date) }
{
    let year = date.year.unsigned_abs();
    let month = u16::from(date.month);
    let day = u16::from(date.day);
    [
        last_digit(year / 10 / 10 / 10),
        last_digit(year / 10 / 10),
        last_digit(year / 10),
        last_digit(year),
        b'/',
        last_digit(month / 10),
        last_digit(month),
        b'/',
        last_digit(day / 10),
        last_digit(day),
        b'/',
    ]
}

fn last_digit(n: u16) -> u8
    ensures { result ≡ 48 + n % 10 }
{
    b'0' + (n % 10) as u8
}
