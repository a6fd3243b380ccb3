//! In which folder a row is placed.
ghost use Rattle.std.specs.Prelude.{◌≡◌, true, OnOk};
ghost use Rattle.gob_meaning.specs.Plans.{place_fits};
ghost use Rattle.gob_branch.specs.Branches.{Places, place_by};

use gob_convert::Placer;
use gob_plan::{Columns, NoMemory, PlaceSpec, Row};
use gob_timeplace::Day;

// The day that rows of these columns are placed by, where they are placed by one.
pub fn placing(place: &PlaceSpec, columns: &Columns) -> Option<Day>
    requires { place_fits place.now columns.now ≡ true }
    ensures { Places place.now columns.now result }
{
    match place {
        PlaceSpec::Plain => None,
        PlaceSpec::Day { column } => match columns.find(column.as_str()) {
            Some(at) => Some(Day::new(at)),
            None => unreachable!(),
        },
    }
}

// Writes the folder of a row in place of what the buffer held.
pub fn write_place(day: Option<Day>, row: &Row, into: &mut Vec<u8>) -> Result<(), NoMemory>
    ensures { OnOk result (into.new.items ≡ place_by day row.now) }
{
    into.clear();
    if let Some(day) = day {
        day.push_place(row, into)?;
    }
    Ok(())
}
