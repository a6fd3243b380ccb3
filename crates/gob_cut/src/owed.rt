//! The open ranges of all partitions, as units.
ghost use Rattle.std.specs.Prelude.{◌≡◌, ◌++◌, is_some, map, OnOk};
ghost use Rattle.gob_bytes.specs.Tables.{IsInByteOrder, at_name, names_of};
ghost use Rattle.gob_marks.specs.Tables.{TiledTable};
ghost use Rattle.gob_cut.specs.Rounds.{owed_units_of, unit_of_range};

use gob_marks::{MarkTable, Range};
use gob_memory::get;
use gob_plan::{List, NoMemory, Text, Unit};
use std::alloc::Global;

/// Adds the open ranges, in order of partition and offset.
pub fn add_owed(
    alloc: Global,
    kept: &[(Text, u64)],
    marks: &MarkTable,
    units: &mut List<Unit>,
) -> Result<(), NoMemory>
    requires { IsInByteOrder (names_of kept.now) }
    ensures units { OnOk result (units.new ≡ units.old ++ owed_units_of kept.now marks.now) }
    ensures tiled { TiledTable marks.now }
{
    for place in 0..marks.len() {
        let Some((part, marks)) = marks.at(place) else {
            unreachable!()
        };
        let listed = is_listed(kept, part);
        add_ranges(alloc, part, listed, marks.open_ranges(), units)?;
    }
    Ok(())
}

// Whether the job takes a partition of this name.
fn is_listed(kept: &[(Text, u64)], part: &str) -> bool
    requires { IsInByteOrder (names_of kept.now) }
    ensures { result ≡ is_some (at_name kept.now part.now) }
{
    get(kept, part).is_some()
}

// Adds ranges of one partition.
fn add_ranges(
    alloc: Global,
    part: &str,
    listed: bool,
    ranges: &[Range],
    units: &mut List<Unit>,
) -> Result<(), NoMemory>
    ensures { OnOk result (units.new ≡ units.old ++ map (unit_of_range part.now listed) ranges.now) }
{
    for range in ranges {
        let part = Text::from_str(alloc, part)?;
        units.push(Unit {
            part,
            lo: range.lo,
            hi: range.hi,
            fresh: false,
            listed,
        })?;
    }
    Ok(())
}
