//! New units: the first cut of each partition, then the second of each, and so on.
ghost use Rattle.std.specs.Prelude.{◌≡◌, ◌≢◌, ◌≤◌, ◌<◌, ◌+◌, ◌-◌, ◌++◌, [], All, length, take, IfOk, IfSome, OnOk};
ghost use Rattle.std.specs.Prelude.{IsErr};
ghost use Rattle.gob_bytes.specs.Tables.{IsInByteOrder, names_of};
ghost use Rattle.gob_device.specs.Causes.{HasCause};
ghost use Rattle.gob_cut.specs.Going.{Goes, PlacesRise};
ghost use Rattle.gob_cut.specs.Rounds.{AreSized, IsCursor, all_rounds, found_cursors, found_units, lists_of};

use crate::ends::next_end;
use crate::fault::Stop;
use gob_io::Source;
use gob_plan::{List, NoMemory, Text, Unit};
use std::alloc::Global;

/// A partition, by its place in a list, that may have further cuts from an offset on.
#[derive(Clone, Copy)]
pub struct Cursor {
    pub place: usize,
    pub at: u64,
}

/// Adds the first so many cuts of these partitions, round by round.
pub fn add_rounds<S: Source>(
    alloc: Global,
    source: &mut S,
    kept: &[(Text, u64)],
    max: u64,
    cursors: Vec<Cursor>,
    most: usize,
    units: &mut List<Unit>,
    window: &mut [u8],
) -> Result<(), Stop>
    requires room { 0 < length window.old }
    requires named { All (λ e. e.0 ≢ []) kept.now }
    requires rising { IsInByteOrder (names_of kept.now) }
    requires cursors { All (IsCursor kept.now) cursors.items }
    requires apart { PlacesRise 0 cursors.items }
    ensures units { OnOk result (IfSome (S.supply source.old) (λ s. AreSized s.held kept.now
        → units.new ≡ units.old ++ take most (all_rounds (lists_of s.held max kept.now cursors.items)))) }
    ensures goes { OnOk result (Goes kept.now cursors.items [] units.old units.new) }
    ensures few { OnOk result (length units.new ≤ length units.old + most) }
    ensures supply { S.supply source.new ≡ S.supply source.old }
    ensures cause { HasCause (S.faults source.old) (S.faults source.new) (result ≡ Err Stop.Failed) }
    ensures planned { HasCause (S.plan_faults source.old) (S.plan_faults source.new) (result ≡ Err Stop.Failed) }
{
    let mut left = most;
    let mut going = cursors;
    while !going.is_empty() {
        let next = round(
            alloc,
            source,
            kept,
            max,
            going.as_slice(),
            left,
            units,
            window,
        )?;
        left -= next.len();
        going = next;
    }
    Ok(())
}

// Adds one more cut of each partition, at most so many, and tells which partitions may have further ones.
fn round<S: Source>(
    alloc: Global,
    source: &mut S,
    kept: &[(Text, u64)],
    max: u64,
    cursors: &[Cursor],
    most: usize,
    units: &mut List<Unit>,
    window: &mut [u8],
) -> Result<Vec<Cursor>, Stop>
    requires room { 0 < length window.old }
    requires named { All (λ e. e.0 ≢ []) kept.now }
    requires rising { IsInByteOrder (names_of kept.now) }
    requires cursors { All (IsCursor kept.now) cursors.now }
    requires apart { PlacesRise 0 cursors.now }
    ensures units { IfOk result (λ going. IfSome (S.supply source.old) (λ s. AreSized s.held kept.now
        → units.new ++ take (most - length going.items) (all_rounds (lists_of s.held max kept.now going.items))
        ≡ units.old ++ take most (all_rounds (lists_of s.held max kept.now cursors.now)))) }
    ensures goes { IfOk result (λ going. Goes kept.now cursors.now going.items units.old units.new) }
    ensures count { IfOk result (λ going. length units.new ≡ length units.old + length going.items) }
    ensures few { IfOk result (λ going. length going.items ≤ most) }
    ensures cursors { IfOk result (λ going. All (IsCursor kept.now) going.items) }
    ensures supply { S.supply source.new ≡ S.supply source.old }
    ensures cause { HasCause (S.faults source.old) (S.faults source.new) (result ≡ Err Stop.Failed) }
    ensures planned { HasCause (S.plan_faults source.old) (S.plan_faults source.new) (result ≡ Err Stop.Failed) }
{
    let mut going = Vec::new(alloc);
    for cursor in cursors {
        if going.len() >= most {
            return Ok(going);
        }
        let (part, size) = &kept[cursor.place];
        let end = next_end(source, part.as_str(), *size, cursor.at, max, window)?;
        add_cut(units, &mut going, *cursor, part, end)?;
    }
    Ok(going)
}

// Adds a cut where there is one, and goes on behind it.
fn add_cut(
    units: &mut List<Unit>,
    going: &mut Vec<Cursor>,
    cursor: Cursor,
    part: &Text,
    end: Option<u64>,
) -> Result<(), NoMemory>
    ensures units { OnOk result (units.new ≡ units.old ++ found_units part.now cursor.at end) }
    ensures going { OnOk result (going.new.items ≡ going.old.items ++ found_cursors cursor.place end) }
{
    let Some(hi) = end else {
        return Ok(());
    };
    let part = part.copy()?;
    units.push(Unit {
        part,
        lo: cursor.at,
        hi,
        fresh: true,
        listed: true,
    })?;
    going.push(Cursor {
        place: cursor.place,
        at: hi,
    })?;
    Ok(())
}
