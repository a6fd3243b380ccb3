//! The units of a run.
ghost use Rattle.std.specs.Prelude.{◌≡◌, ◌≢◌, ◌<◌, ◌++◌, ℕ, [], All, length, take, IfErr, IfOk, IfSome, OnOk};
ghost use Rattle.std.specs.Prelude.{Some, None};
ghost use Rattle.std.specs.List.{AllByRecursion};
ghost use Rattle.gob_bytes.specs.Tables.{IsInByteOrder, names_of};
ghost use Rattle.gob_device.specs.Causes.{HasCause};
ghost use Rattle.gob_device.specs.Supply.{Held, listing_of};
ghost use Rattle.gob_ledger.specs.Units as ledger;
ghost use Rattle.gob_marks.specs.Tables.{TiledTable};
ghost use Rattle.gob_cut.specs.Faults.{ShrunkIsTold};
ghost use Rattle.gob_cut.specs.Going.{BeginsAt, PlacesRise};
ghost use Rattle.gob_cut.specs.Rounds.{AreSized, IsCursor, all_cuts_of, all_rounds, first_cursor, lists_of};
ghost use Rattle.gob_cut.specs.Rounds.{owed_units_of};
ghost use Rattle.gob_cut.specs.Units.{AreCut, UnitsAre};

use crate::fault::{CutFault, Stop};
use crate::listing::{kept_parts, next_of, refuse_shrunk, too_long};
use crate::owed::add_owed;
use crate::rounds::{Cursor, add_rounds};
use gob_io::{ListFault, Source};
use gob_marks::MarkTable;
use gob_plan::{Limits, List, NoMemory, Text, Unit};
use std::alloc::Global;

/// So many bytes are looked at in one call.
const WINDOW: usize = 65536;

/// The units of a run, and the partitions that are left alone since their names are too long.
#[derive(Drop)]
pub struct Cut {
    pub units: List<Unit>,
    pub too_long: List<Text>,
}

/// The units of a run: the open ranges, in order of partition and offset, and then cuts of what is new, in rounds: the
/// first cut of each partition, in byte order of names, then the second of each, and so on. A cut mostly costs one
/// look, and a partition that didn't grow none. Where a look gives fewer bytes than were listed, that partition's cuts
/// end there.
pub fn units<S: Source>(
    alloc: Global,
    source: &mut S,
    marks: &MarkTable,
    limits: &Limits,
) -> Result<Cut, CutFault>
    ensures units { IfOk result (λ cut. IfSome (S.supply source.old) (λ s.
        cut.units ≡ ledger.units_of_parts marks.now s.held limits.now)) }
    ensures too_long { IfOk result (λ cut. IfSome (S.supply source.old) (λ s.
        cut.too_long ≡ ledger.too_long limits.now (names_of s.held))) }
    ensures cut { IfOk result (UnitsAre marks.now limits.now) }
    ensures rising { OnOk result (IfSome (S.supply source.old) (λ s. IsInByteOrder (names_of s.held))) }
    ensures unshrunk { OnOk result (IfSome (S.supply source.old) (λ s.
        ledger.first_shrunk marks.now (listing_of s.held) ≡ None)) }
    ensures shrunk { IfErr result (λ f. IfSome (S.supply source.old) (λ s.
        ShrunkIsTold marks.now (listing_of s.held) f)) }
    ensures supply { S.supply source.new ≡ S.supply source.old }
    ensures cause { HasCause (S.faults source.old) (S.faults source.new) (result ≡ Err CutFault.Failed) }
    ensures planned { HasCause (S.plan_faults source.old) (S.plan_faults source.new) (result ≡ Err CutFault.Failed) }
{
    let Ok(mut window) = vec![in alloc; 0u8; WINDOW] else {
        return Err(CutFault::Memory);
    };
    let cut = units_through(alloc, source, marks, limits, window.as_mut_slice())?;
    Ok(cut)
}

/// The same, where a look sees as much as this window holds.
pub fn units_through<S: Source>(
    alloc: Global,
    source: &mut S,
    marks: &MarkTable,
    limits: &Limits,
    window: &mut [u8],
) -> Result<Cut, CutFault>
    requires room { 0 < length window.old }
    ensures units { IfOk result (λ cut. IfSome (S.supply source.old) (λ s.
        cut.units ≡ ledger.units_of_parts marks.now s.held limits.now)) }
    ensures too_long { IfOk result (λ cut. IfSome (S.supply source.old) (λ s.
        cut.too_long ≡ ledger.too_long limits.now (names_of s.held))) }
    ensures cut { IfOk result (UnitsAre marks.now limits.now) }
    ensures rising { OnOk result (IfSome (S.supply source.old) (λ s. IsInByteOrder (names_of s.held))) }
    ensures unshrunk { OnOk result (IfSome (S.supply source.old) (λ s.
        ledger.first_shrunk marks.now (listing_of s.held) ≡ None)) }
    ensures shrunk { IfErr result (λ f. IfSome (S.supply source.old) (λ s.
        ShrunkIsTold marks.now (listing_of s.held) f)) }
    ensures supply { S.supply source.new ≡ S.supply source.old }
    ensures cause { HasCause (S.faults source.old) (S.faults source.new) (result ≡ Err CutFault.Failed) }
    ensures planned { HasCause (S.plan_faults source.old) (S.plan_faults source.new) (result ≡ Err CutFault.Failed) }
{
    let parts = match source.list(alloc) {
        Ok(parts) => parts,
        Err(ListFault::Failed) => return Err(CutFault::Failed),
        Err(ListFault::Memory) => return Err(CutFault::Memory),
    };
    refuse_shrunk(parts.as_slice(), marks)?;
    let long = too_long(alloc, parts.as_slice(), limits)?;
    let kept = kept_parts(alloc, parts.as_slice(), limits)?;
    let units = units_of(alloc, source, kept.as_slice(), marks, limits, window)?;
    Ok(Cut {
        units,
        too_long: long,
    })
}

// The units over the partitions that the job takes.
fn units_of<S: Source>(
    alloc: Global,
    source: &mut S,
    kept: &[(Text, u64)],
    marks: &MarkTable,
    limits: &Limits,
    window: &mut [u8],
) -> Result<List<Unit>, Stop>
    requires room { 0 < length window.old }
    requires named { All (λ e. e.0 ≢ []) kept.now }
    requires rising { IsInByteOrder (names_of kept.now) }
    ensures units { IfOk result (λ units. IfSome (S.supply source.old) (λ s. AreSized s.held kept.now → units
        ≡ owed_units_of kept.now marks.now ++ take limits.now.max_new_units
        (all_rounds (all_cuts_of s.held marks.now limits.now.max_bytes kept.now)))) }
    ensures cut { IfOk result (λ units. AreCut kept.now marks.now limits.now.max_new_units units) }
    ensures tiled { OnOk result (TiledTable marks.now) }
    ensures supply { S.supply source.new ≡ S.supply source.old }
    ensures cause { HasCause (S.faults source.old) (S.faults source.new) (result ≡ Err Stop.Failed) }
    ensures planned { HasCause (S.plan_faults source.old) (S.plan_faults source.new) (result ≡ Err Stop.Failed) }
{
    let mut units = List::new(alloc);
    add_owed(alloc, kept, marks, &mut units)?;
    let cursors = first_cursors(alloc, kept, marks)?;
    let most = limits.max_new_units as usize;
    add_rounds(
        alloc,
        source,
        kept,
        limits.max_bytes,
        cursors,
        most,
        &mut units,
        window,
    )?;
    Ok(units)
}

// The partitions that have grown, each from where its new bytes begin.
fn first_cursors(
    alloc: Global,
    kept: &[(Text, u64)],
    marks: &MarkTable,
) -> Result<Vec<Cursor>, NoMemory>
    ensures cursors { IfOk result (λ cursors. All (IsCursor kept.now) cursors.items) }
    ensures apart { IfOk result (λ cursors. PlacesRise 0 cursors.items) }
    ensures begins { IfOk result (λ cursors.
        AllByRecursion (BeginsAt kept.now (ledger.next_of marks.now)) cursors.items) }
    ensures cuts { IfOk result (λ cursors. (held : Held) (max : ℕ) → AreSized held kept.now
        → all_rounds (lists_of held max kept.now cursors.items)
        ≡ all_rounds (all_cuts_of held marks.now max kept.now)) }
{
    let mut cursors = Vec::new(alloc);
    for place in 0..kept.len() {
        let (part, size) = &kept[place];
        let at = next_of(marks, part.as_str());
        push_grown(&mut cursors, place, at, *size)?;
    }
    Ok(cursors)
}

// Adds a partition that has grown.
fn push_grown(cursors: &mut Vec<Cursor>, place: usize, at: u64, size: u64) -> Result<(), NoMemory>
    ensures { OnOk result (cursors.new.items ≡ cursors.old.items ++ first_cursor place at size) }
{
    if at < size {
        cursors.push(Cursor { place, at })?;
    }
    Ok(())
}
