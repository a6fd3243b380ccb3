//! The units of each dataset, by their places in the list of all units.

ghost use Rattle.std.specs.Prelude.{◌≡◌, ◌<◌, ℕ, All, IfOk, length, map, option_map, take};
ghost use Rattle.std.specs.BTreeMap as tree;
ghost use Rattle.std.specs.Cmp.Lexicographic.{slice_cmp};
ghost use Rattle.std.specs.Ordering.{nat_cmp};
ghost use Rattle.gob_commit.specs.Groups.{ArePlaces, PlacesAre, picked_items};

use gob_judge::dataset_of;
use gob_plan::{List, NoMemory, Unit, UnitResult};
use std::alloc::{AllocError, Global};
use std::collections::BTreeMap;

/// The places of each dataset's units, in byte order of datasets.
pub(crate) fn places_by_dataset(alloc: Global, units: &[Unit]) -> Result<Vec<Vec<usize>>, NoMemory>
    ensures { IfOk result (λ groups. ArePlaces units.now (map (λ places. places.items) groups.items)) }
{
    let datasets = places_of(alloc, units)?;
    let groups = in_order(alloc, datasets)?;
    Ok(groups)
}

fn in_order(
    alloc: Global,
    datasets: BTreeMap<&str, Vec<usize>>,
) -> Result<Vec<Vec<usize>>, AllocError>
    ensures { IfOk result (λ groups. groups.items ≡ tree.values datasets.entry) }
{
    datasets.into_values().collect(alloc)
}

fn places_of(alloc: Global, units: &[Unit]) -> Result<BTreeMap<&str, Vec<usize>>, NoMemory>
    ensures { IfOk result (PlacesAre units.now) }
{
    let mut datasets = BTreeMap::new(alloc);
    for i in 0..units.len() {
        let dataset = dataset_of(units[i].part.as_str());
        let none = Vec::new(alloc);
        let mut places = datasets.remove(&dataset).unwrap_or(none);
        places.push(i)?;
        datasets.insert(dataset, places)?;
    }
    Ok(datasets)
}

/// Copies of the units at these places.
pub(crate) fn units_at(
    alloc: Global,
    units: &[Unit],
    places: &[usize],
) -> Result<List<Unit>, NoMemory>
    requires { All (λ p. p < length units.now) places.now }
    ensures { IfOk result (λ us. us ≡ picked_items units.now places.now) }
{
    let mut group = List::new(alloc);
    for place in places {
        let unit = units[*place].copy()?;
        group.push(unit)?;
    }
    Ok(group)
}

/// Copies of the results at these places.
pub(crate) fn results_at(
    alloc: Global,
    results: &[UnitResult],
    places: &[usize],
) -> Result<List<UnitResult>, NoMemory>
    requires { All (λ p. p < length results.now) places.now }
    ensures { IfOk result (λ rs. rs ≡ picked_items results.now places.now) }
{
    let mut group = List::new(alloc);
    for place in places {
        let made = results[*place].copy()?;
        group.push(made)?;
    }
    Ok(group)
}
